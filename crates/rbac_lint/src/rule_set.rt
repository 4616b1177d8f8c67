//! Sets of rules, compared in an order of their words.

ghost use Rattle.std.specs.Prelude.{◌≡◌, ◌↔◌, IfOk, IsTrue, All, Contains};
ghost use Rattle.std.specs.Cmp.Lexicographic.{slice_cmp};
ghost use Rattle.rbac_terms.specs.Text.{text_cmp};
ghost use Rattle.rbac_lint.specs.Findings.{HasSameRules};
ghost use Rattle.rbac_lint.specs.Gathering.{rules_at};
ghost use Rattle.rbac_lint.specs.RuleSets.{IsIn, IsSetOf};

use rbac_terms::{Rule, Words};
use std::alloc::{AllocError, Global};
use std::cmp::Ordering;
use std::collections::BTreeSet;
use std::marker::Model;

// The order of two lists of words: word by word.
fn cmp_words(a: &Words, b: &Words) -> Ordering
    ensures { result ≡ slice_cmp text_cmp a.now b.now }
{
    a.as_slice().cmp(b.as_slice())
}

// A rule, as sets order it: by its five lists, word by word.
#[derive(Drop)]
struct RuleKey<'a> {
    rule: &'a Rule,
}

impl<'a> Model for RuleKey<'a> {
    ghost use Rattle.std.specs.Prelude.{ℕ, List};
    ghost use Rattle.rbac_lint.specs.RuleSets.{rule_lists};

    ghost Value = { List (List (List ℕ)) };

    ghost view = { λ k. rule_lists k.rule.now };
}

impl<'a> PartialEq for RuleKey<'a> {
    ghost use Rattle.std.specs.Cmp as Cmp;
    ghost use Rattle.std.specs.Ordering.{eq_by_cmp};
    ghost use Rattle.rbac_lint.specs.RuleSets.{lists_cmp, lists_cmp_equiv};

    ghost eq = { eq_by_cmp lists_cmp };

    ghost laws = { Cmp.partial_equiv_from_equiv lists_cmp_equiv };

    fn eq(&self, other: &Self) -> bool {
        self.cmp(other) == Ordering::Equal
    }
}

impl<'a> Eq for RuleKey<'a> {
    ghost use Rattle.rbac_lint.specs.RuleSets.{lists_cmp_equiv};

    ghost laws = { lists_cmp_equiv };
}

impl<'a> PartialOrd for RuleKey<'a> {
    ghost use Rattle.std.specs.Ordering.{as_partial_cmp};
    ghost use Rattle.rbac_lint.specs.RuleSets.{lists_cmp, lists_cmp_partial};

    ghost partial_cmp = { as_partial_cmp lists_cmp };

    ghost laws = { lists_cmp_partial };

    fn partial_cmp(&self, other: &Self) -> Option<Ordering> {
        Some(self.cmp(other))
    }
}

impl<'a> Ord for RuleKey<'a> {
    ghost use Rattle.std.specs.Prelude.{refl};
    ghost use Rattle.rbac_lint.specs.RuleSets.{lists_cmp, lists_cmp_total};

    ghost cmp = { lists_cmp };

    ghost total = { lists_cmp_total };

    ghost matches_partial_cmp = { λ _ _. refl };

    ghost matches_eq = { λ _ _. refl };

    fn cmp(&self, other: &Self) -> Ordering {
        let a = self.rule;
        let b = other.rule;
        let names = cmp_words(&a.resource_names, &b.resource_names);
        let last = names.then(cmp_words(&a.urls, &b.urls));
        let resources = cmp_words(&a.resources, &b.resources);
        let groups = cmp_words(&a.groups, &b.groups);
        let verbs = cmp_words(&a.verbs, &b.verbs);
        verbs.then(groups.then(resources.then(last)))
    }
}

// Whether the two lists hold the same rules, in whatever order and however often.
pub(crate) fn has_same_rules<'a>(
    alloc: Global,
    written: &[&'a Rule],
    gathered: &[&'a Rule],
) -> Result<bool, AllocError>
    ensures { IfOk result
        (λ same. IsTrue same
        ↔ HasSameRules (rules_at written.now) (Contains (rules_at gathered.now))) }
{
    let these = set_of(alloc, written)?;
    let those = set_of(alloc, gathered)?;
    Ok(hold_the_same(written, &these, gathered, &those))
}

// Whether the two lists hold the same rules, given the sets of both.
fn hold_the_same<'a>(
    written: &[&'a Rule],
    these: &BTreeSet<RuleKey<'a>>,
    gathered: &[&'a Rule],
    those: &BTreeSet<RuleKey<'a>>,
) -> bool
    requires written { IsSetOf (rules_at written.now) these.now }
    requires gathered { IsSetOf (rules_at gathered.now) those.now }
    ensures { IsTrue result
        ↔ HasSameRules (rules_at written.now) (Contains (rules_at gathered.now)) }
{
    each_is_in(written, those) && each_is_in(gathered, these)
}

fn set_of<'a>(alloc: Global, rules: &[&'a Rule]) -> Result<BTreeSet<RuleKey<'a>>, AllocError>
    ensures { IfOk result (IsSetOf (rules_at rules.now)) }
{
    let mut set = BTreeSet::new(alloc);
    for rule in rules {
        set.insert(RuleKey { rule: *rule })?;
    }
    Ok(set)
}

fn each_is_in<'a>(rules: &[&'a Rule], set: &BTreeSet<RuleKey<'a>>) -> bool
    ensures { IsTrue result ↔ All (λ rule. IsIn set.now rule.now) rules.now }
{
    for rule in rules {
        if !is_in(set, *rule) {
            return false;
        }
    }
    true
}

#[tactic(auto, unfolding(crate::specs::RuleSets::IsIn))]
fn is_in<'a>(set: &BTreeSet<RuleKey<'a>>, rule: &'a Rule) -> bool
    ensures { IsTrue result ↔ IsIn set.now rule.now }
{
    set.contains(&RuleKey { rule })
}
