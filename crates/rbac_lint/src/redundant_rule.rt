//! Rules that another rule of their role covers.

ghost use Rattle.std.specs.Prelude.{◌≡◌, ◌<◌, List, length, IsTrue, ◌↔◌, slice_get};
ghost use Rattle.std.specs.Prelude.{Some, IfSome, IfOk, OnOk};
ghost use Rattle.std.specs.Option.{ForSome};
ghost use Rattle.rbac_model.specs.Sources.{source_of};
ghost use Rattle.rbac_terms.specs.declared.matching.Rule.{Rule as RuleView};
ghost use Rattle.rbac_lint.specs.Lines.{AddsLines, OfEach};
ghost use Rattle.rbac_lint.specs.RulesByWord.{IsAscending, AreRulesByWord};
ghost use Rattle.rbac_lint.specs.Prefixes.{ArePrefixes};
ghost use Rattle.rbac_lint.specs.Candidates.{IncludeCovers, IsLeastCoverIfAny, IsSoonest};
ghost use Rattle.rbac_covering.specs.Covering.{CoversAll};
ghost use Rattle.rbac_lint.specs.Findings.{MakesRedundantAt, MakesRedundant};
ghost use Rattle.rbac_lint.specs.Findings.{IsRedundantAt, IsRedundantOf, IsRedundant};
ghost use Rattle.rbac_lint.specs.Wanted.{OfKept, OfWanted};

use crate::candidates::{Candidates, fewest_for};
use crate::finding::{Finding, Findings, number_word, role_word};
use crate::roles::{role_at, role_count, wanted_rules};
use crate::rules_by_word::{RulesByWord, listed_by_word};
use crate::wanted::Wanted;
use rbac_covering::{OrderedRule, covers, ordered_rules};
use rbac_model::{Objects, SourceRole};
use rbac_terms::Rule;
use std::alloc::{AllocError, Global};

// A role's rules are listed by their words if the role has at least this many.
const MANY: usize = 16;

// Adds the findings that are asked for, for all plain roles.
pub(crate) fn find_redundant(
    alloc: Global,
    found: &mut Findings,
    objects: &Objects,
    wanted: &Wanted<'_>,
) -> Result<(), AllocError>
    ensures { OnOk result
        (AddsLines (OfWanted wanted.now (IsRedundant objects.now)) found.old found.new) }
{
    if !wanted.has_code(3) {
        return Ok(());
    }
    for place in 0..role_count(objects) {
        find_in_role(alloc, found, wanted, role_at(objects, place))?;
    }
    Ok(())
}

fn find_in_role(
    alloc: Global,
    found: &mut Findings,
    wanted: &Wanted<'_>,
    role: SourceRole<'_>,
) -> Result<(), AllocError>
    ensures { OnOk result
        (AddsLines (OfKept wanted.now (IsRedundantOf (source_of role.entry))) found.old found.new) }
{
    match wanted_rules(wanted, role) {
        Some(rules) => find_in_rules(alloc, found, role, rules),
        None => Ok(()),
    }
}

// Adds the findings for these rules of a role.
fn find_in_rules(
    alloc: Global,
    found: &mut Findings,
    role: SourceRole<'_>,
    rules: &[Rule],
) -> Result<(), AllocError>
    ensures { OnOk result
        (AddsLines (OfEach
        (λ i r. IsRedundantAt (source_of role.entry) rules.now i) rules.now) found.old found.new) }
{
    let by_word = by_word_if_many(alloc, rules)?;
    let ordered = ordered_rules(alloc, rules)?;
    find_in_ordered(alloc, found, role, ordered.as_slice(), by_word.as_ref())
}

// Adds the findings for these rules of a role. `by_word` has the rules by their words, if they are
// many.
fn find_in_ordered(
    alloc: Global,
    found: &mut Findings,
    role: SourceRole<'_>,
    rules: &[OrderedRule<'_>],
    by_word: Option<&RulesByWord>,
) -> Result<(), AllocError>
    requires { ForSome by_word (λ l. AreRulesByWord rules.now l.now) }
    ensures { OnOk result
        (AddsLines (OfEach
        (λ i r. IsRedundantAt (source_of role.entry) rules.now i) rules.now) found.old found.new) }
{
    for (place, rule) in rules.iter().enumerate() {
        find_at(alloc, found, role, rules, by_word, place, rule)?;
    }
    Ok(())
}

// These rules by their words; `None` if they are few, since comparing few takes less than listing.
fn by_word_if_many(alloc: Global, rules: &[Rule]) -> Result<Option<RulesByWord>, AllocError>
    ensures { IfOk result (λ l. ForSome l (AreRulesByWord rules.now)) }
{
    if rules.len() < MANY {
        return Ok(None);
    }
    Ok(Some(listed_by_word(alloc, rules)?))
}

// Adds the finding for the rule at this place, if the rule is redundant.
fn find_at(
    alloc: Global,
    found: &mut Findings,
    role: SourceRole<'_>,
    rules: &[OrderedRule<'_>],
    by_word: Option<&RulesByWord>,
    place: usize,
    rule: &OrderedRule<'_>,
) -> Result<(), AllocError>
    requires here { slice_get rules.now place ≡ Some rule.now }
    requires listed { ForSome by_word (λ l. AreRulesByWord rules.now l.now) }
    ensures { OnOk result
        (AddsLines (IsRedundantAt (source_of role.entry) rules.now place) found.old found.new) }
{
    let Some(wide) = covering_rule(alloc, rules, by_word, place, rule)? else {
        return Ok(());
    };
    let object = role_word(alloc, role)?;
    let other = number_word(alloc, wide + 1)?;
    found.push(Finding {
        code: 3,
        object,
        place: Some(place),
        other,
    })
}

// The least place of a rule that makes this one redundant.
fn covering_rule(
    alloc: Global,
    rules: &[OrderedRule<'_>],
    by_word: Option<&RulesByWord>,
    place: usize,
    rule: &OrderedRule<'_>,
) -> Result<Option<usize>, AllocError>
    requires here { slice_get rules.now place ≡ Some rule.now }
    requires listed { ForSome by_word (λ l. AreRulesByWord rules.now l.now) }
    ensures least { IfOk result (IsLeastCoverIfAny rules.now place) }
    ensures within { IfOk result (λ o. IfSome o (λ j. j < length rules.now)) }
{
    match candidates_if_listed(alloc, by_word, rule.rule())? {
        Some(candidates) => Ok(first_of(rules, candidates, place, rule)),
        None => Ok(first_of_all(rules, place, rule)),
    }
}

fn candidates_if_listed<'a>(
    alloc: Global,
    by_word: Option<&'a RulesByWord>,
    rule: &'a Rule,
) -> Result<Option<Candidates<'a>>, AllocError>
    requires { ForSome by_word (λ l. ArePrefixes l.now.prefixes.items) }
    ensures { IfOk result
        (λ o. (rules : List RuleView) → ForSome by_word.entry (λ l. AreRulesByWord rules l.now)
        → IfSome o (IncludeCovers rules rule.now)) }
{
    match by_word {
        Some(by_word) => fewest_for(alloc, by_word, rule),
        None => Ok(None),
    }
}

// The first rule among the candidates that makes this one redundant. The last lists are read first:
// they are those of the shortest prefixes, which cover the most, and a list is read only up to the
// place found so far.
fn first_of(
    rules: &[OrderedRule<'_>],
    mut candidates: Candidates<'_>,
    place: usize,
    rule: &OrderedRule<'_>,
) -> Option<usize>
    requires here { slice_get rules.now place ≡ Some rule.now }
    requires complete { IncludeCovers rules.now rule.now candidates }
    ensures least { IsLeastCoverIfAny rules.now place result }
    ensures within { IfSome result (λ j. j < length rules.now) }
{
    let mut first = rules.len();
    while let Some(listed) = candidates.lists.pop() {
        first = first_listed(rules, listed, first, place, rule);
    }
    if first < rules.len() {
        Some(first)
    } else {
        None
    }
}

// The least of these places below the limit whose rule makes this one redundant; the limit if there
// is none.
fn first_listed(
    rules: &[OrderedRule<'_>],
    listed: &[usize],
    limit: usize,
    place: usize,
    rule: &OrderedRule<'_>,
) -> usize
    requires here { slice_get rules.now place ≡ Some rule.now }
    requires ascending { IsAscending listed.now }
    ensures { IsSoonest rules.now place listed.now limit result }
{
    for other in listed {
        if limit <= *other {
            return limit;
        }
        if is_redundant_by(rules, place, rule, *other) {
            return *other;
        }
    }
    limit
}

// Whether the rule at the other place makes this one redundant.
fn is_redundant_by(
    rules: &[OrderedRule<'_>],
    place: usize,
    rule: &OrderedRule<'_>,
    other: usize,
) -> bool
    requires { slice_get rules.now place ≡ Some rule.now }
    ensures { IsTrue result ↔ MakesRedundant rules.now place other }
{
    match rules.get(other) {
        Some(wide) => makes_redundant(place, rule, other, wide),
        None => false,
    }
}

// The first of all rules that makes this one redundant.
fn first_of_all(rules: &[OrderedRule<'_>], place: usize, rule: &OrderedRule<'_>) -> Option<usize>
    requires { slice_get rules.now place ≡ Some rule.now }
    ensures least { IsLeastCoverIfAny rules.now place result }
    ensures within { IfSome result (λ j. j < length rules.now) }
{
    for (other, wide) in rules.iter().enumerate() {
        if makes_redundant(place, rule, other, wide) {
            return Some(other);
        }
    }
    None
}

// Whether the rule `wide`, at place `other`, makes this rule, at `place`, redundant.
#[tactic(auto, unfolding(crate::specs::Findings::MakesRedundantAt))]
fn makes_redundant(
    place: usize,
    rule: &OrderedRule<'_>,
    other: usize,
    wide: &OrderedRule<'_>,
) -> bool
    ensures { IsTrue result ↔ MakesRedundantAt place rule.now other wide.now }
{
    other != place && covers_all(wide, rule) && (other < place || !covers_all(rule, wide))
}

fn covers_all(a: &OrderedRule<'_>, b: &OrderedRule<'_>) -> bool
    ensures { IsTrue result ↔ CoversAll a.now b.now }
{
    covers(a, b.rule())
}
