//! Rules of the other policy that cover a rule.

ghost use Rattle.std.specs.Prelude.{◌<◌, IfOk, IfSome, IsTrue, length};
ghost use Rattle.rbac_diff.specs.StandIns.{HasRule, IsCoveringPlace};

use crate::covering::covers_rule;
use crate::unchanged::same_rule;
use rbac_terms::Rule;
use std::alloc::AllocError;

// The place of a rule that covers the given one, among `count` rules from `first` on. Prefers the
// same rule, word for word; otherwise the first that covers the given one.
#[tactic(auto, using(crate::proofs::CoveringRules::stands_covers))]
pub(crate) fn covering_place(
    rules: &[&Rule],
    first: usize,
    count: usize,
    rule: &Rule,
) -> Result<Option<usize>, AllocError>
    ensures { IfOk result (λ found. IfSome found (IsCoveringPlace rules.now rule.now)) }
{
    let at = place_near(rules, first, count, rule);
    if stands_at(rules, at, rule) {
        return Ok(Some(at));
    }
    first_covering(rules, first, count, rule)
}

// Whether the rule at that place is the given one, word for word.
fn stands_at(rules: &[&Rule], at: usize, rule: &Rule) -> bool
    ensures within { IsTrue result → at < length rules.now }
    ensures stands { IsTrue result → HasRule rules.now rule.now }
{
    rules.get(at).is_some_and(|held| same_rule(held, rule))
}

// The place of the same rule among `count` rules from `first` on, or `first` if none of these is
// the same.
fn place_near(rules: &[&Rule], first: usize, count: usize, rule: &Rule) -> usize {
    let found = rules
        .iter()
        .skip(first)
        .take(count)
        .position(|held| same_rule(held, rule));
    first.saturating_add(found.unwrap_or(0))
}

// The first place, among `count` rules from `first` on, of a rule that covers the given one.
fn first_covering(
    rules: &[&Rule],
    first: usize,
    count: usize,
    rule: &Rule,
) -> Result<Option<usize>, AllocError>
    ensures { IfOk result (λ found. IfSome found (IsCoveringPlace rules.now rule.now)) }
{
    for at in first..first.saturating_add(count).min(rules.len()) {
        if covers_rule(rules[at], rule)? {
            return Ok(Some(at));
        }
    }
    Ok(None)
}
