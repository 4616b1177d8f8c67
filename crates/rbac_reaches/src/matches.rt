//! The targets that a rule matches, verbs aside, stem by stem. The rule is asked about each stem;
//! if it has object names, it is asked about the names of the stem's targets too.

ghost use Rattle.std.specs.Prelude.{◌≡◌, ◌<◌, ◌≤◌, ℕ, Some, Contains, IfOk, OnOk, length};
ghost use Rattle.std.specs.Prelude.{slice_get};
ghost use Rattle.rbac_model.specs.Lists.{IsAscendingBy};
ghost use Rattle.rbac_terms.specs.Targets.{What, name_of};
ghost use Rattle.rbac_reaches.specs.Matched.{what_texts, AreStemEnds, IsByName, AreOneStem};
ghost use Rattle.rbac_reaches.specs.Matched.{IsWhole};
ghost use Rattle.rbac_reaches.specs.Reaches.{IsReach, IsReachBelow};
ghost use Rattle.rbac_model.specs.Universes.{most_targets};

use crate::ordered_rule::OrderedRule;
use crate::spans::Spans;
use crate::stems::run_end;
use rbac_terms::{Rule, Target};
use std::alloc::{AllocError, Global};

// The places of the targets that the rule matches, given where the targets' stems end.
pub(crate) fn matched(
    alloc: Global,
    rule: &Rule,
    targets: &[Target],
    ends: &[u32],
) -> Result<Spans, AllocError>
    requires few { length targets.now ≤ most_targets }
    requires ordered { IsAscendingBy what_texts targets.now }
    requires ends { AreStemEnds targets.now 0 (length targets.now) ends.now }
    ensures { IfOk result (λ s. IsReach rule.now targets.now s) }
{
    let rule = OrderedRule::new(alloc, rule)?;
    places_by_stem(alloc, &rule, targets, ends)
}

// The places of the targets that the rule matches, stem by stem.
fn places_by_stem(
    alloc: Global,
    rule: &OrderedRule<'_>,
    targets: &[Target],
    ends: &[u32],
) -> Result<Spans, AllocError>
    requires few { length targets.now ≤ most_targets }
    requires ordered { IsAscendingBy what_texts targets.now }
    requires ends { AreStemEnds targets.now 0 (length targets.now) ends.now }
    ensures { IfOk result (λ s. IsReach rule.now targets.now s) }
{
    let mut spans = Spans::new(alloc);
    let mut start = 0;
    for stem_end in ends {
        let end = *stem_end as usize;
        push_stem(&mut spans, rule, targets, start, end)?;
        start = end;
    }
    Ok(spans)
}

// Adds the places in one stem that the rule matches, after those in the stems before it.
fn push_stem(
    spans: &mut Spans,
    rule: &OrderedRule<'_>,
    targets: &[Target],
    start: usize,
    end: usize,
) -> Result<(), AllocError>
    requires few { length targets.now ≤ most_targets }
    requires ordered { IsAscendingBy what_texts targets.now }
    requires stem { AreOneStem targets.now start end }
    requires below { IsReachBelow rule.now targets.now start spans.old }
    ensures { OnOk result (IsReachBelow rule.now targets.now end spans.new) }
{
    let first = &targets[start];
    if first.is_url() || rule.is_nameless() {
        return push_whole(spans, rule, targets, start, end);
    }
    if rule.matches_stem(first) {
        return push_named(spans, rule, targets, start, end);
    }
    Ok(())
}

// Adds all of these places or none of them: the rule is asked about the first target.
fn push_whole(
    spans: &mut Spans,
    rule: &OrderedRule<'_>,
    targets: &[Target],
    start: usize,
    end: usize,
) -> Result<(), AllocError>
    requires few { length targets.now ≤ most_targets }
    requires within { (start < end) × (end ≤ length targets.now) }
    requires whole { IsWhole rule.now targets.now start end }
    requires below { IsReachBelow rule.now targets.now start spans.old }
    ensures { OnOk result (IsReachBelow rule.now targets.now end spans.new) }
{
    if rule.matches(&targets[start]) {
        return spans.push(start as u32, end as u32);
    }
    Ok(())
}

// Adds the places whose target has one of the rule's names.
fn push_named(
    spans: &mut Spans,
    rule: &OrderedRule<'_>,
    targets: &[Target],
    start: usize,
    end: usize,
) -> Result<(), AllocError>
    requires few { length targets.now ≤ most_targets }
    requires ordered { IsAscendingBy what_texts targets.now }
    requires within { (start ≤ end) × (end ≤ length targets.now) }
    requires by_name { IsByName rule.now targets.now start end }
    requires below { IsReachBelow rule.now targets.now start spans.old }
    ensures { OnOk result (IsReachBelow rule.now targets.now end spans.new) }
{
    let mut at = start;
    while at < end {
        if rule.has_name(targets[at].name()) {
            spans.push(at as u32, at as u32 + 1)?;
            at += 1;
        } else {
            at = next_named(rule, targets, at, end);
        }
    }
    Ok(())
}

// A place after `at`, and at most `end`: no target from `at` up to this place has one of the rule's
// names.
fn next_named(rule: &OrderedRule<'_>, targets: &[Target], at: usize, end: usize) -> usize
    requires within { (at < end) × (end ≤ length targets.now) }
    requires ordered { IsAscendingBy what_texts targets.now }
    requires unnamed { (t : What) → slice_get targets.now at ≡ Some t
        → ¬ Contains rule.now.resource_names (name_of t) }
    ensures within { (at < result) × (result ≤ end) }
    ensures none { (n : ℕ) (t : What) → at ≤ n → n < result → slice_get targets.now n ≡ Some t
        → ¬ Contains rule.now.resource_names (name_of t) }
{
    let before = rule.next_name(targets[at].name());
    run_end(targets, at, before).min(end)
}
