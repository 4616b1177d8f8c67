//! The stems of targets. Targets are in order, so those with the same API group and resource text
//! are next to each other.

ghost use Rattle.std.specs.Prelude.{◌+◌, ◌<◌, ◌≤◌, ◌↔◌, IfOk, IsTrue, length, option_copied};
ghost use Rattle.rbac_model.specs.Lists.{IsAscendingBy};
ghost use Rattle.rbac_reaches.specs.Matched.{what_texts, AreOfStem, AreStemEnds, IsBetween};
ghost use Rattle.rbac_reaches.specs.Matched.{IsLaterOfStem, AreOneStem};
ghost use Rattle.rbac_model.specs.Universes.{most_targets};

use rbac_terms::{Target, Word};
use std::alloc::{AllocError, Global};

// Where the stems of the targets end, in order: the last at the number of targets.
pub(crate) fn stem_ends(alloc: Global, targets: &[Target]) -> Result<Vec<u32>, AllocError>
    requires few { length targets.now ≤ most_targets }
    requires ordered { IsAscendingBy what_texts targets.now }
    ensures { IfOk result (λ v. AreStemEnds targets.now 0 (length targets.now) v.items) }
{
    let mut ends = Vec::new(alloc);
    let mut at = 0;
    while at < targets.len() {
        at = stem_end(targets, at);
        ends.push(at as u32)?;
    }
    Ok(ends)
}

// Where the stem that begins at this place ends.
fn stem_end(targets: &[Target], at: usize) -> usize
    requires within { at < length targets.now }
    requires ordered { IsAscendingBy what_texts targets.now }
    ensures { AreOneStem targets.now at result }
{
    if targets[at].is_url() {
        at + 1
    } else {
        run_end(targets, at, None)
    }
}

// Whether the text comes after `after`, and before `before` if that is given.
pub(crate) fn is_between(text: &Word, after: &Word, before: Option<&Word>) -> bool
    ensures { IsTrue result ↔ IsBetween after.now (option_copied before.entry) text.now }
{
    match before {
        Some(before) => after < text && text < before,
        None => after < text,
    }
}

// The end of the run of targets that begins at this place. The targets after the first have its API
// group and resource text, and names before `before` if that is given. The search takes steps that
// double, and then halve.
pub(crate) fn run_end(targets: &[Target], at: usize, before: Option<&Word>) -> usize
    requires within { at < length targets.now }
    requires ordered { IsAscendingBy what_texts targets.now }
    ensures within { (at < result) × (result ≤ length targets.now) }
    ensures run { AreOfStem (option_copied before.entry) targets.now at result }
{
    let mut end = at + 1;
    let mut step = 1;
    while is_run(targets, at, end + step, before) {
        end += step;
        step *= 2;
    }
    run_end_within(targets, at, end, step, before)
}

// The end of a run, as in `run_end`, where the run reaches `reached` and ends within `within`
// places after it.
fn run_end_within(
    targets: &[Target],
    at: usize,
    reached: usize,
    within: usize,
    before: Option<&Word>,
) -> usize
    requires past { (at < reached) × (reached ≤ length targets.now) }
    requires step { within ≤ reached }
    requires ordered { IsAscendingBy what_texts targets.now }
    requires run { AreOfStem (option_copied before) targets.now at reached }
    ensures within { (at < result) × (result ≤ length targets.now) }
    ensures run { AreOfStem (option_copied before.entry) targets.now at result }
{
    let mut end = reached;
    let mut step = within;
    while 1 < step {
        step /= 2;
        if is_run(targets, at, end + step, before) {
            end += step;
        }
    }
    end
}

// Whether the run reaches `end`: it does if the last target before `end` belongs to it, since
// targets are in order.
fn is_run(targets: &[Target], at: usize, end: usize, before: Option<&Word>) -> bool
    requires past { at + 1 < end }
    requires ordered { IsAscendingBy what_texts targets.now }
    ensures { IsTrue result
        → (end ≤ length targets.now) × AreOfStem (option_copied before.entry) targets.now at end }
{
    end <= targets.len() && is_later_of_stem(&targets[at], &targets[end - 1], before)
}

// Whether the second target has the API group and resource text of the first, and a later name,
// which comes before `before` if that is given.
fn is_later_of_stem(first: &Target, second: &Target, before: Option<&Word>) -> bool
    ensures { IsTrue result ↔ IsLaterOfStem (option_copied before.entry) first.now second.now }
{
    let is_of_stem = second.group() == first.group() && second.text() == first.text();
    is_of_stem && is_between(second.name(), first.name(), before)
}
