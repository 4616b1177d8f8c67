//! Walks along a line's grants: those whose bindings name its principal and may be live.

ghost use Rattle.std.specs.Prelude.{◌≡◌, ◌↔◌, IsTrue, ◌<◌, ◌≤◌};
ghost use Rattle.std.specs.Prelude.{◌⊎◌, ℕ, IfSome, MatchOption, [], drop, false, length};
ghost use Rattle.rbac_model.specs.Policies.{PolicyView};
ghost use Rattle.rbac_subjects.specs.Bound.{IsNextRun};
ghost use Rattle.rbac_matrix.specs.Shown.{HasItsVerb, line_of};
ghost use Rattle.rbac_matrix.specs.Lines.{LineView};
ghost use Rattle.rbac_matrix.specs.Cursors.{AreRuns, AreRunsOn, IsAhead, IsBoundOn, IsCursorAt};
ghost use Rattle.rbac_matrix.specs.Cursors.{ComesTo, IsNextBound, IsNextRunOn};
ghost use Rattle.rbac_matrix.specs.Cursors.{IsWithin, KeepGrantVerbs, back_at, steps_left};

use crate::bound_runs::Runs;
use crate::grant_verbs::has_verb;
use crate::line::Line;
use rbac_index::Index;
use rbac_subjects::Run;
use rbac_terms::Principal;
use rbac_universe::Universe;

// About how many steps of a walk take as long as the look-up of one key of a principal.
const STEPS_FOR_A_KEY: usize = 64;

// About how many keys a principal has besides the keys of its given groups.
const IMPLIED_KEYS: usize = 2;

// By how much the number of steps is multiplied if runs are close together.
const CLOSE: usize = 16;

/// A walk along the grants of a line, run by run.
#[derive(Clone, Copy, Default)]
pub(crate) struct Walk {
    // The grants that are left of the current run: the numbers `next..end`.
    pub(crate) next: u32,
    end: u32,
    // The place of the next run among the kept runs.
    later: usize,
    // Past the kept runs: how many grants may still be stepped over before the next run is looked
    // up.
    steps: usize,
}

impl Walk {
    // The walk, set back to this grant of its current run.
    pub(crate) fn back_at(self, no: u32) -> Self
        ensures { result ≡ back_at self no }
    {
        Walk {
            next: no,
            end: self.end,
            later: self.later,
            steps: self.steps,
        }
    }
}

// A walk along all grants of a line.
pub(crate) fn whole_walk() -> Walk
    ensures ahead { (p : PolicyView) (l : LineView) (k : ℕ) → IsCursorAt p l k
        → IsAhead p l result k }
    ensures within { (p : PolicyView) (l : LineView) (runs : Runs) → AreRuns p l runs
        → IsWithin p l runs result }
    ensures first { result.next ≡ 0 }
{
    Walk {
        next: 0,
        end: 0,
        later: 0,
        steps: 0,
    }
}

// Returns the number of the next cursor, and moves past it; `None` if no cursor is left. `seen`
// counts the grants that the walk came to. With a wrong count the results are the same, but take
// longer.
#[inline(always)]
pub(crate) fn next_cursor(
    index: &Index<'_>,
    universe: &Universe,
    line: Line<'_>,
    runs: &Runs,
    walk: &mut Walk,
    seen: &mut usize,
) -> Option<u32>
    requires within { IsWithin index.now (line_of line) runs.now walk.old }
    requires told { KeepGrantVerbs index.now universe.now runs.now }
    requires verb { HasItsVerb universe.now line }
    ensures found { MatchOption result
        ((k : ℕ) → ¬ IsAhead index.now (line_of line.entry) walk.old k)
        (λ k. IsCursorAt index.now (line_of line.entry) k
        × ((other : ℕ) → IsAhead index.now (line_of line.entry) walk.old other
        → (other ≡ k) ⊎ IsAhead index.now (line_of line.entry) walk.new other)) }
    ensures within { IfSome result
        (λ _. IsWithin index.now (line_of line.entry) runs.now walk.new) }
    ensures ends { IfSome result
        (λ _. steps_left index.now walk.new < steps_left index.now walk.old) }
{
    while let Some(no) = next_bound(index, line, runs, walk) {
        let nth = *seen;
        *seen = nth.saturating_add(1);
        if has_verb(index, universe, runs.grants(), nth, no, line) {
            return Some(no);
        }
    }
    None
}

// The next grant whose binding names the line's principal and may be live, whatever the verbs of
// its rule; moves past it.
#[inline(always)]
pub(crate) fn next_bound(
    index: &Index<'_>,
    line: Line<'_>,
    runs: &Runs,
    walk: &mut Walk,
) -> Option<u32>
    requires { IsWithin index.now (line_of line) runs.now walk.old }
    ensures found { MatchOption result
        ((k : ℕ) → walk.old.next ≤ k → ¬ IsBoundOn index.now (line_of line.entry) k)
        (IsNextBound index.now (line_of line.entry) walk.old walk.new) }
    ensures ahead { MatchOption result
        ((k : ℕ) → ¬ IsAhead index.now (line_of line.entry) walk.old k)
        (λ k. (other : ℕ) → IsAhead index.now (line_of line.entry) walk.old other
        → (other ≡ k) ⊎ IsAhead index.now (line_of line.entry) walk.new other) }
    ensures number { IfSome result (λ k. k < length index.now.grants) }
    ensures within { IfSome result
        (λ _. IsWithin index.now (line_of line.entry) runs.now walk.new) }
    ensures ends { IfSome result
        (λ _. steps_left index.now walk.new < steps_left index.now walk.old) }
{
    if walk.end <= walk.next {
        let found = next_run(index, line, runs, walk)?;
        walk.next = found.start;
        walk.end = found.end;
    }
    let no = walk.next;
    walk.next = no + 1;
    Some(no)
}

// The next grant below `end` to look at. Skipped grants can't be cursors, and a returned one
// needn't be one. Past the kept runs, the grants after a run are looked at one by one, as long as
// this takes less time than a look-up of the next run.
#[inline(always)]
pub(crate) fn next_below(
    index: &Index<'_>,
    line: Line<'_>,
    runs: &Runs,
    end: u32,
    walk: &mut Walk,
) -> Option<u32>
    requires within { IsWithin index.now (line_of line) runs.now walk.old }
    requires few { end ≤ length index.now.grants }
    ensures found { MatchOption result
        ((k : ℕ) → walk.old.next ≤ k → k < end → ¬ IsBoundOn index.now (line_of line.entry) k)
        (λ k. ComesTo index.now (line_of line.entry) walk.old walk.new k × (k < end)) }
    ensures number { IfSome result (λ k. k < length index.now.grants) }
    ensures within { IfSome result
        (λ _. IsWithin index.now (line_of line.entry) runs.now walk.new) }
    ensures ends { IfSome result
        (λ _. steps_left index.now walk.new < steps_left index.now walk.old) }
{
    if end <= walk.next {
        return None;
    }
    if walk.end <= walk.next && 0 < walk.steps && runs.are_unknown_at(walk.later) {
        let no = walk.next;
        walk.next = no + 1;
        walk.end = no + 1;
        walk.steps -= 1;
        return Some(no);
    }
    let no = next_bound(index, line, runs, walk)?;
    if no < end { Some(no) } else { None }
}

// The run after the current one; `None` if there is none.
fn next_run(index: &Index<'_>, line: Line<'_>, runs: &Runs, walk: &mut Walk) -> Option<Run>
    requires { AreRunsOn index.now (line_of line) runs.now walk.old.end
        (drop walk.old.later runs.now.kept.items) }
    ensures found { MatchOption result
        ((k : ℕ) → walk.old.end ≤ k → ¬ IsBoundOn index.now (line_of line.entry) k)
        (IsNextRunOn index.now (line_of line.entry) runs.now walk.old walk.new) }
{
    let kept = runs.kept();
    if walk.later < kept.len() {
        let run = kept[walk.later];
        walk.later += 1;
        return Some(run);
    }
    if runs.are_all() {
        return None;
    }
    looked_up_run(index, line, walk)
}

// Looks up the run after the current one. Not inlined, which keeps the code of walks small: all
// lines walk, but few look up a run.
#[inline(never)]
fn looked_up_run(index: &Index<'_>, line: Line<'_>, walk: &mut Walk) -> Option<Run>
    ensures found { MatchOption result
        ((k : ℕ) → walk.old.end ≤ k → ¬ IsBoundOn index.now (line_of line.entry) k)
        (λ run. IsNextRun index.now (line_of line.entry).who (line_of line.entry).namespace
        walk.old.end run.start run.end) }
    ensures same { (walk.new.next ≡ walk.old.next) × (walk.new.later ≡ walk.old.later) }
{
    let subjects = index.subjects();
    let (start, end) = subjects.next_run(line.principal, line.namespace, walk.end)?;
    walk.steps = steps_after(line.principal, start.saturating_sub(walk.end));
    Some(Run { start, end })
}

// How many grants to step over after a run before the next one is looked up. `gap` is how many
// grants are between this run and the one before. A look-up takes about as long as
// `STEPS_FOR_A_KEY` steps for each key of the principal. If runs are close together, more steps are
// allowed, since they mostly come to the next run soon.
fn steps_after(principal: &Principal, gap: u32) -> usize {
    let keys = principal.given().len().saturating_add(IMPLIED_KEYS);
    let steps = keys.saturating_mul(STEPS_FOR_A_KEY);
    if (gap as usize) < steps {
        steps.saturating_mul(CLOSE)
    } else {
        steps
    }
}
