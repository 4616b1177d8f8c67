//! The next row, and the line that it is on, found by the seats of cursors.

ghost use Rattle.std.specs.Prelude.{ℕ, ◌≡◌, ◌<◌, ◌≤◌, ◌⊎◌, ◌↔◌, [], IsTrue, MatchOption, length};
ghost use Rattle.rbac_model.specs.Policies.{IsPolicy};
ghost use Rattle.rbac_model.specs.Universes.{IsUniverse, UniverseView, most_words};
ghost use Rattle.rbac_universe.specs.Sets.{IsWithinLimits};
ghost use Rattle.rbac_matrix.specs.Shown.{line_of};
ghost use Rattle.rbac_reaches.specs.Reaches.{AreReaches};
ghost use Rattle.rbac_matrix.specs.Blocks.{AreBlocks, AreBlocksAt};
ghost use Rattle.rbac_matrix.specs.Cursors.{AreKnownAt, AreRunsOf, AreRunsAt, IsBoundOn, ServeBare};
ghost use Rattle.rbac_matrix.specs.Cursors.{KeepGrantVerbs};
ghost use Rattle.rbac_matrix.specs.Lines.{IsLineAt, lines_from, place};
ghost use Rattle.rbac_matrix.specs.Passing.{EndsAll, EndsLine, FindsCell, FindsRow};
ghost use Rattle.rbac_matrix.specs.Metering.{IsMetered, IsReady, Skips};
ghost use Rattle.rbac_matrix.specs.declared.line.Place.{Place};
ghost use Rattle.rbac_matrix.specs.Seats.{AreEmpty, AreSeated, Costs};
ghost use Rattle.rbac_matrix.specs.VerbPlaces.{LacksPlace};

use crate::advance::advance;
use crate::basis::Basis;
use crate::bound_runs::Runs;
use crate::kept::Kept;
use crate::line::{Line, Place, after, line_at, settled};
use crate::seat::Seat;
use crate::seats::{empty_line, seat_line};
use crate::unnamed::past_unnamed;
use rbac_index::Index;
use rbac_reaches::Meter;
use rbac_terms::Word;
use rbac_universe::Universe;

// Whether a request in this namespace fits, given whether its target is namespaced (own).
fn fits(namespace: &Word, namespaced: bool) -> bool
    ensures { IsTrue result ↔ (IsTrue namespaced ⊎ (namespace.now ≡ [])) }
{
    namespaced || namespace.is_empty()
}

// The next row of the line: the place of its target, and the first grant that allows it; `None` if
// the line has no more rows. Looks from the target `from` on, but for grants below `upto` only from
// the next target on. Entries of requests that don't fit are read and skipped. The seats that are
// at the row stay there.
pub(crate) fn next_in_line(
    basis: Basis<'_>,
    line: Line<'_>,
    kept: &mut Kept,
    from: u32,
    upto: u32,
    seats: &mut [Seat],
    meter: &mut Meter,
) -> Option<(u32, u32)>
    requires policy { IsPolicy basis.index.now }
    requires universe { IsUniverse basis.universe.now }
    requires limits { IsWithinLimits basis.universe.now }
    requires reaches { AreReaches basis.index.now basis.universe.now basis.reaches.now }
    requires seated { AreSeated basis.index.now
        (line_of line) basis.reaches.now from upto seats.old }
    requires blocks { AreBlocks basis.index.now
        (line_of line) kept.old.runs seats.old kept.old.blocks.kept.items }
    ensures row { MatchOption result
        (EndsLine basis.entry.index.now basis.entry.universe.now basis.entry.reaches.now
        (line_of line.entry) from upto seats.new)
        (λ found. FindsRow basis.entry.index.now basis.entry.universe.now basis.entry.reaches.now
        (line_of line.entry) from upto seats.new found.0 found.1) }
    ensures blocks { AreBlocks basis.entry.index.now
        (line_of line.entry) kept.new.runs seats.new kept.new.blocks.kept.items }
    ensures runs { kept.new.runs ≡ kept.old.runs }
    ensures costs { Costs 0 0 seats.old seats.new meter.old meter.new }
{
    let mut from = from;
    let mut upto = upto;
    while let Some((place, no)) = kept.blocks.least() {
        if fits(line.namespace, basis.universe.namespaced(place as usize)) {
            return Some((place, no));
        }
        let all = basis.index.len();
        advance(basis, line, kept, place, all, seats, meter);
        from = place + 1;
        upto = 0;
    }
    None
}

// Replaces the runs with those of this line, unless they are the same. The runs of the line before
// are the same if both lines have the same principal, and either the same namespace or two
// namespaces without a RoleBinding.
fn renew(basis: Basis<'_>, line: Line<'_>, at: Place, runs: &mut Runs)
    requires verbs { 0 < at.verb
        → AreRunsOf basis.index.now basis.universe.now (line_of line) runs.old }
    requires bare { (0 < at.namespace) ⊎ (0 < at.verb)
        → ServeBare basis.index.now basis.universe.now line.principal.now runs.old }
    requires told { KeepGrantVerbs basis.index.now basis.universe.now runs.old }
    ensures runs { AreRunsOf basis.entry.index.now basis.entry.universe.now
        (line_of line.entry) runs.new }
    ensures bare { ServeBare basis.entry.index.now basis.entry.universe.now
        line.entry.principal.now runs.new }
{
    if 0 < at.verb {
        return;
    }
    if 0 < at.namespace && runs.serve(basis.index, line.namespace) {
        return;
    }
    runs.fill(basis.index, basis.universe, line);
}

// Seats the cursors of the next line, from this place on, where a cursor has an entry. Returns the
// place of that line, or a place past all lines if there is none. Expects all seats to be empty,
// and the runs to be those of the line before (`AreKnownAt`).
pub(crate) fn next_line(
    basis: Basis<'_>,
    at: Place,
    kept: &mut Kept,
    seats: &mut [Seat],
    meter: &mut Meter,
) -> Place
    requires policy { IsPolicy basis.index.now }
    requires reaches { AreReaches basis.index.now basis.universe.now basis.reaches.now }
    requires empty { AreEmpty basis.index.now seats.old }
    requires known { AreKnownAt basis.index.now basis.universe.now at kept.old.runs }
    ensures skips { Skips basis.entry.index.now.held basis.entry.universe.now at result }
    ensures ready { IsReady basis.entry.index.now basis.entry.universe.now basis.entry.reaches.now
        result 0 0 seats.new }
    ensures runs { AreRunsAt basis.entry.index.now basis.entry.universe.now result kept.new.runs }
    ensures blocks { AreBlocksAt basis.entry.index.now basis.entry.universe.now
        result kept.new seats.new }
    ensures costs { Costs 0 0 seats.old seats.new meter.old meter.new }
{
    let index = basis.index;
    let mut at = settled(basis.universe, at);
    while let Some(line) = line_at(basis.universe, at) {
        renew(basis, line, at, &mut kept.runs);
        if kept.runs.is_empty() {
            at = settled(basis.universe, past_idle(index, basis.universe, line, at));
        } else if kept.runs.lack_verb(at.verb) {
            at = settled(basis.universe, past_verbs(basis.universe, &kept.runs, at));
        } else {
            let filled = seat_line(basis, line, &kept.runs, 0, seats, meter);
            if filled > 0 {
                kept.blocks.fill(index, line, &kept.runs, filled, seats);
                return at;
            }
            at = settled(basis.universe, after(at));
        }
    }
    at
}

// The place of the next verb in the same namespace that one of the line's grants may have; if there
// is none, the place past the last verb.
fn past_verbs(universe: &Universe, runs: &Runs, at: Place) -> Place
    requires within { at.verb < length universe.now.verbs }
    ensures place { result ≡ place at.principal at.namespace result.verb }
    ensures on { at.verb < result.verb }
    ensures within { result.verb ≤ length universe.now.verbs }
    ensures lack { (v : ℕ) → at.verb < v → v < result.verb
        → LacksPlace runs.now.verbs.words.items v }
{
    let end = universe.verbs().len();
    Place {
        principal: at.principal,
        namespace: at.namespace,
        verb: runs.next_verb(at.verb + 1).min(end),
    }
}

// Passes the line's namespace, where none of the principal's grants may be live, and the namespaces
// after it where this holds too. Passes all namespaces of a principal without grants. Returns the
// place after them.
fn past_idle(index: &Index<'_>, universe: &Universe, line: Line<'_>, at: Place) -> Place
    requires policy { IsPolicy index.now }
    requires universe { IsUniverse universe.now }
    requires line { IsLineAt universe.now at (line_of line) }
    requires idle { (k : ℕ) → ¬ IsBoundOn index.now (line_of line) k }
    requires few { (at.principal < most_words) × (at.namespace < most_words) }
    ensures skips { Skips index.now.held universe.now at result }
    ensures begins { (result.verb ≡ 0)
        × ((result.namespace ≡ 0) ⊎ (result.principal ≡ at.principal)) }
    ensures on { length (lines_from universe.now result) < length (lines_from universe.now at) }
{
    let subjects = index.subjects();
    if at.namespace == 0 && !subjects.has_grants(line.principal) {
        return Place::of_principal(at.principal + 1);
    }
    let next = Place::of_namespace(at.principal, at.namespace + 1);
    let named = subjects.next_namespace(line.principal, line.namespace);
    past_unnamed(index, universe, next, line, named)
}

// The next row: the place of its line, and the place of its target with the first grant that allows
// it. If no row is left, the place is past all lines. Looks from the line `at` and the target
// `from` on, but for grants below `upto` only from the next target on.
pub(crate) fn next_cell(
    basis: Basis<'_>,
    at: Place,
    from: u32,
    upto: u32,
    kept: &mut Kept,
    seats: &mut [Seat],
    meter: &mut Meter,
) -> (Place, Option<(u32, u32)>)
    requires policy { IsPolicy basis.index.now }
    requires reaches { AreReaches basis.index.now basis.universe.now basis.reaches.now }
    requires ready { IsReady basis.index.now basis.universe.now basis.reaches.now
        at from upto seats.old }
    requires runs { AreRunsAt basis.index.now basis.universe.now at kept.old.runs }
    requires blocks { AreBlocksAt basis.index.now basis.universe.now at kept.old seats.old }
    ensures runs { AreRunsAt basis.entry.index.now basis.entry.universe.now result.0 kept.new.runs }
    ensures blocks { AreBlocksAt basis.entry.index.now basis.entry.universe.now
        result.0 kept.new seats.new }
    ensures row { MatchOption result.1
        (EndsAll basis.entry.index.now basis.entry.universe.now basis.entry.reaches.now
        at from upto result.0 seats.new)
        (λ found. FindsCell basis.entry.index.now basis.entry.universe.now basis.entry.reaches.now
        at from upto result.0 seats.new found.0 found.1) }
    ensures metered { (start : Place) (sought given : ℕ)
        → IsMetered basis.entry.index.now basis.entry.universe.now
        start sought at seats.old given meter.old
        → IsMetered basis.entry.index.now basis.entry.universe.now
        start sought result.0 seats.new given meter.new }
{
    let mut at = at;
    let mut from = from;
    let mut upto = upto;
    while let Some(line) = line_at(basis.universe, at) {
        if let Some(found) = next_in_line(basis, line, kept, from, upto, seats, meter) {
            return (at, Some(found));
        }
        empty_line(basis.index, line, &kept.runs, seats);
        at = next_line(basis, after(at), kept, seats, meter);
        from = 0;
        upto = 0;
    }
    (at, None)
}
