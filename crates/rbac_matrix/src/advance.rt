//! How the seats of a line move on.

ghost use Rattle.std.specs.Prelude.{◌≡◌, ◌≢◌, ◌<◌, ◌≤◌, ◌⊎◌, ◌↔◌, ℕ, IsTrue, length};
ghost use Rattle.rbac_matrix.specs.Shown.{line_of};
ghost use Rattle.rbac_matrix.specs.Blocks.{Advances, AreBlocks, IsOfBlock};
ghost use Rattle.rbac_matrix.specs.Cursors.{IsCursorAt, IsWithin};
ghost use Rattle.rbac_matrix.specs.Seats.{AreReal, AreSeated, AreSeatedAbout, AreSeatedBefore};
ghost use Rattle.rbac_matrix.specs.Seats.{Costs, past_all, seat_at};

use crate::basis::Basis;
use crate::blocks::Block;
use crate::bound_runs::Runs;
use crate::kept::Kept;
use crate::line::Line;
use crate::seat::{Seat, seat_after, seat_at_least};
use crate::walk::next_below;
use rbac_reaches::Meter;

// Whether the seat is at the place, and its grant's number `no` is below `end`.
fn stands_below(seat: Seat, no: u32, place: u32, end: u32) -> bool
    ensures { IsTrue result ↔ ((no < end) × (seat.place ≡ place)) }
{
    no < end && seat.place() == place
}

// Each seat of the block that is at the place moves on to its next entry, if its grant's number is
// below `end`.
fn advance_in(
    basis: Basis<'_>,
    line: Line<'_>,
    runs: &Runs,
    block: Block,
    place: u32,
    end: u32,
    seats: &mut [Seat],
    meter: &mut Meter,
)
    requires within { IsWithin basis.index.now (line_of line) runs.now block.walk }
    requires few { block.end ≤ length seats.old }
    requires reaches { length basis.reaches.now ≡ length basis.index.now.grants }
    requires seated { AreSeatedAbout basis.index.now
        (line_of line) basis.reaches.now place end seats.old }
    requires real { AreReal basis.reaches.now }
    requires stands { place < past_all }
    ensures seated { AreSeatedAbout basis.entry.index.now
        (line_of line.entry) basis.entry.reaches.now place end seats.new }
    ensures advances { Advances basis.entry.index.now
        (line_of line.entry) place end seats.old seats.new meter.old meter.new }
    ensures passed { (k : ℕ) → IsOfBlock block k → k < end → (seat_at seats.new k).place ≢ place }
    ensures others { (k : ℕ) → (k < block.walk.next) ⊎ (block.end ≤ k)
        → seat_at seats.new k ≡ seat_at seats.old k }
{
    let reaches = basis.reaches;
    let mut walk = block.walk;
    while let Some(no) = next_below(basis.index, line, runs, block.end, &mut walk) {
        let at = no as usize;
        if stands_below(seats[at], no, place, end) {
            seats[at] = seat_after(&reaches[at], seats[at], meter);
        }
    }
}

// Each seat that is at the place moves on to its next entry, if its grant's number is below `end`.
pub(crate) fn advance(
    basis: Basis<'_>,
    line: Line<'_>,
    kept: &mut Kept,
    place: u32,
    end: u32,
    seats: &mut [Seat],
    meter: &mut Meter,
)
    requires reaches { length basis.reaches.now ≡ length basis.index.now.grants }
    requires seated { AreSeatedAbout basis.index.now
        (line_of line) basis.reaches.now place end seats.old }
    requires blocks { AreBlocks basis.index.now
        (line_of line) kept.old.runs seats.old kept.old.blocks.kept.items }
    requires real { AreReal basis.reaches.now }
    requires stands { place < past_all }
    ensures seated { AreSeated basis.entry.index.now
        (line_of line.entry) basis.entry.reaches.now place end seats.new }
    ensures blocks { AreBlocks basis.entry.index.now
        (line_of line.entry) kept.new.runs seats.new kept.new.blocks.kept.items }
    ensures runs { kept.new.runs ≡ kept.old.runs }
    ensures costs { Costs 0 0 seats.old seats.new meter.old meter.new }
    ensures gains { (k : ℕ) → IsCursorAt basis.entry.index.now (line_of line.entry) k → k < end
        → (seat_at seats.old k).place ≡ place → Costs 0 1 seats.old seats.new meter.old meter.new }
{
    for at in 0..kept.blocks.len() {
        let block = kept.blocks.get(at);
        if !block.stands_below(place, end) {
            continue;
        }
        advance_in(basis, line, &kept.runs, block, place, end, seats, meter);
        let renewed = block.renewed(basis.index, line, &kept.runs, seats);
        kept.blocks.put(at, renewed);
    }
}

// Each seat of the block that is before the place moves on to its first entry from the place on.
fn advance_in_to(
    basis: Basis<'_>,
    line: Line<'_>,
    runs: &Runs,
    block: Block,
    place: u32,
    seats: &mut [Seat],
    meter: &mut Meter,
)
    requires within { IsWithin basis.index.now (line_of line) runs.now block.walk }
    requires few { block.end ≤ length seats.old }
    requires reaches { length basis.reaches.now ≡ length basis.index.now.grants }
    requires seated { AreSeatedBefore basis.index.now
        (line_of line) basis.reaches.now place seats.old }
    requires real { AreReal basis.reaches.now }
    ensures seated { AreSeatedBefore basis.entry.index.now
        (line_of line.entry) basis.entry.reaches.now place seats.new }
    ensures costs { Costs 0 0 seats.old seats.new meter.old meter.new }
    ensures passed { (k : ℕ) → IsOfBlock block k → place ≤ (seat_at seats.new k).place }
    ensures others { (k : ℕ) → (k < block.walk.next) ⊎ (block.end ≤ k)
        → seat_at seats.new k ≡ seat_at seats.old k }
{
    let reaches = basis.reaches;
    let mut walk = block.walk;
    while let Some(no) = next_below(basis.index, line, runs, block.end, &mut walk) {
        let at = no as usize;
        if seats[at].place() < place {
            seats[at] = seat_at_least(&reaches[at], seats[at], place, meter);
        }
    }
}

// Each seat that is before the place moves on to its first entry from the place on.
pub(crate) fn advance_to(
    basis: Basis<'_>,
    line: Line<'_>,
    kept: &mut Kept,
    place: u32,
    seats: &mut [Seat],
    meter: &mut Meter,
)
    requires reaches { length basis.reaches.now ≡ length basis.index.now.grants }
    requires seated { AreSeatedBefore basis.index.now
        (line_of line) basis.reaches.now place seats.old }
    requires blocks { AreBlocks basis.index.now
        (line_of line) kept.old.runs seats.old kept.old.blocks.kept.items }
    requires real { AreReal basis.reaches.now }
    ensures seated { AreSeated basis.entry.index.now
        (line_of line.entry) basis.entry.reaches.now place 0 seats.new }
    ensures blocks { AreBlocks basis.entry.index.now
        (line_of line.entry) kept.new.runs seats.new kept.new.blocks.kept.items }
    ensures runs { kept.new.runs ≡ kept.old.runs }
    ensures costs { Costs 0 0 seats.old seats.new meter.old meter.new }
{
    for at in 0..kept.blocks.len() {
        let block = kept.blocks.get(at);
        if !block.stands_before(place) {
            continue;
        }
        advance_in_to(basis, line, &kept.runs, block, place, seats, meter);
        let renewed = block.renewed(basis.index, line, &kept.runs, seats);
        kept.blocks.put(at, renewed);
    }
}
