//! The seats of the cursors of a line.

ghost use Rattle.std.specs.Prelude.{◌≡◌, ◌+◌, ◌*◌, ◌<◌, ◌≤◌, ◌⊎◌, ℕ, length};
ghost use Rattle.std.specs.Prelude.{IsTrue, ◌↔◌};
ghost use Rattle.rbac_model.specs.Policies.{IsPolicy};
ghost use Rattle.rbac_matrix.specs.Shown.{HasItsVerb, line_of};
ghost use Rattle.rbac_matrix.specs.Cursors.{AreRuns, IsCursorAt, KeepGrantVerbs};
ghost use Rattle.rbac_matrix.specs.Seats.{AreSeated, AreEmpty, Costs};
ghost use Rattle.rbac_matrix.specs.Seats.{AreReal, filled, empty_seat, past_all, seat_at};

use crate::basis::Basis;
use crate::bound_runs::Runs;
use crate::line::Line;
use crate::seat::{Seat, seat_from};
use crate::walk::{next_below, next_cursor, whole_walk};
use rbac_index::Index;
use rbac_reaches::{Meter, Reach};

// Whether no grant was seated here, though the reach has entries.
fn is_untaken(seat: Seat, reach: &Reach) -> bool
    ensures { IsTrue result ↔ ((seat ≡ empty_seat) × (0 < length reach.now)) }
{
    seat.is_empty() && 0 < reach.len()
}

// Seats each cursor of the line at its first entry that is at least `from`. Returns how many
// cursors have a reach that isn't empty. Expects all seats to be empty.
pub(crate) fn seat_line(
    basis: Basis<'_>,
    line: Line<'_>,
    runs: &Runs,
    from: u32,
    seats: &mut [Seat],
    meter: &mut Meter,
) -> usize
    requires runs { AreRuns basis.index.now (line_of line) runs.now }
    requires told { KeepGrantVerbs basis.index.now basis.universe.now runs.now }
    requires verb { HasItsVerb basis.universe.now line }
    requires reaches { length basis.reaches.now ≡ length basis.index.now.grants }
    requires real { AreReal basis.reaches.now }
    requires from { from ≤ past_all }
    requires empty { AreEmpty basis.index.now seats.old }
    ensures seated { AreSeated basis.entry.index.now
        (line_of line.entry) basis.entry.reaches.now from 0 seats.new }
    ensures filled { result ≡ filled seats.new }
    ensures started { from ≡ 0 → Costs 0 0 seats.old seats.new meter.old meter.new }
    ensures sought { Costs (20 * result) 0 seats.old seats.new meter.old meter.new }
{
    let index = basis.index;
    let universe = basis.universe;
    let reaches = basis.reaches;
    let mut filled = 0;
    let mut walk = whole_walk();
    let mut seen = 0;
    while let Some(no) = next_cursor(index, universe, line, runs, &mut walk, &mut seen) {
        let no = no as usize;
        if is_untaken(seats[no], &reaches[no]) {
            seats[no] = seat_from(&reaches[no], from, meter);
            filled += 1;
        }
    }
    filled
}

// Empties the seats of the line's cursors. Expects all other seats to be empty.
pub(crate) fn empty_line(index: &Index<'_>, line: Line<'_>, runs: &Runs, seats: &mut [Seat])
    requires runs { AreRuns index.now (line_of line) runs.now }
    requires count { length seats.old ≡ length index.now.grants }
    requires others { (k : ℕ) → k < length seats.old
        → IsCursorAt index.now (line_of line) k ⊎ (seat_at seats.old k ≡ empty_seat) }
    ensures { AreEmpty index.now seats.new }
{
    let end = index.len();
    let mut walk = whole_walk();
    while let Some(no) = next_below(index, line, runs, end, &mut walk) {
        seats[no as usize] = Seat::new();
    }
}

// Empties all seats.
pub(crate) fn empty_all(index: &Index<'_>, seats: &mut [Seat])
    requires { length seats.old ≡ length index.now.grants }
    ensures empty { AreEmpty index.now seats.new }
    ensures policy { IsPolicy index.now }
{
    for no in 0..index.policy().len() {
        seats[no as usize] = Seat::new();
    }
}
