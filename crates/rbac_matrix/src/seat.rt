//! Seats: where cursors are in their reaches.

ghost use Rattle.std.specs.Prelude.{◌≡◌, ◌+◌, ◌<◌, ◌≤◌, ◌↔◌, ℕ, IsTrue, length};
ghost use Rattle.std.specs.List.{slice_index_or};
ghost use Rattle.std.specs.List.Sorted.{IsStrictlyIncreasing};
ghost use Rattle.rbac_reaches.specs.Reaches.{raised};
ghost use Rattle.rbac_matrix.specs.Seats.{IsSeated, IsSeatedBefore, IsFirstFrom, ReadsAtMost};
ghost use Rattle.rbac_matrix.specs.Seats.{SeatCosts, empty_seat, past_all};
ghost use Rattle.rbac_model.specs.Universes.{most_targets};

use rbac_reaches::{Meter, Reach};

/// The seat of a grant: a position in the grant's reach, and the place that was read there. What a
/// seat holds is up to the enumeration that borrows it.
#[derive(Clone, Copy)]
pub struct Seat {
    position: u32,
    place: u32,
}

impl Seat {
    /// An empty seat. Doesn't allocate.
    pub fn new() -> Self
        ensures { result ≡ empty_seat }
    {
        Seat {
            position: 0,
            place: u32::MAX,
        }
    }

    // Whether the seat is empty: no grant was seated here, or a grant whose reach is empty.
    pub(crate) fn is_empty(self) -> bool
        ensures { IsTrue result ↔ (self ≡ empty_seat) }
    {
        self.position == 0 && self.place == u32::MAX
    }

    // The place of the entry that the seat is at; the greatest number if the seat is at none.
    pub(crate) fn place(self) -> u32
        ensures { result ≡ self.place }
    {
        self.place
    }
}

// The seat at this position. Reads the entry there, if there is one.
fn seat_in(reach: &Reach, position: usize, meter: &mut Meter) -> Seat
    requires { position ≤ length reach.now }
    ensures position { result.position ≡ position }
    ensures place { result.place ≡ slice_index_or reach.now position past_all }
    ensures read { position < length reach.now → meter.new ≡ raised meter.old 1 }
    ensures unread { length reach.now ≤ position → meter.new ≡ meter.old }
    ensures ascending { IsStrictlyIncreasing reach.now }
{
    if position < reach.len() {
        Seat {
            position: position as u32,
            place: reach.place(position, meter),
        }
    } else {
        Seat {
            position: position as u32,
            place: u32::MAX,
        }
    }
}

// The position of the first entry that is at least `from`; if there is none, the number of entries.
// Reads at most 20 entries.
fn seek(reach: &Reach, from: u32, meter: &mut Meter) -> usize
    ensures first { IsFirstFrom reach.now from result }
    ensures reads { ReadsAtMost 20 meter.old meter.new }
    ensures few { length reach.now ≤ most_targets }
{
    let mut low = 0;
    let mut high = reach.len();
    while low < high {
        let middle = low + (high - low) / 2;
        if reach.place(middle, meter) < from {
            low = middle + 1;
        } else {
            high = middle;
        }
    }
    low
}

// The seat at the first entry that is at least `from`, or past the last entry.
pub(crate) fn seat_from(reach: &Reach, from: u32, meter: &mut Meter) -> Seat
    requires real { (i : ℕ) → i < length reach.now → slice_index_or reach.now i 0 < past_all }
    requires from { from ≤ past_all }
    ensures seated { IsSeated reach.now from result }
    ensures started { from ≡ 0 → SeatCosts 0 0 empty_seat result meter.old meter.new }
    ensures sought { SeatCosts 20 0 empty_seat result meter.old meter.new }
{
    if from == 0 {
        return seat_in(reach, 0, meter);
    }
    let position = seek(reach, from, meter);
    seat_in(reach, position, meter)
}

// The seat at the next entry, or past the last entry.
pub(crate) fn seat_after(reach: &Reach, seat: Seat, meter: &mut Meter) -> Seat
    requires seated { IsSeated reach.now seat.place seat }
    requires stands { seat.place < past_all }
    requires real { (i : ℕ) → i < length reach.now → slice_index_or reach.now i 0 < past_all }
    ensures seated { IsSeated reach.now (seat.place + 1) result }
    ensures costs { SeatCosts 0 1 seat result meter.old meter.new }
{
    seat_in(reach, seat.position as usize + 1, meter)
}

// The seat, moved on to the first entry that is at least `place`. A seat that is already there or
// further on stays.
pub(crate) fn seat_at_least(reach: &Reach, seat: Seat, place: u32, meter: &mut Meter) -> Seat
    requires before { IsSeatedBefore reach.now place seat }
    requires real { (i : ℕ) → i < length reach.now → slice_index_or reach.now i 0 < past_all }
    ensures seated { IsSeated reach.now place result }
    ensures costs { SeatCosts 0 0 seat result meter.old meter.new }
{
    let mut seat = seat;
    while seat.place < place {
        seat = seat_after(reach, seat, meter);
    }
    seat
}
