//! The enumeration of a matrix's rows.

ghost use Rattle.std.specs.Prelude.{length, ◌≡◌, ◌≤◌, ◌+◌, ◌*◌, ℕ, List, is_some, if◌then◌else◌};
ghost use Rattle.std.specs.Iterator.{MakesProgress};
ghost use Rattle.rbac_matrix.specs.Lines.{LineView};
ghost use Rattle.rbac_reaches.specs.Reaches.{raised};
ghost use Rattle.rbac_matrix.specs.Metering.{AreTouched};
ghost use Rattle.rbac_model.specs.Universes.{IsUniverse, most_targets};
ghost use Rattle.rbac_model.specs.Policies.{IsPolicy};
ghost use Rattle.rbac_reaches.specs.Reaches.{AreReaches};
ghost use Rattle.rbac_matrix.specs.Lines.{IsSettled};
ghost use Rattle.rbac_matrix.specs.Enumeration.{AreEntered, BeginsAt, GivesFirstLeft, GoesOn, IsGoing};
ghost use Rattle.rbac_matrix.specs.Enumeration.{IsUnderWay, left_at_most};

use crate::advance::advance;
use crate::basis::Basis;
use crate::kept::Kept;
use crate::line::{Place, line_at};
use crate::repeated_lines::cluster_grants;
use crate::row::{Row, row_of};
use crate::seat::Seat;
use crate::seats::empty_all;
use crate::start::{Start, seat_start};
use crate::steps::next_cell;
use rbac_index::Index;
use rbac_reaches::{Meter, Reach};
use rbac_universe::Universe;

/// The rows of a matrix, all of them or those after a key, in order of keys. Has a fixed size, some
/// 20 KB: what it borrows, and what is kept of one line. The rows that are left aren't stored
/// anywhere.
#[derive(Drop)]
pub struct Rows<'r, 'm> {
    pub(crate) index: &'m Index<'m>,
    pub(crate) universe: &'m Universe,
    pub(crate) reaches: &'m [Reach],
    pub(crate) seats: &'r mut [Seat],
    // The line whose cursors are seated, and the place of the target from which its rows are left.
    pub(crate) at: Place,
    pub(crate) from: u32,
    // What is kept of that line.
    pub(crate) kept: Kept,
    // How many grants belong to ClusterRoleBindings.
    pub(crate) cluster_wide: u32,
    // The last line on which a RoleBinding was found to have a cursor. It isn't searched again.
    pub(crate) mixed: Option<Place>,
    // The first line, for how many of its cursors the first entry was searched for, and how many
    // rows were returned.
    pub(crate) start: Place,
    pub(crate) sought: usize,
    pub(crate) returned: u128,
    pub(crate) meter: Meter,
}

// The rows from this start on, with these seats, which may hold anything.
pub(crate) fn rows_from<'r, 'm>(
    index: &'m Index<'m>,
    universe: &'m Universe,
    reaches: &'m [Reach],
    start: Start,
    seats: &'r mut [Seat],
) -> Rows<'r, 'm>
    requires reaches { AreReaches index.now universe.now reaches.now }
    requires seats { length seats.old ≡ length index.now.grants }
    requires settled { IsSettled universe.now start.at }
    requires few { start.from ≤ most_targets }
    ensures going { IsGoing result }
    ensures starts { BeginsAt result start }
    ensures policy { IsPolicy index.now }
    ensures lists { IsUniverse universe.now }
    ensures index { result.index.now ≡ index.now }
    ensures universe { result.universe.now ≡ universe.now }
{
    empty_all(index, seats);
    let mut kept = Kept::new();
    let mut meter = Meter::new();
    let basis = Basis {
        index,
        universe,
        reaches,
    };
    let sought = seat_start(basis, start, &mut kept, seats, &mut meter);
    Rows {
        index,
        universe,
        reaches,
        seats,
        at: start.at,
        from: start.from,
        kept,
        cluster_wide: cluster_grants(index),
        mixed: None,
        start: start.at,
        sought,
        returned: 0,
        meter,
    }
}

impl Rows<'_, '_> {
    // Moves the seats of the grants below `upto` past the target from which rows are left.
    pub(crate) fn pass(&mut self, upto: u32)
        requires going { (low : ℕ) × (low ≤ upto) × IsUnderWay self.old low }
        requires few { self.old.from ≤ most_targets }
        ensures way { IsUnderWay self.new upto }
        ensures place { (self.new.at ≡ self.old.at) × (self.new.from ≡ self.old.from)
            × (self.new.returned ≡ self.old.returned) }
        ensures same { GoesOn self.old self.new }
    {
        let basis = Basis {
            index: self.index,
            universe: self.universe,
            reaches: self.reaches,
        };
        let from = self.from;
        let Some(line) = line_at(self.universe, self.at) else {
            return;
        };
        let kept = &mut self.kept;
        let meter = &mut self.meter;
        advance(basis, line, kept, from, upto, self.seats, meter);
    }

    /// How many entries of reaches were read: at least as many as rows were returned, and at most
    /// one for each touch on the lines that were entered, plus 20 for each cursor whose first entry
    /// was searched for on the first line (own). A touch is a cursor with a target that its rule
    /// matches. Doesn't allocate.
    pub fn meter(&self) -> &Meter
        requires { IsGoing self.now }
        ensures meter { result.now ≡ self.now.meter }
        ensures low { self.now.returned ≤ result.now }
        ensures high { (entered : List LineView) (n : ℕ) → AreEntered self.now entered
            → AreTouched self.now.index.now self.now.universe.now entered n
            → result.now ≤ 20 * self.now.sought + n }
    {
        &self.meter
    }
}

impl<'m> Iterator for Rows<'_, 'm> {
    type Item = Row<'m>;

    ghost can_next = { IsGoing };

    ghost next_gives = { GivesFirstLeft };

    ghost remaining = { left_at_most };

    fn next(&mut self) -> Option<Row<'m>>
        requires { IsGoing self.old }
        ensures steps { GivesFirstLeft self.old result self.new }
        ensures goes { MakesProgress IsGoing left_at_most self.old result self.new }
        ensures going { IsGoing self.new }
        ensures returned { self.new.returned
            ≡ raised self.old.returned (if is_some result then 1 else 0) }
        ensures same { GoesOn self.old self.new }
    {
        let index = self.index;
        let universe = self.universe;
        let basis = Basis {
            index,
            universe,
            reaches: self.reaches,
        };
        let kept = &mut self.kept;
        let (at, found) = next_cell(
            basis,
            self.at,
            self.from,
            0,
            kept,
            self.seats,
            &mut self.meter,
        );
        self.at = at;
        let (place, no) = found?;
        let line = line_at(universe, at)?;
        let all = index.len();
        let kept = &mut self.kept;
        let meter = &mut self.meter;
        advance(basis, line, kept, place, all, self.seats, meter);
        let targets = universe.targets();
        self.from = place + 1;
        self.returned = self.returned.saturating_add(1);
        let grant = index.grant(no);
        Some(row_of(line, &targets[place as usize], grant.binding))
    }
}
