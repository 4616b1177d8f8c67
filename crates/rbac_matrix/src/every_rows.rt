//! The enumeration of the rows of every granting binding.

ghost use Rattle.std.specs.Prelude.{length, ◌<◌, ◌≡◌, ◌≤◌, ◌+◌, ◌*◌, ℕ, List, is_some};
ghost use Rattle.std.specs.Prelude.{if◌then◌else◌};
ghost use Rattle.std.specs.Iterator.{MakesProgress};
ghost use Rattle.rbac_matrix.specs.Lines.{LineView};
ghost use Rattle.rbac_reaches.specs.Reaches.{raised};
ghost use Rattle.rbac_matrix.specs.Metering.{AreTouched};
ghost use Rattle.rbac_matrix.specs.Enumeration.{AreEntered, GoesOn};
ghost use Rattle.rbac_matrix.specs.EveryLeft.{GivesEvery, IsGoingEvery, PassesBinding};
ghost use Rattle.rbac_matrix.specs.EveryLeft.{every_at_most};

use crate::advance::advance;
use crate::basis::Basis;
use crate::enumeration::Rows;
use crate::line::line_at;
use crate::row::{Row, row_of};
use crate::steps::next_cell;
use rbac_index::Index;
use rbac_reaches::Meter;

/// The rows of every granting binding, all of them or those after a mark, in order of keys, then of
/// bindings: one row for each binding that grants a request. Has a fixed size, some 20 KB: what it
/// borrows, and what is kept of one line. The rows that are left aren't stored anywhere.
#[derive(Drop)]
pub struct EveryRows<'r, 'm> {
    // The line, its seats, and the place of the target from which rows are left.
    pub(crate) rows: Rows<'r, 'm>,
    // The place of the binding from which rows of that target's request are left, and where the
    // grants of the bindings before it end.
    pub(crate) binding: usize,
    pub(crate) upto: u32,
}

// The place after that of the grant's binding, and where the grants of this binding end.
pub(crate) fn after_binding(index: &Index<'_>, no: u32) -> (usize, u32)
    requires { no < length index.now.grants }
    ensures { PassesBinding index.now no result.0 result.1 }
{
    let policy = index.policy();
    let last = policy.bindings().len();
    let place = index.grant(no).binding_place;
    let (_, end) = policy.grants_of(place);
    (last.min(place) + 1, end)
}

impl EveryRows<'_, '_> {
    /// How many entries of reaches were read: at least as many as rows were returned, and at most
    /// one for each touch on the lines that were entered, plus 20 for each cursor whose first entry
    /// was searched for on the first line (own). A touch is a cursor with a target that its rule
    /// matches. Doesn't allocate.
    pub fn meter(&self) -> &Meter
        requires { IsGoingEvery self.now }
        ensures meter { result.now ≡ self.now.rows.meter }
        ensures low { self.now.rows.returned ≤ result.now }
        ensures high { (entered : List LineView) (n : ℕ) → AreEntered self.now.rows entered
            → AreTouched self.now.rows.index.now self.now.rows.universe.now entered n
            → result.now ≤ 20 * self.now.rows.sought + n }
    {
        &self.rows.meter
    }
}

impl<'m> Iterator for EveryRows<'_, 'm> {
    type Item = Row<'m>;

    ghost can_next = { IsGoingEvery };

    ghost next_gives = { GivesEvery };

    ghost remaining = { every_at_most };

    fn next(&mut self) -> Option<Row<'m>>
        requires { IsGoingEvery self.old }
        ensures steps { GivesEvery self.old result self.new }
        ensures goes { MakesProgress IsGoingEvery every_at_most self.old result self.new }
        ensures going { IsGoingEvery self.new }
        ensures returned { self.new.rows.returned
            ≡ raised self.old.rows.returned (if is_some result then 1 else 0) }
        ensures same { GoesOn self.old.rows self.new.rows }
    {
        let upto = self.upto;
        let rows = &mut self.rows;
        let index = rows.index;
        let universe = rows.universe;
        let basis = Basis {
            index,
            universe,
            reaches: rows.reaches,
        };
        let kept = &mut rows.kept;
        let (at, found) = next_cell(
            basis,
            rows.at,
            rows.from,
            upto,
            kept,
            rows.seats,
            &mut rows.meter,
        );
        rows.at = at;
        let (place, no) = found?;
        let line = line_at(universe, at)?;
        let grant = index.grant(no);
        let (binding, end) = after_binding(index, no);
        let kept = &mut rows.kept;
        let meter = &mut rows.meter;
        advance(basis, line, kept, place, end, rows.seats, meter);
        let targets = universe.targets();
        rows.from = place;
        rows.returned = rows.returned.saturating_add(1);
        self.binding = binding;
        self.upto = end;
        Some(row_of(line, &targets[place as usize], grant.binding))
    }
}
