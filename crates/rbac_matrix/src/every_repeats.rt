//! Passes repeats among the rows of every granting binding: rows of a namespace by a
//! ClusterRoleBinding, which allows the same in the whole cluster.

ghost use Rattle.std.specs.Prelude.{◌≡◌, ◌<◌, ◌≤◌, ◌∷◌, ◌+◌, List, IfSome, IsTrue, MatchOption};
ghost use Rattle.std.specs.Prelude.{false, length};
ghost use Rattle.rbac_model.specs.Universes.{most_targets};
ghost use Rattle.rbac_matrix.specs.RepeatedLines.{IsRepeated, PassesLines};
ghost use Rattle.rbac_matrix.specs.Enumeration.{GoesOn};
ghost use Rattle.rbac_matrix.specs.EveryLeft.{AreEveryLeft, BeginsBinding, IsGoingEvery, pairs_left};
ghost use Rattle.rbac_matrix.specs.Lines.{LineView, lines_from};
ghost use Rattle.rbac_matrix.specs.Once.{PassesRepeats, PassesSome, StaysFirst};
ghost use Rattle.rbac_matrix.specs.Passing.{EndsAll, FindsCell};

use crate::every_rows::{EveryRows, after_binding};
use rbac_index::Index;

// The place of the grant's binding, and where the grants of this binding begin.
fn at_binding(index: &Index<'_>, no: u32) -> (usize, u32)
    requires { no < length index.now.grants }
    ensures { BeginsBinding index.now no result.0 result.1 }
{
    let place = index.grant(no).binding_place;
    let (start, _) = index.policy().grants_of(place);
    (place, start)
}

impl EveryRows<'_, '_> {
    // Comes to the next row without passing it. Returns the first grant of the row's binding that
    // allows it; `None` if no row is left.
    fn come(&mut self) -> Option<u32>
        requires { IsGoingEvery self.old }
        ensures found { MatchOption result
            (EndsAll self.old.rows.index.now self.old.rows.universe.now self.old.rows.reaches.now
            self.old.rows.at self.old.rows.from self.old.upto
            self.new.rows.at self.new.rows.seats.now)
            (λ no. FindsCell self.old.rows.index.now self.old.rows.universe.now
            self.old.rows.reaches.now self.old.rows.at self.old.rows.from self.old.upto
            self.new.rows.at self.new.rows.seats.now self.new.rows.from no) }
        ensures binding { IfSome result
            (λ no. BeginsBinding self.old.rows.index.now no self.new.binding self.new.upto) }
        ensures going { IsGoingEvery self.new }
        ensures returned { self.new.rows.returned ≡ self.old.rows.returned }
        ensures same { GoesOn self.old.rows self.new.rows }
    {
        let (_, no) = self.rows.come(self.upto)?;
        let (binding, start) = at_binding(self.rows.index, no);
        self.binding = binding;
        self.upto = start;
        Some(no)
    }

    /// Passes the rows before the next row that isn't a repeat, or all rows if each is a repeat
    /// (own). Doesn't allocate.
    pub fn pass_repeats(&mut self)
        requires { IsGoingEvery self.old }
        ensures passes { PassesRepeats (AreEveryLeft self.old) (AreEveryLeft self.new) }
        ensures going { IsGoingEvery self.new }
        ensures few { pairs_left self.new ≤ pairs_left self.old }
        ensures returned { self.new.rows.returned ≡ self.old.rows.returned }
        ensures same { GoesOn self.old.rows self.new.rows }
    {
        while self.pass_repeat() {}
    }

    // Passes the next row if it is a repeat. Returns whether it is.
    fn pass_repeat(&mut self) -> bool
        requires { IsGoingEvery self.old }
        ensures some { PassesSome (AreEveryLeft self.old) (AreEveryLeft self.new) }
        ensures first { result ≡ false → StaysFirst (AreEveryLeft self.new) }
        ensures going { IsGoingEvery self.new }
        ensures few { pairs_left self.new ≤ pairs_left self.old }
        ensures fewer { IsTrue result → pairs_left self.new < pairs_left self.old }
        ensures returned { self.new.rows.returned ≡ self.old.rows.returned }
        ensures same { GoesOn self.old.rows self.new.rows }
    {
        let Some(no) = self.come() else {
            return false;
        };
        if !self.rows.repeats_by(no) {
            return false;
        }
        if self.rows.is_repeated() {
            self.pass_lines();
            return true;
        }
        self.pass_binding(no);
        true
    }

    // Leaves the line, whose rows are all repeats, and passes the lines after it that the index
    // shows to have only repeats.
    fn pass_lines(&mut self)
        requires going { IsGoingEvery self.old }
        requires repeated { (l : LineView) × (ls : List LineView)
            × (lines_from self.old.rows.universe.now self.old.rows.at ≡ l ∷ ls)
            × IsRepeated self.old.rows.index.now l }
        ensures going { IsGoingEvery self.new }
        ensures passes { PassesLines self.old.rows.index.now self.old.rows.universe.now
            self.old.rows.at self.old.rows.from self.new.rows.at }
        ensures from { (self.new.rows.from ≡ 0) × (self.new.binding ≡ 0) }
        ensures returned { self.new.rows.returned ≡ self.old.rows.returned }
        ensures same { GoesOn self.old.rows self.new.rows }
    {
        self.rows.pass_lines();
        self.binding = 0;
        self.upto = 0;
    }

    // Passes the row of this grant's binding for the current target. Remembers the line as one
    // where a RoleBinding has a cursor.
    fn pass_binding(&mut self, no: u32)
        requires going { IsGoingEvery self.old }
        requires few { self.old.rows.from < most_targets }
        requires within { self.old.rows.from < length self.old.rows.universe.now.targets }
        requires binding { BeginsBinding self.old.rows.index.now no self.old.binding self.old.upto }
        ensures going { IsGoingEvery self.new }
        ensures place { (self.new.rows.at ≡ self.old.rows.at)
            × (self.new.rows.from ≡ self.old.rows.from) × (self.new.binding ≡ self.old.binding + 1)
            × (self.new.rows.returned ≡ self.old.rows.returned) }
        ensures same { GoesOn self.old.rows self.new.rows }
    {
        let (binding, end) = after_binding(self.rows.index, no);
        self.rows.pass(end);
        self.rows.mixed = Some(self.rows.at);
        self.binding = binding;
        self.upto = end;
    }
}
