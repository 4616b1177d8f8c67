//! Passes repeats: rows of a namespace by a ClusterRoleBinding, which allows the same in the whole
//! cluster.

ghost use Rattle.std.specs.Prelude.{◌≡◌, ◌≢◌, ◌<◌, ◌≤◌, ◌∷◌, [], ℕ, List, IsTrue, MatchOption};
ghost use Rattle.std.specs.Prelude.{Some, false, length, slice_get};
ghost use Rattle.rbac_model.specs.Policies.{GrantView};
ghost use Rattle.rbac_universe.specs.Sets.{IsWithinLimits};
ghost use Rattle.rbac_matrix.specs.RepeatedLines.{HasRepeatsFrom, IsRepeated, PassesLines};
ghost use Rattle.rbac_matrix.specs.Enumeration.{AreLeft, GoesOn, HasRest, IsGoing, IsUnderWay};
ghost use Rattle.rbac_matrix.specs.Enumeration.{requests_left, left_to_pass};
ghost use Rattle.rbac_matrix.specs.Lines.{IsSettled, LineView, lines_from};
ghost use Rattle.rbac_matrix.specs.Metering.{IsReady};
ghost use Rattle.rbac_matrix.specs.Once.{PassesRepeats, PassesSome, StaysFirst, repeats_at};
ghost use Rattle.rbac_matrix.specs.Passing.{EndsAll, FindsCell};

use crate::advance::advance_to;
use crate::basis::Basis;
use crate::enumeration::Rows;
use crate::line::line_at;
use crate::repeated_lines::{after_repeats, has_cursor_from};
use crate::row::is_repeat_in;
use crate::seats::empty_line;
use crate::steps::{next_cell, next_line};

impl Rows<'_, '_> {
    // Comes to the next row without passing it. Returns the place of its target, and the first
    // grant that allows it; `None` if no row is left. Looks from the current line and target on,
    // but for grants below `upto` only from the next target on.
    pub(crate) fn come(&mut self, upto: u32) -> Option<(u32, u32)>
        requires way { IsUnderWay self.old upto }
        ensures found { MatchOption result
            (EndsAll self.old.index.now self.old.universe.now self.old.reaches.now
            self.old.at self.old.from upto self.new.at self.new.seats.now)
            (λ found. FindsCell self.old.index.now self.old.universe.now self.old.reaches.now
            self.old.at self.old.from upto self.new.at self.new.seats.now found.0 found.1) }
        ensures place { MatchOption result
            (self.new.from ≡ self.old.from) (λ found. self.new.from ≡ found.0) }
        ensures way { (low : ℕ) → IsReady self.old.index.now self.old.universe.now
            self.old.reaches.now self.new.at self.new.from low self.new.seats.now
            → IsUnderWay self.new low }
        ensures returned { self.new.returned ≡ self.old.returned }
        ensures reaches { self.new.reaches.now ≡ self.old.reaches.now }
        ensures same { GoesOn self.old self.new }
    {
        let basis = Basis {
            index: self.index,
            universe: self.universe,
            reaches: self.reaches,
        };
        let kept = &mut self.kept;
        let (at, found) = next_cell(
            basis,
            self.at,
            self.from,
            upto,
            kept,
            self.seats,
            &mut self.meter,
        );
        self.at = at;
        let (place, no) = found?;
        self.from = place;
        Some((place, no))
    }

    /// Passes the rows before the next row that isn't a repeat, or all rows if each is a repeat
    /// (own). Doesn't allocate.
    pub fn pass_repeats(&mut self)
        requires { IsGoing self.old }
        ensures passes { PassesRepeats (AreLeft self.old) (AreLeft self.new) }
        ensures going { IsGoing self.new }
        ensures few { requests_left self.new ≤ requests_left self.old }
        ensures returned { self.new.returned ≡ self.old.returned }
        ensures same { GoesOn self.old self.new }
    {
        self.pass_rest();
        while self.pass_repeat() {
            self.pass_rest();
        }
    }

    // Passes repeats by `pass_ahead`, line after line. Stops where the next row may be by a
    // RoleBinding, and on a line of the empty namespace, which has no repeats.
    fn pass_rest(&mut self)
        requires { IsGoing self.old }
        ensures same { GoesOn self.old self.new }
        ensures returned { self.new.returned ≡ self.old.returned }
        ensures some { PassesSome (AreLeft self.old) (AreLeft self.new) }
        ensures few { requests_left self.new ≤ requests_left self.old }
        ensures going { IsGoing self.new }
    {
        while self.pass_ahead() {}
    }

    // Passes the repeats before `repeats_end` on a line that has a namespace. If only repeats are
    // left of the line, leaves the line: so the lines after it that have only repeats are passed by
    // the index alone, without a seat on any of them. Returns whether it passed anything or left
    // the line.
    #[tactic(auto, using(crate::proofs::OnceLemmas::some_none, crate::proofs::OnceLemmas::goes_none))]
    fn pass_ahead(&mut self) -> bool
        requires { IsGoing self.old }
        ensures some { PassesSome (AreLeft self.old) (AreLeft self.new) }
        ensures going { IsGoing self.new }
        ensures few { requests_left self.new ≤ requests_left self.old }
        ensures fewer { IsTrue result → left_to_pass self.new < left_to_pass self.old }
        ensures returned { self.new.returned ≡ self.old.returned }
        ensures same { GoesOn self.old self.new }
    {
        let Some(line) = line_at(self.universe, self.at) else {
            return false;
        };
        if line.namespace.is_empty() {
            return false;
        }
        let end = self.repeats_end();
        if end as usize == self.universe.targets().len() {
            self.pass_lines();
            return true;
        }
        if end <= self.from {
            return false;
        }
        self.pass_to(end);
        true
    }

    // Passes the next row if it is a repeat. Returns whether it is.
    fn pass_repeat(&mut self) -> bool
        requires { IsGoing self.old }
        ensures some { PassesSome (AreLeft self.old) (AreLeft self.new) }
        ensures first { result ≡ false → StaysFirst (AreLeft self.new) }
        ensures going { IsGoing self.new }
        ensures few { requests_left self.new ≤ requests_left self.old }
        ensures fewer { IsTrue result → requests_left self.new < requests_left self.old }
        ensures returned { self.new.returned ≡ self.old.returned }
        ensures same { GoesOn self.old self.new }
    {
        let Some((_, no)) = self.come(0) else {
            return false;
        };
        if !self.repeats_by(no) {
            return false;
        }
        self.pass_to(self.from + 1);
        true
    }

    // Whether a row of the line that this grant allows is a repeat.
    pub(crate) fn repeats_by(&self, no: u32) -> bool
        requires settled { IsSettled self.now.universe.now self.now.at }
        requires few { no < length self.now.index.now.grants }
        ensures limits { IsWithinLimits self.now.universe.now }
        ensures repeats { (l : LineView) (ls : List LineView) (g : GrantView)
            → lines_from self.now.universe.now self.now.at ≡ l ∷ ls
            → slice_get self.now.index.now.grants no ≡ Some g
            → result ≡ repeats_at l.namespace g.binding.namespace }
    {
        let Some(line) = line_at(self.universe, self.at) else {
            return false;
        };
        is_repeat_in(line.namespace, self.index.grant(no).binding)
    }

    // Whether the line has a namespace and no RoleBinding has a cursor on it, so that its rows are
    // repeats.
    pub(crate) fn is_repeated(&self) -> bool
        requires { (low : ℕ) × IsUnderWay self.now low }
        ensures { (l : LineView) (ls : List LineView) → IsTrue result
            → lines_from self.now.universe.now self.now.at ≡ l ∷ ls → IsRepeated self.now.index.now l }
    {
        if self.mixed == Some(self.at) {
            return false;
        }
        let Some(line) = line_at(self.universe, self.at) else {
            return false;
        };
        let runs = &self.kept.runs;
        !line.namespace.is_empty() && !has_cursor_from(self.index, line, runs, self.cluster_wide)
    }

    // Leaves the line, of which only repeats are left. Passes the lines after it that the index
    // shows to have only repeats, and seats the cursors of the next line.
    pub(crate) fn pass_lines(&mut self)
        requires way { (low : ℕ) × IsUnderWay self.old low }
        requires rest { HasRest self.old }
        ensures going { IsGoing self.new }
        ensures passes { PassesLines self.old.index.now self.old.universe.now
            self.old.at self.old.from self.new.at }
        ensures from { self.new.from ≡ 0 }
        ensures returned { self.new.returned ≡ self.old.returned }
        ensures same { GoesOn self.old self.new }
    {
        let index = self.index;
        let universe = self.universe;
        let Some(line) = line_at(universe, self.at) else {
            return;
        };
        empty_line(index, line, &self.kept.runs, self.seats);
        let named = self.kept.runs.have_from(self.cluster_wide);
        let next = after_repeats(index, universe, self.at, named);
        let basis = Basis {
            index,
            universe,
            reaches: self.reaches,
        };
        let kept = &mut self.kept;
        kept.runs.keep_here();
        self.at = next_line(basis, next, kept, self.seats, &mut self.meter);
        self.from = 0;
    }

    // A place before which the line has only repeats left, if it has a namespace: before this place
    // no RoleBinding has an entry whose request fits.
    fn repeats_end(&self) -> u32
        requires { IsGoing self.now }
        ensures within { result ≤ length self.now.universe.now.targets }
        ensures repeats { (l : LineView) (ls : List LineView)
            → lines_from self.now.universe.now self.now.at ≡ l ∷ ls → l.namespace ≢ []
            → HasRepeatsFrom self.now.index.now self.now.universe.now l self.now.from result }
    {
        let targets = self.universe.targets().len() as u32;
        let place = self.kept.blocks.least_from(self.cluster_wide);
        if targets <= place {
            return targets;
        }
        if self.universe.namespaced(place as usize) {
            return place;
        }
        place + 1
    }

    // Passes the rows of the line for targets before this place.
    fn pass_to(&mut self, place: u32)
        requires going { IsGoing self.old }
        requires on { self.old.from ≤ place }
        ensures going { IsGoing self.new }
        ensures place { (self.new.at ≡ self.old.at) × (self.new.from ≡ place)
            × (self.new.returned ≡ self.old.returned) }
        ensures same { GoesOn self.old self.new }
    {
        let basis = Basis {
            index: self.index,
            universe: self.universe,
            reaches: self.reaches,
        };
        self.from = place;
        let Some(line) = line_at(self.universe, self.at) else {
            return;
        };
        let kept = &mut self.kept;
        advance_to(basis, line, kept, place, self.seats, &mut self.meter);
    }
}
