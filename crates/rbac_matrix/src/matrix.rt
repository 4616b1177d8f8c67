//! A matrix that borrows seats.

ghost use Rattle.std.specs.Prelude.{◌≡◌, List, length};
ghost use Rattle.std.specs.Option.{option_copied};
ghost use Rattle.rbac_model.specs.Universes.{RowView, IsMatrix, rows_after};
ghost use Rattle.rbac_matrix.specs.Enumeration.{AreLeft, IsGoing};
ghost use Rattle.rbac_matrix.specs.Every.{IsEvery, every_after};
ghost use Rattle.rbac_matrix.specs.EveryLeft.{AreEveryLeft, IsGoingEvery};
ghost use Rattle.rbac_matrix.specs.EveryStart.{EveryStarts, key_of_mark};
ghost use Rattle.rbac_matrix.specs.Lent.{AreLent, Starts};
ghost use Rattle.rbac_reaches.specs.Reaches.{AreReaches};

use crate::enumeration::{Rows, rows_from};
use crate::every_rows::EveryRows;
use crate::every_start::every_start;
use crate::seat::Seat;
use crate::start::start_after;
use rbac_index::Index;
use rbac_reaches::Reach;
use rbac_terms::Key;
use rbac_token::Mark;
use rbac_universe::Universe;

/// Everything that anyone may do: the requests of a universe that fit and are allowed. Borrows an
/// index, a universe, and for each grant a seat and the reach of its rule over this universe.
#[derive(Drop)]
pub struct Matrix<'m, 's> {
    index: &'m Index<'m>,
    universe: &'m Universe,
    reaches: &'m [Reach],
    seats: &'s mut [Seat],
}

impl<'m, 's> Matrix<'m, 's> {
    /// The matrix that borrows these four. Doesn't allocate.
    pub fn build(
        index: &'m Index<'m>,
        universe: &'m Universe,
        reaches: &'m [Reach],
        seats: &'s mut [Seat],
    ) -> Self
        requires reaches { AreReaches index.now universe.now reaches.now }
        requires seats { length seats.old ≡ length index.now.grants }
        ensures lent { AreLent result }
        ensures index { result.index.now ≡ index.now }
        ensures universe { result.universe.now ≡ universe.now }
    {
        Matrix {
            index,
            universe,
            reaches,
            seats,
        }
    }

    /// The rows whose key is greater than this one, which needn't be the key of a request of the
    /// universe; without a key, all rows. Rows are in order of keys, each once (own). Doesn't
    /// allocate. To list other rows afterwards, call [`Rows::into_matrix`]: if the rows are
    /// dropped, no contract states what the matrix is.
    pub fn rows_after(&mut self, key: Option<&Key>) -> Rows<'_, 'm>
        requires { AreLent self.old }
        ensures going { IsGoing result }
        ensures rows { (rows : List RowView)
            → IsMatrix self.old.index.now.held self.old.universe.now rows
            → AreLeft result (rows_after (option_copied key.entry) rows) }
        ensures starts { Starts result (option_copied key.entry) }
        ensures returned { result.returned ≡ 0 }
        ensures index { result.index.now ≡ self.old.index.now }
        ensures universe { result.universe.now ≡ self.old.universe.now }
    {
        let index = self.index;
        let universe = self.universe;
        let reaches = self.reaches;
        let seats = &mut *self.seats;
        let start = start_after(universe, key);
        rows_from(index, universe, reaches, start, seats)
    }

    /// The rows of every granting binding that come after this mark; without a mark, all of them.
    /// The mark's request and binding needn't exist. Rows are in order of keys, then of bindings,
    /// each once (own). Doesn't allocate. To list other rows afterwards, call
    /// [`EveryRows::into_matrix`].
    pub fn every_after(&mut self, mark: Option<&Mark>) -> EveryRows<'_, 'm>
        requires { AreLent self.old }
        ensures going { IsGoingEvery result }
        ensures rows { (rows : List RowView)
            → IsEvery self.old.index.now.held self.old.universe.now rows
            → AreEveryLeft result (every_after (option_copied mark.entry) rows) }
        ensures starts { EveryStarts result (key_of_mark (option_copied mark.entry)) }
        ensures returned { result.rows.returned ≡ 0 }
        ensures index { result.rows.index.now ≡ self.old.index.now }
        ensures universe { result.rows.universe.now ≡ self.old.universe.now }
    {
        let index = self.index;
        let universe = self.universe;
        let reaches = self.reaches;
        let seats = &mut *self.seats;
        let start = every_start(index, universe, mark);
        let mut rows = rows_from(index, universe, reaches, start.request, seats);
        rows.pass(start.upto);
        EveryRows {
            rows,
            binding: start.binding,
            upto: start.upto,
        }
    }
}

impl<'r, 'm> Rows<'r, 'm> {
    /// Ends the enumeration, and gives the matrix back to list other rows. Doesn't allocate.
    pub fn into_matrix(self) -> Matrix<'m, 'r>
        requires { IsGoing self }
        ensures lent { AreLent result }
        ensures index { result.index.now ≡ self.entry.index.now }
        ensures universe { result.universe.now ≡ self.entry.universe.now }
    {
        Matrix::build(self.index, self.universe, self.reaches, self.seats)
    }
}

impl<'r, 'm> EveryRows<'r, 'm> {
    /// Ends the enumeration, and gives the matrix back to list other rows. Doesn't allocate.
    pub fn into_matrix(self) -> Matrix<'m, 'r>
        requires { IsGoingEvery self }
        ensures lent { AreLent result }
        ensures index { result.index.now ≡ self.entry.rows.index.now }
        ensures universe { result.universe.now ≡ self.entry.rows.universe.now }
    {
        let rows = self.rows;
        Matrix::build(rows.index, rows.universe, rows.reaches, rows.seats)
    }
}
