//! The rows of a matrix, of both kinds.

ghost use Rattle.std.specs.Prelude.{◌≡◌, ◌≤◌, List};
ghost use Rattle.std.specs.Iterator.{MakesProgress};
ghost use Rattle.std.specs.Option.{option_copied};
ghost use Rattle.rbac_model.specs.Universes.{RowView};
ghost use Rattle.rbac_matrix.specs.Lent.{AreLent};
ghost use Rattle.rbac_matrix.specs.Once.{PassesRepeats};
ghost use Rattle.rbac_cli.specs.MatrixRows.{AreRowsLeft, GivesNextRow, IsOpenAt, is_every_of};
ghost use Rattle.rbac_cli.specs.MatrixRows.{most_rows};
ghost use Rattle.rbac_cli.specs.MatrixRows.{rows_at_most};
ghost use Rattle.rbac_cli.specs.MatrixPage.{AreRows, rows_past};

use rbac_matrix::{EveryRows, Matrix, Row, Rows, a_matrix_is_there, every_rows_are_there};
use rbac_token::Mark;

/// The rows of a matrix that are left: for each request the first binding that grants it, or every
/// binding that does.
#[derive(Drop)]
pub(crate) enum MatrixRows<'r, 'm> {
    First(Rows<'r, 'm>),
    Every(EveryRows<'r, 'm>),
}

impl<'r, 'm> MatrixRows<'r, 'm> {
    /// The rows of a matrix that come after a mark.
    pub(crate) fn after(matrix: &'r mut Matrix<'m, '_>, every: bool, mark: Option<&Mark>) -> Self
        requires { AreLent matrix.old }
        ensures going { IsOpenAt result }
        ensures every { is_every_of result ≡ every }
        ensures left { (rows : List RowView)
            × AreRows every matrix.old.index.now.held matrix.old.universe.now rows
            × AreRowsLeft result (rows_past every (option_copied mark.entry) rows) }
    {
        if every {
            every_rows_are_there();
            return MatrixRows::Every(matrix.every_after(mark));
        }
        a_matrix_is_there();
        let key = match mark {
            Some(mark) => Some(&mark.key),
            None => None,
        };
        MatrixRows::First(matrix.rows_after(key))
    }

    /// The next row.
    pub(crate) fn next(&mut self) -> Option<Row<'m>>
        requires { IsOpenAt self.old }
        ensures going { IsOpenAt self.new }
        ensures every { is_every_of self.new ≡ is_every_of self.old }
        ensures gives { GivesNextRow self.old result self.new }
        ensures goes { MakesProgress IsOpenAt rows_at_most self.old result self.new }
    {
        match self {
            MatrixRows::First(rows) => rows.next(),
            MatrixRows::Every(rows) => rows.next(),
        }
    }

    /// Passes over repeats, up to the next row that isn't one; over all rows, if every row is one.
    pub(crate) fn pass_repeats(&mut self)
        requires { IsOpenAt self.old }
        ensures going { IsOpenAt self.new }
        ensures every { is_every_of self.new ≡ is_every_of self.old }
        ensures passes { PassesRepeats (AreRowsLeft self.old) (AreRowsLeft self.new) }
        ensures few { most_rows self.new ≤ most_rows self.old }
    {
        match self {
            MatrixRows::First(rows) => rows.pass_repeats(),
            MatrixRows::Every(rows) => rows.pass_repeats(),
        }
    }

    /// Whether every binding that grants a request is listed, and not the first alone.
    pub(crate) fn is_every(&mut self) -> bool
        ensures every { result ≡ is_every_of self.old }
        ensures same { self.new ≡ self.old }
    {
        match self {
            MatrixRows::First(_) => false,
            MatrixRows::Every(_) => true,
        }
    }
}
