//! The rows that a `matrix` command lists.

ghost use Rattle.std.specs.Prelude.{◌≡◌, List};
ghost use Rattle.std.specs.Iterator.{MakesProgress};
ghost use Rattle.std.specs.Option.{option_copied};
ghost use Rattle.rbac_model.specs.Universes.{RowView};
ghost use Rattle.rbac_matrix.specs.Lent.{AreLent};
ghost use Rattle.rbac_cli.specs.RowsLeft.{AreLeftIn, GivesNext, IsOpen, is_every};
ghost use Rattle.rbac_cli.specs.RowsLeft.{rows_left_at_most};
ghost use Rattle.rbac_cli.specs.MatrixPage.{AreListedRows, rows_past};

use crate::matrix_rows::MatrixRows;
use rbac_matrix::{Matrix, Row};
use rbac_question::MatrixOptions;
use rbac_token::Mark;

/// The rows that are left to list.
#[derive(Drop)]
pub(crate) struct RowsLeft<'r, 'm> {
    rows: MatrixRows<'r, 'm>,
    // Whether repeats are left out.
    once: bool,
}

impl<'r, 'm> RowsLeft<'r, 'm> {
    /// The rows of a matrix that these options list and that come after a mark.
    pub(crate) fn after(
        matrix: &'r mut Matrix<'m, '_>,
        options: MatrixOptions,
        mark: Option<&Mark>,
    ) -> Self
        requires { AreLent matrix.old }
        ensures going { IsOpen result }
        ensures every { is_every result ≡ options.every }
        ensures left { (rows : List RowView)
            × AreListedRows options matrix.old.index.now.held matrix.old.universe.now rows
            × AreLeftIn result (rows_past options.every (option_copied mark.entry) rows) }
    {
        RowsLeft {
            rows: MatrixRows::after(matrix, options.every, mark),
            once: options.once,
        }
    }

    /// The next row.
    pub(crate) fn next(&mut self) -> Option<Row<'m>>
        requires { IsOpen self.old }
        ensures going { IsOpen self.new }
        ensures every { is_every self.new ≡ is_every self.old }
        ensures gives { GivesNext self.old result self.new }
        ensures goes { MakesProgress IsOpen rows_left_at_most self.old result self.new }
    {
        if self.once {
            self.rows.pass_repeats();
        }
        self.rows.next()
    }

    /// Whether every binding that grants a request is listed, and not the first alone.
    pub(crate) fn is_every(&mut self) -> bool
        ensures every { result ≡ is_every self.old }
        ensures same { self.new ≡ self.old }
    {
        self.rows.is_every()
    }
}
