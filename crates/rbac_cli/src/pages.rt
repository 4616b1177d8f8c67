//! Pages of a matrix, as they are printed.

ghost use Rattle.std.specs.Prelude.{◌≡◌, ◌≢◌, ◌-◌, ◌++◌, ◌∷◌, [], true, Some, OnOk, IfOk, codes};
ghost use Rattle.std.specs.Option.{option_map};
ghost use Rattle.rbac_text.specs.Row.{newline, row_text, tab};
ghost use Rattle.rbac_token.specs.Marks.{mark_text};
ghost use Rattle.rbac_matrix.specs.Every.{marked_name};
ghost use Rattle.rbac_matrix.specs.RowTexts.{texts_shown};
ghost use Rattle.rbac_cli.specs.RowsLeft.{is_every};
ghost use Rattle.rbac_cli.specs.ShownTokens.{last_line, mark_shown, next_token};

use crate::lines::Lines;
use crate::row_ends::RowEnds;
use crate::rows_left::RowsLeft;
use crate::stop::Stop;
use rbac_matrix::Row;
use rbac_terms::{Binding, Word};
use rbac_token::{BindingName, Mark, token_of_mark};
use std::alloc::{AllocError, Global};

// What comes before the token if more rows follow, and the last line if none does.
const NEXT: &[u8] = b"next\t";

const END: &[u8] = b"end\n";

/// The lines of a page of a matrix (own): a line for each row that the limit leaves, and a last
/// line. If more rows follow, the last line is `next` and the token of the last row, joined by a
/// tab; otherwise it is `end`. Keeps no list of rows.
///
/// To know whether more follow it takes the row after the page.
#[derive(Drop)]
pub(crate) struct PageLines<'r, 'm> {
    pub(crate) alloc: Global,
    pub(crate) left: RowsLeft<'r, 'm>,
    // How many rows are left to print, if there is a limit.
    pub(crate) limit: Option<u32>,
    // The last row that was printed.
    pub(crate) last: Option<Row<'m>>,
    // How its line begins and ends.
    pub(crate) ends: RowEnds,
    // Whether the last line was printed.
    pub(crate) has_ended: bool,
}

impl Lines for PageLines<'_, '_> {
    ghost use Rattle.rbac_cli.specs.PageLeft.{IsPageLeft, IsPageOpen, most_lines};

    ghost are_left = { IsPageLeft };

    ghost is_open = { IsPageOpen };

    ghost most_left = { most_lines };

    fn put_next(&mut self, line: &mut Vec<u8>) -> Result<bool, AllocError> {
        if self.has_ended {
            return Ok(false);
        }
        let Some(row) = self.left.next() else {
            return self.put_last(None, line);
        };
        if self.limit == Some(0) {
            return self.put_last(self.last, line);
        }
        self.limit = one_less(self.limit);
        self.ends.renew(self.last, row)?;
        self.last = Some(row);
        self.ends.put_line(row, line)?;
        Ok(true)
    }
}

impl<'m> PageLines<'_, 'm> {
    // Adds the last line: for the row after which more follow, or for the end if there is none.
    fn put_last(&mut self, row: Option<Row<'m>>, line: &mut Vec<u8>) -> Result<bool, AllocError>
        requires { line.old.items ≡ [] }
        ensures line { OnOk result
            (line.new.items ≡ last_line (is_every self.old.left) row.entry) }
        ensures more { IfOk result (λ more. more ≡ true) }
        ensures ended { self.new ≡ record self.old { has_ended = true } }
    {
        self.has_ended = true;
        let every = self.left.is_every();
        match row {
            Some(row) => put_next(self.alloc, every, row, line).map_err(|_| AllocError)?,
            None => line.extend_from_slice(END)?,
        }
        Ok(true)
    }
}

// How many rows are left to print after one more.
fn one_less(left: Option<u32>) -> Option<u32>
    requires { left ≢ Some 0 }
    ensures { result ≡ option_map (λ count. count - 1) left }
{
    Some(left? - 1)
}

// Adds `next`, the token of the row and the end of the line.
fn put_next(alloc: Global, every: bool, row: Row<'_>, line: &mut Vec<u8>) -> Result<(), Stop>
    requires { line.old.items ≡ [] }
    ensures { OnOk result (line.new.items ≡ next_token every row.entry ++ newline ∷ []) }
{
    let token = token_of(alloc, every, row)?;
    put_token(&token, line)?;
    Ok(())
}

// Adds `next`, the token and the end of the line.
fn put_token(token: &Word, line: &mut Vec<u8>) -> Result<(), AllocError>
    requires { line.old.items ≡ [] }
    ensures { OnOk result (line.new.items ≡ codes "next" ++ tab ∷ token.now ++ newline ∷ []) }
{
    line.extend_from_slice(NEXT)?;
    line.extend_from_slice(token.as_bytes())?;
    line.push(b'\n')?;
    Ok(())
}

// The token with which the next page begins after a row.
fn token_of(alloc: Global, every: bool, row: Row<'_>) -> Result<Word, Stop>
    ensures { IfOk result (λ token. token ≡ mark_text (mark_shown every row.entry)) }
{
    let mark = mark_of(alloc, every, row)?;
    Ok(token_of_mark(alloc, &mark)?)
}

// The mark with which the next page begins after a row: the row's key, and its binding's name if
// every binding is listed.
fn mark_of(alloc: Global, every: bool, row: Row<'_>) -> Result<Mark, Stop>
    ensures { IfOk result (λ mark. mark ≡ mark_shown every row.entry) }
{
    let key = row.key()?;
    let binding = if every {
        Some(name_of_binding(alloc, row.binding)?)
    } else {
        None
    };
    Ok(Mark { key, binding })
}

fn name_of_binding(alloc: Global, binding: &Binding) -> Result<BindingName, AllocError>
    ensures { IfOk result (λ name. name ≡ marked_name binding.now) }
{
    let namespace = match &binding.namespace {
        Some(namespace) => Some(Word::from_slice(alloc, namespace.as_bytes())?),
        None => None,
    };
    Ok(BindingName {
        namespace,
        name: Word::from_slice(alloc, binding.name.as_bytes())?,
    })
}
