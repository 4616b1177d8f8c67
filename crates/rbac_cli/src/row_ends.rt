//! Lines of rows, most of which begin and end as the line before does.

ghost use Rattle.std.specs.Prelude.{◌≡◌, [], IsTrue, OnOk, Some};
ghost use Rattle.rbac_text.specs.Row.{row_text};
ghost use Rattle.rbac_matrix.specs.RowTexts.{texts_shown};
ghost use Rattle.rbac_cli.specs.RowEnds.{AreEndsOf, IsBackOf, IsFrontOf, back_text, front_text};

use rbac_matrix::Row;
use rbac_terms::Binding;
use rbac_text::{put_binding, put_field_and_tab};
use std::alloc::{AllocError, Global};

/// How the line of a row begins and ends: with its principal, namespace and verb, and with its
/// binding. Most rows share these with the row before, so the texts are made again only when they
/// change.
pub(crate) struct RowEnds {
    // The text before the row's target, and the text after it.
    front: Vec<u8>,
    back: Vec<u8>,
}

impl Drop for RowEnds {
    fn drop(self) {
        let Self { front, back } = self;
    }
}

impl RowEnds {
    // The ends of no row's line.
    pub(crate) fn new(alloc: Global) -> Self
        ensures { (result.front.items ≡ []) × (result.back.items ≡ []) }
    {
        RowEnds {
            front: Vec::new(alloc),
            back: Vec::new(alloc),
        }
    }

    // Turns the ends of the last row's line, if there is one, into those of this row's line.
    pub(crate) fn renew(&mut self, last: Option<Row<'_>>, row: Row<'_>) -> Result<(), AllocError>
        requires { AreEndsOf last self.old }
        ensures { OnOk result (AreEndsOf (Some row.entry) self.new) }
    {
        renew_front(&mut self.front, last, row)?;
        renew_back(&mut self.back, last, row)
    }

    // Puts the line of the row whose ends these are into `line`.
    pub(crate) fn put_line(&self, row: Row<'_>, line: &mut Vec<u8>) -> Result<(), AllocError>
        requires ends { AreEndsOf (Some row) self.now }
        requires empty { line.old.items ≡ [] }
        ensures { OnOk result
            (line.new.items ≡ row_text (texts_shown row.entry) row.entry.binding.now) }
    {
        line.extend_from_slice(self.front.as_slice())?;
        put_field_and_tab(line, row.group.as_bytes())?;
        put_field_and_tab(line, row.resource.as_bytes())?;
        put_field_and_tab(line, row.name.as_bytes())?;
        line.extend_from_slice(self.back.as_slice())
    }
}

// Turns the text before the last row's target, if there is one, into the text before this row's
// target.
fn renew_front(front: &mut Vec<u8>, last: Option<Row<'_>>, row: Row<'_>) -> Result<(), AllocError>
    requires { IsFrontOf last front.old.items }
    ensures { OnOk result (front.new.items ≡ front_text (texts_shown row.entry)) }
{
    if let Some(last) = last {
        if is_of_line(last, row) {
            return Ok(());
        }
    }
    front.clear();
    put_field_and_tab(front, row.principal.as_bytes())?;
    put_field_and_tab(front, row.namespace.as_bytes())?;
    put_field_and_tab(front, row.verb.as_bytes())
}

// Whether both rows have the same principal, namespace and verb.
fn is_of_line(last: Row<'_>, row: Row<'_>) -> bool
    ensures { IsTrue result
        → front_text (texts_shown last.entry) ≡ front_text (texts_shown row.entry) }
{
    if last.verb != row.verb {
        return false;
    }
    last.namespace == row.namespace && last.principal == row.principal
}

// Turns the text after the last row's target, if there is one, into the text after this row's
// target.
fn renew_back(back: &mut Vec<u8>, last: Option<Row<'_>>, row: Row<'_>) -> Result<(), AllocError>
    requires { IsBackOf last back.old.items }
    ensures { OnOk result (back.new.items ≡ back_text row.entry.binding.now) }
{
    if let Some(last) = last {
        if is_named_alike(last.binding, row.binding) {
            return Ok(());
        }
    }
    back.clear();
    put_binding(back, row.binding)?;
    back.push(b'\n')?;
    Ok(())
}

// Whether both bindings have the same name, and the same namespace or none.
fn is_named_alike(last: &Binding, binding: &Binding) -> bool
    ensures { IsTrue result → back_text last.now ≡ back_text binding.now }
{
    last.name == binding.name && last.namespace == binding.namespace
}
