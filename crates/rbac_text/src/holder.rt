//! Lines of the holders of a permission.

ghost use Rattle.std.specs.Prelude.{◌≡◌, ◌++◌, OnOk};
ghost use Rattle.rbac_text.specs.Row.{holder_text};

use crate::row::{put_binding, put_field_and_tab};
use rbac_terms::{Binding, Word};
use std::alloc::AllocError;

/// Adds the line of a holder (own): its key and the binding that grants it the permission, joined
/// by a tab, with a newline at the end. If it runs out of memory, a prefix of the line may have
/// been added.
pub fn put_holder(line: &mut Vec<u8>, key: &Word, binding: &Binding) -> Result<(), AllocError>
    ensures { OnOk result (line.new.items ≡ line.old.items ++ holder_text key.now binding.now) }
{
    put_field_and_tab(line, key.as_bytes())?;
    put_binding(line, binding)?;
    line.push(b'\n')?;
    Ok(())
}
