//! Fields with a name or a namespace, or with `*` for any.

ghost use Rattle.std.specs.Prelude.{◌≡◌, ◌++◌, OnOk};
ghost use Rattle.std.specs.Option.{option_copied};
ghost use Rattle.rbac_text.specs.Choice.{choice_and_tab};

use crate::row::put_field_and_tab;
use rbac_terms::Word;
use std::alloc::AllocError;

/// Adds a namespace or an object name as a field, or `*` for any if there is none, and a tab after
/// it (own). The name `*` is printed by its code, `\x2a`. If it runs out of memory, a prefix of
/// both may have been added.
pub fn put_choice_and_tab(line: &mut Vec<u8>, name: Option<&Word>) -> Result<(), AllocError>
    ensures { OnOk result
        (line.new.items ≡ line.old.items ++ choice_and_tab (option_copied name.entry)) }
{
    match name {
        None => line.extend_from_slice(b"*\t"),
        Some(name) if name.as_bytes() == b"*".as_slice() => line.extend_from_slice(b"\\x2a\t"),
        Some(name) => put_field_and_tab(line, name.as_bytes()),
    }
}
