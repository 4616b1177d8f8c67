//! Lines of changes.

ghost use Rattle.std.specs.Prelude.{◌≡◌, ◌++◌, OnOk};
ghost use Rattle.rbac_diff.specs.Listed.{change_of};
ghost use Rattle.rbac_diff.specs.Lines.{change_text, sign};

use crate::change::{Change, ChangeKind};
use rbac_text::put_binding;
use std::alloc::AllocError;

/// Adds the line of a change (own): `+` or `-`, the permission and the binding, joined by tabs,
/// with a newline at the end. If it runs out of memory, a prefix of the line may have been added.
pub fn put_change(line: &mut Vec<u8>, change: &Change<'_>) -> Result<(), AllocError>
    ensures { OnOk result (line.new.items ≡ line.old.items ++ change_text (change_of change.now)) }
{
    line.push(sign_of(change.kind))?;
    line.push(b'\t')?;
    line.extend_from_slice(change.permission.as_bytes())?;
    put_binding(line, change.binding)?;
    line.push(b'\n')?;
    Ok(())
}

fn sign_of(kind: ChangeKind) -> u8
    ensures { result ≡ sign kind }
{
    match kind {
        ChangeKind::Gained => b'+',
        ChangeKind::Lost => b'-',
    }
}
