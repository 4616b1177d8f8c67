//! Bindings and fields of rows.

ghost use Rattle.std.specs.Prelude.{◌≡◌, ◌++◌, ◌∷◌, [], OnOk};
ghost use Rattle.std.specs.List.{flat_map};
ghost use Rattle.std.specs.Option.{option_copied};
ghost use Rattle.rbac_terms.specs.Text.{slash};
ghost use Rattle.rbac_text.specs.Field.{byte_text};
ghost use Rattle.rbac_text.specs.Row.{binding_scope, binding_text, field_and_tab};

use crate::field::{put_field, put_text};
use rbac_terms::{Binding, CLUSTER_ROLE_BINDING, ROLE_BINDING, Word};
use std::alloc::AllocError;

/// Adds the name of a binding to a line as one field (own): `ClusterRoleBinding/NAME` or
/// `RoleBinding/NAMESPACE/NAME`. If it runs out of memory, a prefix of the field may have been
/// added.
pub fn put_binding(line: &mut Vec<u8>, binding: &Binding) -> Result<(), AllocError>
    ensures { OnOk result (line.new.items ≡ line.old.items ++ binding_text binding.now) }
{
    put_scope(line, binding.namespace.as_ref())?;
    put_text(line, binding.name.as_bytes())
}

// Adds the part of a binding's field before the name: its kind and namespace.
fn put_scope(line: &mut Vec<u8>, namespace: Option<&Word>) -> Result<(), AllocError>
    ensures { OnOk result (line.new.items
        ≡ line.old.items ++ flat_map byte_text (binding_scope (option_copied namespace.entry))) }
{
    match namespace {
        None => put_kind(line, CLUSTER_ROLE_BINDING),
        Some(namespace) => {
            put_kind(line, ROLE_BINDING)?;
            put_text(line, namespace.as_bytes())?;
            line.push(b'/')?;
            Ok(())
        }
    }
}

// Adds a kind, with the slash after it.
pub(crate) fn put_kind(line: &mut Vec<u8>, kind: &str) -> Result<(), AllocError>
    ensures { OnOk result (line.new.items ≡ line.old.items ++ kind.now ++ slash ∷ []) }
{
    line.extend_from_slice(kind.as_bytes())?;
    line.push(b'/')?;
    Ok(())
}

/// Adds a field, as `put_field` does, and a tab after it (own). If it runs out of memory, a prefix
/// of both may have been added.
pub fn put_field_and_tab(line: &mut Vec<u8>, field: &[u8]) -> Result<(), AllocError>
    ensures { OnOk result (line.new.items ≡ line.old.items ++ field_and_tab field.now) }
{
    put_field(line, field)?;
    line.push(b'\t')?;
    Ok(())
}
