//! Keys and marks as they are printed in a token.

ghost use Rattle.std.specs.Prelude.{◌≡◌, ◌++◌, ◌∷◌, [], Some, IfOk, OnOk};
ghost use Rattle.std.specs.List.{flat_map};
ghost use Rattle.std.specs.Option.{option_copied};
ghost use Rattle.rbac_terms.specs.Keys.{texts};
ghost use Rattle.rbac_token.specs.Marks.{name_texts, printed_mark, version_of};
ghost use Rattle.rbac_token.specs.Token.{after_tab};

use crate::mark::BindingName;
use rbac_terms::{CLUSTER_ROLE_BINDING, Key, ROLE_BINDING};
use rbac_text::put_field;
use std::alloc::{AllocError, Global};

// How many texts a key has.
pub(crate) const TEXTS: usize = 6;

// The version, the printed fields of a key, and, if there is a binding, those of its name.
pub(crate) fn print_mark(
    alloc: Global,
    key: &Key,
    binding: Option<&BindingName>,
) -> Result<Vec<u8>, AllocError>
    ensures { IfOk result (λ v. v.items ≡ printed_mark key.now (option_copied binding.entry)) }
{
    let mut printed = Vec::new(alloc);
    printed.push(version_of(binding))?;
    put_key(&mut printed, key)?;
    if let Some(name) = binding {
        put_name(&mut printed, name)?;
    }
    Ok(printed)
}

// The version of a token with this binding, or without one.
fn version_of(binding: Option<&BindingName>) -> u8
    ensures { result ∷ [] ≡ version_of (option_copied binding.entry) }
{
    match binding {
        None => b'1',
        Some(_) => b'2',
    }
}

// Adds the fields of a key, each after a tab.
fn put_key(printed: &mut Vec<u8>, key: &Key) -> Result<(), AllocError>
    ensures { OnOk result
        (printed.new.items ≡ printed.old.items ++ flat_map after_tab (texts key.now)) }
{
    for place in 0..TEXTS {
        put_next(printed, key.field(place).as_bytes())?;
    }
    Ok(())
}

// Adds the fields of a binding's name, each after a tab.
fn put_name(printed: &mut Vec<u8>, name: &BindingName) -> Result<(), AllocError>
    ensures { OnOk result
        (printed.new.items ≡ printed.old.items ++ flat_map after_tab (name_texts (Some name.now))) }
{
    let (kind, namespace) = scope_of(name);
    put_next(printed, kind)?;
    put_next(printed, namespace)?;
    put_next(printed, name.name.as_bytes())
}

// The kind word and the namespace of a binding; a ClusterRoleBinding has the empty namespace.
fn scope_of(name: &BindingName) -> (&[u8], &[u8])
    ensures { result.0.now ∷ result.1.now ∷ name.now.name ∷ [] ≡ name_texts (Some name.now) }
{
    match &name.namespace {
        None => (CLUSTER_ROLE_BINDING.as_bytes(), &[]),
        Some(namespace) => (ROLE_BINDING.as_bytes(), namespace.as_bytes()),
    }
}

// Adds a field after a tab.
fn put_next(printed: &mut Vec<u8>, text: &[u8]) -> Result<(), AllocError>
    ensures { OnOk result (printed.new.items ≡ printed.old.items ++ after_tab text.now) }
{
    printed.push(b'\t')?;
    put_field(printed, text)
}
