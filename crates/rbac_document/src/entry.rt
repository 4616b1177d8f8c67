//! Entries of a list, as a document has them.

ghost use Rattle.std.specs.Prelude.{◌≡◌, ◌++◌, OnOk, codes};
ghost use Rattle.std.specs.List.{join_by, flat_map};
ghost use Rattle.rbac_terms.specs.Text.{Text};
ghost use Rattle.rbac_document.specs.Document.{list_text, groups_text, is_user, before_name};
ghost use Rattle.rbac_document.specs.Document.{rest_of_resource};
ghost use Rattle.json.specs.Print.{quoted};

use crate::quoted::put_quoted;
use rbac_terms::{Principal, Word};
use rbac_universe::ListedResource;
use std::alloc::AllocError;

/// An entry of a list.
pub(crate) trait Entry {
    ghost text: { Self → Text };

    // Adds the entry as a JSON value.
    fn put(&self, document: &mut Vec<u8>) -> Result<(), AllocError>
        ensures { OnOk result (document.new.items ≡ document.old.items ++ text self.now) };
}

impl Entry for Word {
    ghost use Rattle.json.specs.Print.{quoted};

    ghost text = { quoted };

    fn put(&self, document: &mut Vec<u8>) -> Result<(), AllocError> {
        put_quoted(document, self.as_bytes())
    }
}

impl Entry for Principal {
    ghost use Rattle.rbac_document.specs.Document.{principal_text};

    ghost text = { principal_text };

    fn put(&self, document: &mut Vec<u8>) -> Result<(), AllocError> {
        put_after(document, before_name(is_user(self)), self.name())?;
        put_groups(document, self.given())?;
        document.extend_from_slice(b"}")
    }
}

// Whether a principal is a user: its key begins with `u:`.
fn is_user(principal: &Principal) -> bool
    ensures { result ≡ is_user principal.now }
{
    principal.key().as_bytes().first() == Some(&b'u')
}

// The text before the name of a user, or of a group.
fn before_name(of_user: bool) -> &'static [u8]
    ensures { result.now ≡ before_name of_user }
{
    if of_user {
        b"{\"user\": "
    } else {
        b"{\"group\": "
    }
}

// Adds the groups that a user is given, if it is given any.
fn put_groups(document: &mut Vec<u8>, groups: &[Word]) -> Result<(), AllocError>
    ensures { OnOk result (document.new.items ≡ document.old.items ++ groups_text groups.now) }
{
    if groups.is_empty() {
        return Ok(());
    }
    document.extend_from_slice(b", \"groups\": [")?;
    put_joined(document, b", ", groups)?;
    document.extend_from_slice(b"]")
}

impl Entry for ListedResource {
    ghost use Rattle.rbac_document.specs.Document.{resource_text};

    ghost text = { resource_text };

    fn put(&self, document: &mut Vec<u8>) -> Result<(), AllocError> {
        put_after(document, b"{\"group\": ", self.group.as_bytes())?;
        put_after(document, b", \"resource\": ", self.text.as_bytes())?;
        document.extend_from_slice(rest_of_resource(self.namespaced))
    }
}

// The text after the text of a resource.
fn rest_of_resource(namespaced: bool) -> &'static [u8]
    ensures { result.now ≡ rest_of_resource namespaced }
{
    if namespaced {
        b", \"namespaced\": true}"
    } else {
        b", \"namespaced\": false}"
    }
}

// Adds the text `before`, and then a text as a JSON string.
pub(crate) fn put_after(
    document: &mut Vec<u8>,
    before: &[u8],
    text: &[u8],
) -> Result<(), AllocError>
    ensures { OnOk result
        (document.new.items ≡ document.old.items ++ before.now ++ quoted text.now) }
{
    document.extend_from_slice(before)?;
    put_quoted(document, text)
}

/// Adds a list, each entry on a line of its own.
pub(crate) fn put_list<T: Entry>(document: &mut Vec<u8>, entries: &[T]) -> Result<(), AllocError>
    ensures { OnOk result
        (document.new.items ≡ document.old.items ++ list_text T.text entries.now) }
{
    if entries.is_empty() {
        return document.extend_from_slice(b"[]");
    }
    document.extend_from_slice(b"[\n    ")?;
    put_joined(document, b",\n    ", entries)?;
    document.extend_from_slice(b"\n  ]")
}

// Adds entries with this text between them.
pub(crate) fn put_joined<T: Entry>(
    document: &mut Vec<u8>,
    between: &[u8],
    entries: &[T],
) -> Result<(), AllocError>
    ensures { OnOk result
        (document.new.items ≡ document.old.items ++ join_by T.text between.now entries.now) }
{
    let Some((first, others)) = entries.split_first() else {
        return Ok(());
    };
    first.put(document)?;
    put_others(document, between, others)
}

// Adds entries, each after this text.
fn put_others<T: Entry>(
    document: &mut Vec<u8>,
    between: &[u8],
    others: &[T],
) -> Result<(), AllocError>
    ensures { OnOk result (document.new.items
        ≡ document.old.items ++ flat_map (λ entry. between.now ++ T.text entry) others.now) }
{
    for entry in others {
        document.extend_from_slice(between)?;
        entry.put(document)?;
    }
    Ok(())
}
