//! A Universe document of lists.

ghost use Rattle.std.specs.Prelude.{◌≡◌, ◌++◌, OnOk};
ghost use Rattle.rbac_document.specs.Document.{document_text, member_text, list_text};

use crate::entry::{Entry, put_list};
use crate::quoted::put_quoted;
use rbac_universe::UniverseLists;
use std::alloc::AllocError;

/// Adds the Universe document of these lists (own): each list as it is, with each entry on a line
/// of its own. `once_each` makes lists with each entry once and in order. If it runs out of memory,
/// a prefix of the document may have been added.
pub fn put_document(document: &mut Vec<u8>, lists: &UniverseLists) -> Result<(), AllocError>
    ensures { OnOk result (document.new.items ≡ document.old.items ++ document_text lists.now) }
{
    document.extend_from_slice(
        b"{\n  \"apiVersion\": \"rbacaudit/v1\",\n  \"kind\": \"Universe\"",
    )?;
    put_member(document, b"principals", lists.principals.as_slice())?;
    put_member(document, b"namespaces", lists.namespaces.as_slice())?;
    put_member(document, b"verbs", lists.verbs.as_slice())?;
    put_member(document, b"resources", lists.resources.as_slice())?;
    put_member(document, b"names", lists.names.as_slice())?;
    put_member(document, b"urls", lists.urls.as_slice())?;
    document.extend_from_slice(b"\n}\n")
}

// Adds a member of this name, which is a list.
#[tactic(auto, unfolding(crate::specs::Document::member_text))]
pub(crate) fn put_member<T: Entry>(
    document: &mut Vec<u8>,
    name: &[u8],
    entries: &[T],
) -> Result<(), AllocError>
    ensures { OnOk result (document.new.items
        ≡ document.old.items ++ member_text name.now (list_text T.text entries.now)) }
{
    document.extend_from_slice(b",\n  ")?;
    put_quoted(document, name)?;
    document.extend_from_slice(b": ")?;
    put_list(document, entries)
}
