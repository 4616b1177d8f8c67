//! Permissions: what rules permit, in pieces that can't be cut further.

ghost use Rattle.std.specs.Prelude.{◌≡◌, ◌++◌, IfOk, OnOk};
ghost use Rattle.rbac_diff.specs.Permissions.{one_star};
ghost use Rattle.rbac_diff.specs.Shown.{permission_of, permitted_of};
ghost use Rattle.rbac_diff.specs.Texts.{namespace_text, permission_text, target_text};

use rbac_terms::{Principal, Word};
use rbac_text::{put_choice_and_tab, put_field_and_tab};
use std::alloc::{AllocError, Global};

// The end of a word that ends in several stars.
const TWO_STARS: &[u8] = b"**";

// Most permissions' texts have no more bytes than this. A longer one only makes its buffer grow.
const LIKELY_LEN: usize = 128;

// Who may use a verb word on what.
#[derive(Clone, Copy)]
pub(crate) struct Permission<'a> {
    pub(crate) principal: &'a Principal,
    pub(crate) verb: &'a Word,
    pub(crate) target: Permitted<'a>,
}

// What is permitted. A missing name means any name; a missing namespace means all namespaces and
// none.
#[derive(Clone, Copy)]
pub(crate) enum Permitted<'a> {
    Resource {
        namespace: Option<&'a Word>,
        group: &'a Word,
        resource: &'a Word,
        name: Option<&'a Word>,
    },
    // A URL word; stars at its end count as one.
    Url(&'a Word),
}

// The permission as it is printed: its six fields, each with a tab after it.
pub(crate) fn permission_text(alloc: Global, permission: Permission<'_>) -> Result<Word, AllocError>
    ensures { IfOk result (λ text. text ≡ permission_text (permission_of permission.entry)) }
{
    let mut text = Vec::with_capacity(alloc, LIKELY_LEN)?;
    put_permission(&mut text, permission)?;
    Word::from_slice(alloc, text.as_slice())
}

fn put_permission(text: &mut Vec<u8>, permission: Permission<'_>) -> Result<(), AllocError>
    ensures { OnOk result (text.new.items
        ≡ text.old.items ++ permission_text (permission_of permission.entry)) }
{
    put_field_and_tab(text, permission.principal.key().as_bytes())?;
    put_namespace(text, permission.target)?;
    put_field_and_tab(text, permission.verb.as_bytes())?;
    put_target(text, permission.target)
}

// Adds the namespace of what is permitted; a URL has none.
fn put_namespace(text: &mut Vec<u8>, target: Permitted<'_>) -> Result<(), AllocError>
    ensures { OnOk result (text.new.items
        ≡ text.old.items ++ namespace_text (permitted_of target.entry)) }
{
    match target {
        Permitted::Resource { namespace, .. } => put_choice_and_tab(text, namespace),
        Permitted::Url(_) => put_field_and_tab(text, b""),
    }
}

// Adds the API group, the resource or URL, and the object name of what is permitted.
fn put_target(text: &mut Vec<u8>, target: Permitted<'_>) -> Result<(), AllocError>
    ensures { OnOk result (text.new.items
        ≡ text.old.items ++ target_text (permitted_of target.entry)) }
{
    match target {
        Permitted::Resource {
            group,
            resource,
            name,
            ..
        } => {
            put_field_and_tab(text, group.as_bytes())?;
            put_field_and_tab(text, resource.as_bytes())?;
            put_choice_and_tab(text, name)
        }
        Permitted::Url(word) => {
            put_field_and_tab(text, b"")?;
            put_field_and_tab(text, with_one_star(word.as_bytes()))?;
            put_field_and_tab(text, b"")
        }
    }
}

// The word, without all stars at its end but the first.
fn with_one_star(word: &[u8]) -> &[u8]
    ensures { result.now ≡ one_star word.now }
{
    let mut rest = word;
    while rest.ends_with(TWO_STARS) {
        rest = &rest[..rest.len() - 1];
    }
    rest
}
