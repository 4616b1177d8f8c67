//! How a near grant is printed.

ghost use Rattle.std.specs.Prelude.{◌≡◌, ◌++◌, ◌<◌, IfOk, OnOk, length};
ghost use Rattle.std.specs.Option.{option_copied};
ghost use Rattle.rbac_model.specs.Sources.{grant_of};
ghost use Rattle.rbac_text.specs.Field.{field_text};
ghost use Rattle.rbac_near.specs.NearLines.{group_key, has_text, missing_word, namespace_text};
ghost use Rattle.rbac_near.specs.NearLines.{near_line};

use crate::near::{Missing, Near};
use rbac_model::{Grant, Policy};
use rbac_terms::{MEMBER_PREFIX, Subject, Word};
use rbac_text::{put_field, put_field_and_tab, put_list, put_why};
use std::alloc::{AllocError, Global};

impl Missing {
    /// The word for what is missing, as it is printed (own).
    pub fn word(self) -> &'static [u8]
        ensures { result.now ≡ missing_word self }
    {
        match self {
            Missing::Namespace => b"namespace",
            Missing::Verb => b"verb",
            Missing::Group => b"group",
            Missing::Subresource => b"subresource",
            Missing::Name => b"name",
            Missing::Member => b"member",
        }
    }
}

/// Adds the line of a near grant (own): seven fields, joined by tabs, with a newline at the end.
/// The fields are what is missing; what the grant has instead, which is its namespace, a list of
/// the rule, or the key of the group; and the fields of `put_why`. If it runs out of memory, a
/// prefix of the line may have been added.
pub fn put_near(
    alloc: Global,
    line: &mut Vec<u8>,
    policy: &Policy,
    near: Near,
) -> Result<(), AllocError>
    requires { near.number < length policy.now.grants }
    ensures { OnOk result (line.new.items ≡ line.old.items ++ near_line policy.now near) }
{
    let grant = policy.grant(near.number);
    put_field_and_tab(line, near.missing.word())?;
    put_has(alloc, line, near, grant)?;
    line.push(b'\t')?;
    put_why(
        line,
        grant.binding,
        grant.source,
        grant.place,
        near.subject_place,
    )
}

// Adds what the grant has instead of what is missing, as one field.
fn put_has(
    alloc: Global,
    line: &mut Vec<u8>,
    near: Near,
    grant: Grant<'_>,
) -> Result<(), AllocError>
    ensures { OnOk result (line.new.items ≡ line.old.items
        ++ has_text near.missing (grant_of grant.entry) near.subject_place) }
{
    let subjects = grant.binding.subjects.as_slice();
    match near.missing {
        Missing::Namespace => put_namespace(line, grant.binding.namespace.as_ref()),
        Missing::Verb => put_list(line, &grant.rule.verbs),
        Missing::Group => put_list(line, &grant.rule.groups),
        Missing::Subresource => put_list(line, &grant.rule.resources),
        Missing::Name => put_list(line, &grant.rule.resource_names),
        Missing::Member => put_group(alloc, line, subjects.get(near.subject_place)),
    }
}

// Adds a namespace as a field; none is printed as an empty one.
fn put_namespace(line: &mut Vec<u8>, namespace: Option<&Word>) -> Result<(), AllocError>
    ensures { OnOk result (line.new.items ≡ line.old.items
        ++ namespace_text (option_copied namespace.entry)) }
{
    match namespace {
        Some(namespace) => put_field(line, namespace.as_bytes()),
        None => put_field(line, b"".as_slice()),
    }
}

// Adds the key of the group that a subject is for, as a field; empty for any other subject.
fn put_group(alloc: Global, line: &mut Vec<u8>, subject: Option<&Subject>) -> Result<(), AllocError>
    ensures { OnOk result (line.new.items ≡ line.old.items
        ++ field_text (group_key (option_copied subject.entry))) }
{
    let key = group_key(alloc, subject)?;
    put_field(line, key.as_bytes())
}

// The key of the group that a subject is for; empty for any other subject.
fn group_key(alloc: Global, subject: Option<&Subject>) -> Result<Word, AllocError>
    ensures { IfOk result (λ key. key ≡ group_key (option_copied subject.entry)) }
{
    match subject {
        Some(Subject::Group(name)) => {
            let mut key = Word::from_slice(alloc, MEMBER_PREFIX)?;
            key.push_slice(name.as_bytes())?;
            Ok(key)
        }
        _ => Ok(Word::new(alloc)),
    }
}
