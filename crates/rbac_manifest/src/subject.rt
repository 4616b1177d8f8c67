//! The subjects of a binding.

ghost use Rattle.std.specs.Prelude.{◌≡◌, map, option_map, IfOk};
ghost use Rattle.serde_json.specs.View.{view};
ghost use Rattle.json_fields.specs.Fields.{non_empty};
ghost use Rattle.json_fields.specs.Reads.{Reads};
ghost use Rattle.rbac_manifest.specs.Reads.{Loads};
ghost use Rattle.json_fields.specs.Lists.{bad_place, given_by};
ghost use Rattle.rbac_manifest.specs.Binding.{subject_named, subject_from, subject_at, subjects_in};
ghost use Rattle.rbac_manifest.specs.Document.{bad_subjects};
ghost use Rattle.rbac_manifest.specs.declared.fault.Cause.TheVariants.{BadSubject};
ghost use Rattle.rbac_terms.specs.declared.granting.Subject.TheVariants.{Account};

use crate::binding::is_rbac_group;
use crate::fault::Cause;
use json_fields::{
    ItemFault, Trouble, all_read, list_field, name_of, object_in, text_field, word_of,
};
use rbac_terms::{Subject, Subjects, Word};
use serde_json::Value;
use std::alloc::{AllocError, Global};

// A text, unless it is empty.
fn word_unless_empty(alloc: Global, text: &str) -> Result<Option<Word>, AllocError>
    ensures { IfOk result (λ w. w ≡ non_empty text.now) }
{
    if text.is_empty() {
        return Ok(None);
    }
    Ok(Some(word_of(alloc, text)?))
}

// The account of this namespace, which may be empty, and name.
fn account_named(alloc: Global, namespace: &str, name: &str) -> Result<Subject, AllocError>
    ensures { IfOk result (λ s. s ≡ Account (non_empty namespace.now) name.now) }
{
    Ok(Subject::Account {
        namespace: word_unless_empty(alloc, namespace)?,
        name: word_of(alloc, name)?,
    })
}

// The subject of this kind, group, name and namespace.
#[tactic(auto, unfolding(crate::specs::Binding::subject_named))]
fn subject_named(
    alloc: Global,
    kind: &str,
    group: &str,
    name: &str,
    namespace: &str,
) -> Result<Subject, Trouble>
    ensures { Reads result (subject_named kind.now group.now name.now namespace.now) }
{
    let is_rbac = is_rbac_group(group);
    if kind == "User" && is_rbac {
        return Ok(Subject::User(word_of(alloc, name)?));
    }
    if kind == "Group" && is_rbac {
        return Ok(Subject::Group(word_of(alloc, name)?));
    }
    if kind == "ServiceAccount" && group.is_empty() {
        return Ok(account_named(alloc, namespace, name)?);
    }
    Err(Trouble::Shape)
}

// The subject that an object gives.
#[tactic(auto, unfolding(crate::specs::Binding::subject_from))]
fn subject_from(alloc: Global, value: &Value) -> Result<Subject, Trouble>
    ensures { Reads result (subject_from (view value.now)) }
{
    let (Some(kind), Some(group), Some(name), Some(namespace)) = (
        text_field(value, "kind"),
        text_field(value, "apiGroup"),
        name_of(value),
        text_field(value, "namespace"),
    ) else {
        return Err(Trouble::Shape);
    };
    subject_named(alloc, kind, group, name, namespace)
}

// The subject that an item gives.
#[tactic(auto, unfolding(crate::specs::Binding::subject_at))]
fn subject_of(alloc: Global, value: &Value) -> Result<Subject, Trouble>
    ensures { Reads result (subject_at (view value.now)) }
{
    subject_from(alloc, object_in(value)?)
}

// The subjects that all items give. Fails at the first bad one.
fn subjects_from(alloc: Global, values: &[Value]) -> Result<Subjects, Cause>
    ensures { Loads result (option_map BadSubject (bad_place subject_at 0 (map view values.now)))
        (given_by subject_at (map view values.now)) }
{
    match all_read(alloc, values, subject_of) {
        Ok(subjects) => Ok(Subjects::from_vec(subjects)),
        Err(ItemFault::Bad(place)) => Err(Cause::BadSubject(place)),
        Err(ItemFault::WithoutMemory) => Err(Cause::NoMemory),
    }
}

// The subjects of a binding.
#[tactic(auto, using(crate::proofs::Conditions::subjects_are), unfolding(crate::specs::Document::bad_subjects, crate::specs::Binding::subjects_in))]
pub(crate) fn subjects_of(alloc: Global, document: &Value) -> Result<Subjects, Cause>
    ensures { Loads result (bad_subjects (view document.now)) (subjects_in (view document.now)) }
{
    match list_field(document, "subjects") {
        Some(values) => subjects_from(alloc, values),
        None => Err(Cause::BadSubject(0)),
    }
}
