//! The members of a group, as a Group document lists them (OpenShift, "Group").

ghost use Rattle.std.specs.Prelude.{codes};
ghost use Rattle.serde_json.specs.View.{view};
ghost use Rattle.json_fields.specs.Reads.{Reads};
ghost use Rattle.rbac_manifest.specs.Document.{bad_body};
ghost use Rattle.rbac_manifest.specs.Group.{membership_at};
ghost use Rattle.rbac_manifest.specs.Reads.{Gives};
ghost use Rattle.rbac_manifest.specs.UniverseDocument.{name_in, items_field};
ghost use Rattle.rbac_manifest.specs.declared.kind.Kind.TheVariants as kinds;

use crate::fault::{Cause, read_or};
use crate::metadata::{Metadata, metadata_of};
use json_fields::{Trouble, all_read, list_field, word_of};
use rbac_groups::Membership;
use rbac_terms::{Word, Words};
use serde_json::Value;
use std::alloc::Global;

// The name of a user, which isn't empty.
fn user_of(alloc: Global, value: &Value) -> Result<Word, Trouble>
    ensures { Reads result (name_in (view value.now)) }
{
    match value.as_str() {
        Some(name) if !name.is_empty() => Ok(word_of(alloc, name)?),
        _ => Err(Trouble::Shape),
    }
}

// The names of the users that a document lists.
fn users_of(alloc: Global, document: &Value) -> Result<Words, Trouble>
    ensures { Reads result (items_field name_in (codes "users") (view document.now)) }
{
    let Some(users) = list_field(document, "users") else {
        return Err(Trouble::Shape);
    };
    Ok(Words::from_vec(all_read(alloc, users, user_of)?))
}

// The group that a document is about, with the users that it lists.
#[tactic(auto, using(crate::proofs::Conditions::group_is), unfolding(crate::specs::Group::membership_at))]
pub(crate) fn membership_of(alloc: Global, document: &Value) -> Result<Membership, Cause>
    ensures { Gives result (bad_body kinds.Group (view document.now))
        (membership_at (view document.now)) }
{
    let Metadata { name, .. } = metadata_of(alloc, document)?;
    let users = read_or(users_of(alloc, document), Cause::BadGroup)?;
    Ok(Membership { group: name, users })
}
