//! The role that a binding names.

ghost use Rattle.std.specs.Prelude.{◌≡◌};
ghost use Rattle.serde_json.specs.View.{view};
ghost use Rattle.json_fields.specs.Reads.{Reads};
ghost use Rattle.rbac_manifest.specs.Reads.{Gives};
ghost use Rattle.rbac_manifest.specs.Document.{bad_role_ref};
ghost use Rattle.rbac_manifest.specs.Binding.{is_rbac_group, role_named, role_ref_from};
ghost use Rattle.rbac_manifest.specs.Binding.{role_ref_at};

use crate::fault::{Cause, read_or};
use crate::kind::RBAC_GROUP;
use json_fields::{Trouble, field, name_of, text_field, word_of};
use rbac_terms::{CLUSTER_ROLE, ROLE, RoleRef};
use serde_json::Value;
use std::alloc::Global;

// Whether this is the RBAC group. An empty group counts as the RBAC group.
#[tactic(auto, unfolding(crate::specs::Binding::is_rbac_group))]
pub(crate) fn is_rbac_group(group: &str) -> bool
    ensures { result ≡ is_rbac_group group.now }
{
    group.is_empty() || group == RBAC_GROUP
}

// The reference to a role of this kind, group and name.
#[tactic(auto, unfolding(crate::specs::Binding::role_named))]
fn role_named(
    alloc: Global,
    in_namespace: bool,
    kind: &str,
    group: &str,
    name: &str,
) -> Result<RoleRef, Trouble>
    ensures { Reads result (role_named in_namespace kind.now group.now name.now) }
{
    if !is_rbac_group(group) {
        return Err(Trouble::Shape);
    }
    if kind == CLUSTER_ROLE {
        return Ok(RoleRef::ClusterRole(word_of(alloc, name)?));
    }
    if in_namespace && kind == ROLE {
        return Ok(RoleRef::Role(word_of(alloc, name)?));
    }
    Err(Trouble::Shape)
}

// The reference that an object gives.
#[tactic(auto, unfolding(crate::specs::Binding::role_ref_from))]
fn role_ref_from(alloc: Global, value: &Value, in_namespace: bool) -> Result<RoleRef, Trouble>
    ensures { Reads result (role_ref_from in_namespace (view value.now)) }
{
    let (Some(kind), Some(group), Some(name)) = (
        text_field(value, "kind"),
        text_field(value, "apiGroup"),
        name_of(value),
    ) else {
        return Err(Trouble::Shape);
    };
    role_named(alloc, in_namespace, kind, group, name)
}

// The role that a binding names; a Role only if the binding is in a namespace.
#[tactic(auto, using(crate::proofs::Conditions::role_ref_is), unfolding(crate::specs::Binding::role_ref_at))]
pub(crate) fn role_ref_of(
    alloc: Global,
    document: &Value,
    in_namespace: bool,
) -> Result<RoleRef, Cause>
    ensures { Gives result (bad_role_ref in_namespace (view document.now))
        (role_ref_at in_namespace (view document.now)) }
{
    let Some(reference) = field(document, "roleRef") else {
        return Err(Cause::BadRoleRef);
    };
    if !reference.is_object() {
        return Err(Cause::BadRoleRef);
    }
    read_or(
        role_ref_from(alloc, reference, in_namespace),
        Cause::BadRoleRef,
    )
}
