//! The line that explains why a request is allowed.

ghost use Rattle.std.specs.Prelude.{◌≡◌, ◌++◌, ◌∷◌, [], OnErr, OnOk};
ghost use Rattle.rbac_model.specs.Sources.{source_of};
ghost use Rattle.rbac_text.specs.Row.{tab};
ghost use Rattle.rbac_text.specs.Why.{role_text, cluster_role_text, named_text, source_text};
ghost use Rattle.rbac_text.specs.Why.{place_text, roles_text, places_text, reason_text, why_text};

use crate::field::put_text;
use crate::row::{put_binding, put_kind};
use itoa::Buffer;
use rbac_model::SourceRole;
use rbac_terms::{Binding, CLUSTER_ROLE, ROLE, RoleRef, Word};
use std::alloc::AllocError;

/// Adds the name of a role of a namespace as one field (own): `Role/NAMESPACE/NAME`. If it runs out
/// of memory, a prefix of the field may have been added.
pub fn put_role(line: &mut Vec<u8>, namespace: &Word, name: &Word) -> Result<(), AllocError>
    ensures { OnOk result (line.new.items ≡ line.old.items ++ role_text namespace.now name.now) }
{
    put_role_in(line, namespace.as_bytes(), name)
}

// Adds the name of a role of a namespace; the namespace is empty for a Role that a
// ClusterRoleBinding names.
fn put_role_in(line: &mut Vec<u8>, namespace: &[u8], name: &Word) -> Result<(), AllocError>
    ensures { OnOk result (line.new.items ≡ line.old.items ++ role_text namespace.now name.now) }
{
    put_kind(line, ROLE)?;
    put_text(line, namespace)?;
    line.push(b'/')?;
    put_text(line, name.as_bytes())
}

// Adds the name of a role of the whole cluster as one field (own): `ClusterRole/NAME`. If it runs
// out of memory, a prefix of the field may have been added.
fn put_cluster_role(line: &mut Vec<u8>, name: &Word) -> Result<(), AllocError>
    ensures { OnOk result (line.new.items ≡ line.old.items ++ cluster_role_text name.now) }
{
    put_kind(line, CLUSTER_ROLE)?;
    put_text(line, name.as_bytes())
}

/// Adds a place as one field (own): `place` counts from 0, and is printed as counted from 1, in
/// decimal digits. If it runs out of memory, nothing is added.
pub fn put_place(line: &mut Vec<u8>, place: usize) -> Result<(), AllocError>
    ensures added { OnOk result (line.new.items ≡ line.old.items ++ place_text place) }
    ensures kept { OnErr result (line.new.items ≡ line.old.items) }
{
    // Even the greatest place has a number in a `u128`.
    let number = place as u128 + 1;
    let mut buffer = Buffer::new();
    line.extend_from_slice(buffer.format(number).as_bytes())
}

/// Adds the line that explains why a request is allowed (own): the binding that grants it, the role
/// that this binding names, the role where the rule is written, the place of the rule in that role,
/// and the place of the subject in the binding, joined by tabs, with a newline at the end. Both
/// places count from 0, and are printed as counted from 1. If it runs out of memory, a prefix of
/// the line may have been added.
pub fn put_why(
    line: &mut Vec<u8>,
    binding: &Binding,
    source: SourceRole<'_>,
    rule_place: usize,
    subject_place: usize,
) -> Result<(), AllocError>
    ensures { OnOk result (line.new.items
        ≡ line.old.items
        ++ why_text binding.now (source_of source.entry) rule_place subject_place) }
{
    put_reason(line, binding, source, rule_place, subject_place)?;
    line.push(b'\n')?;
    Ok(())
}

// Adds the fields of the line that explains why a request is allowed.
pub(crate) fn put_reason(
    line: &mut Vec<u8>,
    binding: &Binding,
    source: SourceRole<'_>,
    rule_place: usize,
    subject_place: usize,
) -> Result<(), AllocError>
    ensures { OnOk result (line.new.items
        ≡ line.old.items
        ++ reason_text binding.now (source_of source.entry) rule_place subject_place) }
{
    put_binding(line, binding)?;
    put_tab(line)?;
    put_roles(line, binding, source)?;
    put_tab(line)?;
    put_places(line, rule_place, subject_place)
}

pub(crate) fn put_tab(line: &mut Vec<u8>) -> Result<(), AllocError>
    ensures { OnOk result (line.new.items ≡ line.old.items ++ tab ∷ []) }
{
    line.push(b'\t')?;
    Ok(())
}

// Adds the role that a binding names, and the role where the rule is written.
fn put_roles(
    line: &mut Vec<u8>,
    binding: &Binding,
    source: SourceRole<'_>,
) -> Result<(), AllocError>
    ensures { OnOk result (line.new.items
        ≡ line.old.items ++ roles_text binding.now (source_of source.entry)) }
{
    put_named_role(line, binding)?;
    put_tab(line)?;
    put_source(line, source)
}

// Adds the role that a binding names.
fn put_named_role(line: &mut Vec<u8>, binding: &Binding) -> Result<(), AllocError>
    ensures { OnOk result (line.new.items
        ≡ line.old.items ++ named_text binding.now.namespace binding.now.role) }
{
    match (&binding.namespace, &binding.role) {
        (Some(namespace), RoleRef::Role(name)) => put_role(line, namespace, name),
        // A ClusterRoleBinding can name a Role, but grants nothing then.
        (None, RoleRef::Role(name)) => put_role_in(line, &[], name),
        (_, RoleRef::ClusterRole(name)) => put_cluster_role(line, name),
    }
}

// Adds the role where a rule is written.
fn put_source(line: &mut Vec<u8>, source: SourceRole<'_>) -> Result<(), AllocError>
    ensures { OnOk result
        (line.new.items ≡ line.old.items ++ source_text (source_of source.entry)) }
{
    match source {
        SourceRole::Role(role) => put_role(line, &role.namespace, &role.name),
        SourceRole::ClusterRole(role) => put_cluster_role(line, &role.name),
    }
}

// Adds the places of a rule and of a subject.
fn put_places(line: &mut Vec<u8>, rule: usize, subject: usize) -> Result<(), AllocError>
    ensures { OnOk result (line.new.items ≡ line.old.items ++ places_text rule subject) }
{
    put_place(line, rule)?;
    put_tab(line)?;
    put_place(line, subject)
}
