//! Roles that no binding names, and that no cluster role named by a binding reaches.

ghost use Rattle.std.specs.Prelude.{◌≡◌, ◌<◌, ◌↔◌, Some, IsSome, IfOk, OnOk, IsTrue, slice_get};
ghost use Rattle.std.specs.Prelude.{get_or, false, true, length};
ghost use Rattle.rbac_model.specs.Places.{source_at};
ghost use Rattle.rbac_model.specs.Policies.{Source, IsHeld, IsPlain};
ghost use Rattle.rbac_lint.specs.Lines.{AddsLines};
ghost use Rattle.rbac_lint.specs.Roles.{roles_in};
ghost use Rattle.rbac_lint.specs.Findings.{IsUsed, IsUnusedOf, IsUnused};
ghost use Rattle.rbac_lint.specs.NamedRoles.{AreNamed, AreGatherers, AreFlagsWith};
ghost use Rattle.rbac_lint.specs.NamedRoles.{IsAddedAt, IsReachedByNamedAt};
ghost use Rattle.rbac_lint.specs.Wanted.{OfKept, OfWanted};

use crate::finding::{Finding, Findings, role_word};
use crate::roles::{role_at, role_count};
use crate::wanted::Wanted;
use rbac_model::{Objects, Policy, RolePlace, ref_place};
use rbac_terms::{Binding, ClusterRole, Word};
use std::alloc::{AllocError, Global};

// Adds the findings that are asked for, for all roles.
pub(crate) fn find_unused(
    alloc: Global,
    found: &mut Findings,
    policy: &Policy,
    wanted: &Wanted<'_>,
) -> Result<(), AllocError>
    ensures { OnOk result
        (AddsLines (OfWanted wanted.now (IsUnused policy.now.held)) found.old found.new) }
{
    if !wanted.has_code(2) {
        return Ok(());
    }
    let objects = policy.objects();
    let named = named_roles(alloc, objects)?;
    let gatherers = named_gatherers(alloc, objects, named.as_slice())?;
    for place in 0..role_count(objects) {
        find_unused_at(
            alloc,
            found,
            policy,
            wanted,
            named.as_slice(),
            gatherers.as_slice(),
            place,
        )?;
    }
    Ok(())
}

// Adds the finding for the role at this place, if there is one.
fn find_unused_at(
    alloc: Global,
    found: &mut Findings,
    policy: &Policy,
    wanted: &Wanted<'_>,
    named: &[bool],
    gatherers: &[usize],
    place: usize,
) -> Result<(), AllocError>
    requires named { AreNamed policy.now.held named.now }
    requires gatherers { AreGatherers policy.now.held gatherers.now }
    requires place { place < length (roles_in policy.now.held) }
    ensures { OnOk result
        (IsAddedAt (λ s. OfKept wanted.now (IsUnusedOf policy.now.held s)) policy.now.held place
        found.old found.new) }
{
    let role = role_at(policy.objects(), place);
    if !wanted.keeps_role(role) {
        return Ok(());
    }
    if is_used(policy, named, gatherers, place) {
        return Ok(());
    }
    let object = role_word(alloc, role)?;
    found.push(Finding {
        code: 2,
        object,
        place: None,
        other: Word::new(alloc),
    })
}

// Whether a binding names the role at this place, or a cluster role that reaches it.
fn is_used(policy: &Policy, named: &[bool], gatherers: &[usize], place: usize) -> bool
    requires named { AreNamed policy.now.held named.now }
    requires gatherers { AreGatherers policy.now.held gatherers.now }
    requires place { place < length (roles_in policy.now.held) }
    ensures { (s : Source) → slice_get (roles_in policy.now.held) place ≡ Some s
        → (IsTrue result ↔ IsUsed policy.now.held s) }
{
    named[place] || is_reached(policy, gatherers, place)
}

// Whether a cluster role that a binding names reaches the cluster role at this place, if it is one.
fn is_reached(policy: &Policy, gatherers: &[usize], place: usize) -> bool
    requires { AreGatherers policy.now.held gatherers.now }
    ensures { IsTrue result ↔ IsReachedByNamedAt policy.now.held place }
{
    for from in gatherers {
        if policy.reaches(*from, place) {
            return true;
        }
    }
    false
}

// The places of the aggregated roles that bindings name.
fn named_gatherers(
    alloc: Global,
    objects: &Objects,
    named: &[bool],
) -> Result<Vec<usize>, AllocError>
    requires { AreNamed objects.now named.now }
    ensures { IfOk result (λ v. AreGatherers objects.now v.items) }
{
    let mut gatherers = Vec::new(alloc);
    let roles = objects.cluster_roles();
    for (place, role) in roles.iter().enumerate() {
        if is_gatherer(role, named, place) {
            gatherers.push(place)?;
        }
    }
    Ok(gatherers)
}

fn is_gatherer(role: &ClusterRole, named: &[bool], place: usize) -> bool
    requires { place < length named.now }
    ensures { IsTrue result ↔ ((get_or named.now place false ≡ true) × ¬ IsPlain role.now) }
{
    named[place] && !is_plain(role)
}

fn is_plain(role: &ClusterRole) -> bool
    ensures { IsTrue result ↔ IsPlain role.now }
{
    role.aggregation.is_none()
}

// One flag for each role: whether some binding names it.
fn named_roles(alloc: Global, objects: &Objects) -> Result<Vec<bool>, AllocError>
    ensures { IfOk result (λ v. AreNamed objects.now v.items) }
{
    let mut named = vec![in alloc; false; role_count(objects)]?;
    let bindings = objects.bindings();
    for binding in bindings {
        flag_named(objects, binding, &mut named);
    }
    Ok(named)
}

// Flags the role that a binding names, if the role exists.
fn flag_named(objects: &Objects, binding: &Binding, named: &mut Vec<bool>)
    requires { length named.old.items ≡ length (roles_in objects.now) }
    ensures { AreFlagsWith objects.now binding.now named.old.items named.new.items }
{
    if let Some(place) = ref_place(objects, binding) {
        named[place_among(objects, place)] = true;
    }
}

// The place in the list of all roles, of a role with this place in the list of its kind.
fn place_among(objects: &Objects, place: RolePlace) -> usize
    requires { IsSome (source_at objects.now place) }
    ensures within { result < length (roles_in objects.now) }
    ensures held { IsHeld objects.now }
    ensures same { (s : Source) → source_at objects.now place ≡ Some s
        → slice_get (roles_in objects.now) result ≡ Some s }
{
    let count = role_count(objects);
    match place {
        RolePlace::ClusterRoleAt(at) => at,
        RolePlace::RoleAt(at) => count - objects.roles().len() + at,
    }
}
