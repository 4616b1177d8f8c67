//! The roles that aggregated roles gather rules from.

ghost use Rattle.std.specs.Prelude.{◌≡◌, ◌+◌, ◌*◌, ◌/◌, ◌<◌, ◌≤◌, IfOk, OnOk};
ghost use Rattle.std.specs.Prelude.{IsOkAnd, Contains, Any, Some, [], length, min, slice_get};
ghost use Rattle.rbac_model.specs.Policies.{IsHeld, IsPlain, AreReachedNames};
ghost use Rattle.rbac_model.specs.Graphs.{HasPlace};
ghost use Rattle.rbac_model.specs.Lists.{IsUpTo};
ghost use Rattle.rbac_terms.specs.declared.granting.ClusterRole.{ClusterRole};
ghost use Rattle.rbac_model.specs.Places.{IsRowOf, AreSteps, AreReachedByEach};
ghost use Rattle.rbac_model.specs.Places.{AreSourcesAt, IsPlainAt, AreNamesIn};

use crate::labels::Labelled;
use crate::objects::Objects;
use crate::place_set::PlaceSet;
use crate::reachability::close;
use crate::references::cluster_role_place;
use rbac_terms::{ClusterRole, Word, Words};
use std::alloc::{AllocError, Global};

// For each cluster role, the places of the cluster roles that it reaches.
pub(crate) fn reached_by_each(alloc: Global, objects: &Objects) -> Result<Vec<PlaceSet>, AllocError>
    ensures { IfOk result (λ rows. AreReachedByEach objects.now rows.items) }
{
    let mut rows = steps_of(alloc, objects)?;
    close(alloc, &mut rows)?;
    Ok(rows)
}

// For each cluster role, the places of the cluster roles that one step leads to.
fn steps_of(alloc: Global, objects: &Objects) -> Result<Vec<PlaceSet>, AllocError>
    ensures { IfOk result (λ rows. AreSteps objects.now rows.items) }
{
    let labelled = Labelled::new(alloc, objects.cluster_roles())?;
    rows_of(alloc, objects, &labelled)
}

// The same sets, found by look-up in the labels of the cluster roles.
fn rows_of(
    alloc: Global,
    objects: &Objects,
    labelled: &Labelled,
) -> Result<Vec<PlaceSet>, AllocError>
    requires { labelled.now ≡ objects.now.cluster_roles }
    ensures { IfOk result (λ rows. AreSteps objects.now rows.items) }
{
    let roles = objects.cluster_roles();
    let mut rows = Vec::with_capacity(alloc, roles.len())?;
    for (at, role) in roles.iter().enumerate() {
        rows.push(steps_from(alloc, objects, labelled, role, at)?)?;
    }
    Ok(rows)
}

// The places of the cluster roles that one step leads to from this role, which is at `at`.
fn steps_from(
    alloc: Global,
    objects: &Objects,
    labelled: &Labelled,
    role: &ClusterRole,
    at: usize,
) -> Result<PlaceSet, AllocError>
    requires held { IsHeld objects.now }
    requires labelled { labelled.now ≡ objects.now.cluster_roles }
    requires at { slice_get objects.now.cluster_roles at ≡ Some role.now }
    ensures { IfOk result (IsRowOf objects.now role.now) }
{
    let Some(selectors) = &role.aggregation else {
        return Ok(PlaceSet::new(alloc));
    };
    let mut row = labelled.gathered(alloc, selectors)?;
    let mut own = PlaceSet::new(alloc);
    own.insert(at)?;
    row.remove(&own);
    Ok(row)
}

// The places of the cluster roles whose written rules the cluster role at this place has. The list
// is made when a binding needs it, because the lists of all roles might not fit in memory.
pub(crate) fn sources_at(
    alloc: Global,
    objects: &Objects,
    reached: &[PlaceSet],
    at: usize,
) -> Result<Vec<usize>, AllocError>
    requires reached { AreReachedByEach objects.now reached.now }
    requires at { at < length objects.now.cluster_roles }
    ensures { IfOk result (λ row. AreSourcesAt objects.now at row.items) }
{
    let roles = objects.cluster_roles();
    if roles[at].aggregation.is_none() {
        let mut own = Vec::new(alloc);
        own.push(at)?;
        return Ok(own);
    }
    plain_in(alloc, roles, &reached[at])
}

// The places of this set that have a plain role, ascending.
fn plain_in(
    alloc: Global,
    roles: &[ClusterRole],
    places: &PlaceSet,
) -> Result<Vec<usize>, AllocError>
    ensures { IfOk result
        (λ row. IsUpTo
        (λ k. HasPlace places.now k × IsPlainAt roles.now k) row.items (length roles.now)) }
{
    let mut row = Vec::new(alloc);
    for at in 0..roles.len() / 64 + 1 {
        if places.has_word(at) {
            put_plain(roles, places, at, &mut row)?;
        }
    }
    Ok(row)
}

// Adds the places of the plain roles among the places of one word.
fn put_plain(
    roles: &[ClusterRole],
    places: &PlaceSet,
    at: usize,
    row: &mut Vec<usize>,
) -> Result<(), AllocError>
    requires word { at ≤ length roles.now / 64 }
    requires before { IsUpTo
        (λ k. HasPlace places.now k × IsPlainAt roles.now k) row.old.items (at * 64) }
    ensures { OnOk result
        (IsUpTo (λ k. HasPlace places.now k × IsPlainAt roles.now k) row.new.items
        (min (at * 64 + 64) (length roles.now))) }
{
    for place in at * 64..(at * 64).saturating_add(64).min(roles.len()) {
        if places.has(place) && roles[place].aggregation.is_none() {
            row.push(place)?;
        }
    }
    Ok(())
}

// The names of the cluster roles that the cluster role with this name reaches. If that role is
// plain or doesn't exist, the list is empty and nothing is allocated.
pub(crate) fn names_from(
    alloc: Global,
    objects: &Objects,
    reached: &[PlaceSet],
    name: &Word,
) -> Result<Words, AllocError>
    requires { AreReachedByEach objects.now reached.now }
    ensures reached { IfOk result
        (λ ws. (r : ClusterRole) → Contains objects.now.cluster_roles r → r.name ≡ name.now
        → AreReachedNames objects.now r ws) }
    ensures none { ¬ Any (λ r. r.name ≡ name.now) objects.now.cluster_roles
        → IsOkAnd result (λ ws. ws ≡ []) }
    ensures plain { (r : ClusterRole) → Contains objects.now.cluster_roles r → r.name ≡ name.now
        → IsPlain r → IsOkAnd result (λ ws. ws ≡ []) }
{
    let roles = objects.cluster_roles();
    let Some(at) = cluster_role_place(roles, name) else {
        return Ok(Words::new(alloc));
    };
    if roles[at].aggregation.is_none() {
        return Ok(Words::new(alloc));
    }
    names_in(alloc, objects, &reached[at])
}

// The names of the cluster roles at these places, ascending.
fn names_in(alloc: Global, objects: &Objects, places: &PlaceSet) -> Result<Words, AllocError>
    ensures { IfOk result (λ ws. AreNamesIn objects.now places.now ws) }
{
    let mut names = Words::new(alloc);
    for (at, role) in objects.cluster_roles().iter().enumerate() {
        if places.has(at) {
            names.push(role.name.clone()?)?;
        }
    }
    Ok(names)
}
