//! The grants of bindings, in order.

ghost use Rattle.std.specs.Prelude.{◌≡◌, ◌+◌, ◌<◌, ◌≤◌, ◌++◌, List, Some, IsSome, All, IfOk, IfErr};
ghost use Rattle.std.specs.Prelude.{OnOk, length, slice_get, vec_len};
ghost use Rattle.rbac_model.specs.Policies.{AreGrantsOf, AreRulesFor, HasTooMany, SourcedRule};
ghost use Rattle.rbac_model.specs.Policies.{grant_at, grants_at, most_grants};
ghost use Rattle.rbac_model.specs.Places.{AreReachedByEach, IsAdded, places_of, places_in};
ghost use Rattle.rbac_model.specs.Places.{role_places};

use crate::aggregation::sources_at;
use crate::fault::ResolveFault;
use crate::objects::Objects;
use crate::place_set::PlaceSet;
use crate::places::{GrantPlace, RolePlace};
use crate::references::ref_place;
use rbac_terms::Binding;
use std::alloc::{AllocError, Global};

// How many grants a policy may have (own).
const MOST_GRANTS: usize = 1_000_000;

// The grants of all bindings.
pub(crate) fn grants_of(
    alloc: Global,
    objects: &Objects,
    reached: &[PlaceSet],
) -> Result<Vec<GrantPlace>, ResolveFault>
    requires { AreReachedByEach objects.now reached.now }
    ensures are { IfOk result
        (λ gs. AreGrantsOf objects.now objects.now.bindings (grants_at objects.now gs.items)) }
    ensures held { IfOk result (λ gs. All (λ g. IsSome (grant_at objects.now g)) gs.items) }
    ensures few { IfOk result (λ gs. vec_len gs ≤ most_grants) }
    ensures many { IfErr result (λ e. e ≡ ResolveFault.TooMany → HasTooMany objects.now) }
{
    let bindings = objects.bindings();
    let mut grants = Vec::new(alloc);
    for (at, binding) in bindings.iter().enumerate() {
        put_binding(alloc, objects, reached, at, binding, &mut grants)?;
    }
    Ok(grants)
}

// Adds the grants of one binding.
fn put_binding(
    alloc: Global,
    objects: &Objects,
    reached: &[PlaceSet],
    at: usize,
    binding: &Binding,
    grants: &mut Vec<GrantPlace>,
) -> Result<(), ResolveFault>
    requires reached { AreReachedByEach objects.now reached.now }
    requires at { slice_get objects.now.bindings at ≡ Some binding.now }
    requires few { vec_len grants.old ≤ most_grants }
    requires held { All (λ g. IsSome (grant_at objects.now g)) grants.old.items }
    ensures added { OnOk result
        ((rules : List SourcedRule) × AreRulesFor objects.now binding.now rules
        × IsAdded objects.now binding.now grants.old.items grants.new.items rules) }
    ensures few { OnOk result (vec_len grants.new ≤ most_grants) }
    ensures many { IfErr result
        (λ e. e ≡ ResolveFault.TooMany
        → (rules : List SourcedRule) × AreRulesFor objects.now binding.now rules
        × (most_grants < vec_len grants.old + length rules)) }
{
    match ref_place(objects, binding) {
        Some(RolePlace::RoleAt(role)) => put_role(objects, at, role, grants),
        Some(RolePlace::ClusterRoleAt(role)) => {
            let sources = sources_at(alloc, objects, reached, role)?;
            put_sources(objects, at, sources.as_slice(), grants)
        }
        None => Ok(()),
    }
}

// Adds the grants of a binding, one for each rule of a role.
fn put_role(
    objects: &Objects,
    binding: usize,
    role: usize,
    grants: &mut Vec<GrantPlace>,
) -> Result<(), ResolveFault>
    requires role { role < length objects.now.roles }
    requires few { vec_len grants.old ≤ most_grants }
    ensures ok { OnOk result
        (grants.new.items ≡ grants.old.items ++ role_places objects.now binding role) }
    ensures few { OnOk result (vec_len grants.new ≤ most_grants) }
    ensures many { IfErr result
        (λ e. e ≡ ResolveFault.TooMany
        → most_grants < vec_len grants.old + length (role_places objects.now binding role)) }
    ensures always { most_grants
        < vec_len grants.old + length (role_places objects.now binding role)
        → result ≡ Err ResolveFault.TooMany }
{
    let count = objects.roles()[role].rules.as_slice().len();
    put_rules(binding, RolePlace::RoleAt(role), count, grants)
}

// Adds the grants of a binding, one for each rule of these cluster roles.
fn put_sources(
    objects: &Objects,
    binding: usize,
    sources: &[usize],
    grants: &mut Vec<GrantPlace>,
) -> Result<(), ResolveFault>
    requires sources { All (λ p. p < length objects.now.cluster_roles) sources.now }
    requires few { vec_len grants.old ≤ most_grants }
    ensures ok { OnOk result
        (grants.new.items ≡ grants.old.items ++ places_in objects.now binding sources.now) }
    ensures few { OnOk result (vec_len grants.new ≤ most_grants) }
    ensures many { IfErr result
        (λ e. e ≡ ResolveFault.TooMany
        → most_grants < vec_len grants.old + length (places_in objects.now binding sources.now)) }
{
    let roles = objects.cluster_roles();
    for role in sources {
        let count = roles[*role].rules.as_slice().len();
        put_rules(binding, RolePlace::ClusterRoleAt(*role), count, grants)?;
    }
    Ok(())
}

// Adds this many grants of a binding, one for each rule of a role. Refuses too many before it
// allocates anything.
fn put_rules(
    binding: usize,
    role: RolePlace,
    count: usize,
    grants: &mut Vec<GrantPlace>,
) -> Result<(), ResolveFault>
    requires { vec_len grants.old ≤ most_grants }
    ensures ok { OnOk result (grants.new.items ≡ grants.old.items ++ places_of binding role count) }
    ensures few { OnOk result (vec_len grants.new ≤ most_grants) }
    ensures many { IfErr result
        (λ e. e ≡ ResolveFault.TooMany → most_grants < vec_len grants.old + count) }
    ensures always { most_grants < vec_len grants.old + count → result ≡ Err ResolveFault.TooMany }
{
    if count > MOST_GRANTS - grants.len() {
        return Err(ResolveFault::TooMany);
    }
    push_rules(binding, role, count, grants)?;
    Ok(())
}

fn push_rules(
    binding: usize,
    role: RolePlace,
    count: usize,
    grants: &mut Vec<GrantPlace>,
) -> Result<(), AllocError>
    ensures ok { OnOk result (grants.new.items ≡ grants.old.items ++ places_of binding role count) }
    ensures len { OnOk result (vec_len grants.new ≡ vec_len grants.old + count) }
{
    for rule in 0..count {
        grants.push(GrantPlace {
            binding,
            role,
            rule,
        })?;
    }
    Ok(())
}
