//! Roles whose rules are covered by those of the other policy's role of the same name.

ghost use Rattle.std.specs.Prelude.{◌≡◌, ◌<◌, IsTrue, IfOk, IfSome, List, Some, [], length};
ghost use Rattle.std.specs.Prelude.{slice_get};
ghost use Rattle.rbac_terms.specs.declared.matching.Rule.{Rule};
ghost use Rattle.rbac_diff.specs.CoveredRoles.{AreCoveredAt, AreCoveredRoles, CoversEach};
ghost use Rattle.rbac_diff.specs.CoveredRoles.{HasPair, IsCoveredAt};

use crate::covering::covers_rule;
use crate::named::namesake_from;
use rbac_model::{GrantPlace, Named, Policy, RolePlace};
use rbac_terms::{ClusterRole, Role, Rule};
use std::alloc::{AllocError, Global};

// For each role and each cluster role of a policy, the place of its namesake in the other policy,
// if the namesake's rules cover its own one by one. This is computed once for each role: most roles
// stay, and several bindings refer to most.
pub(crate) struct CoveredRoles {
    pub(crate) roles: Vec<Option<usize>>,
    pub(crate) cluster_roles: Vec<Option<usize>>,
}

impl Drop for CoveredRoles {
    fn drop(self) {
        let Self {
            roles,
            cluster_roles,
        } = self;
    }
}

impl CoveredRoles {
    pub(crate) fn between(alloc: Global, own: &Policy, other: &Policy) -> Result<Self, AllocError>
        ensures { IfOk result (λ covered. AreCoveredRoles own.now.held covered other.now.held) }
    {
        let held = own.objects();
        let others = other.objects();
        Ok(CoveredRoles {
            roles: covered_places(alloc, held.roles(), others.roles())?,
            cluster_roles: covered_places(alloc, held.cluster_roles(), others.cluster_roles())?,
        })
    }

    // No role is known to be covered.
    pub(crate) fn none(alloc: Global) -> Self
        ensures roles { result.roles.items ≡ [] }
        ensures cluster_roles { result.cluster_roles.items ≡ [] }
    {
        CoveredRoles {
            roles: Vec::new(alloc),
            cluster_roles: Vec::new(alloc),
        }
    }

    // Whether the rule at `own` is known to be covered by the other policy's rule at `other`,
    // because its role is covered.
    pub(crate) fn have_rule(&self, own: GrantPlace, other: GrantPlace) -> bool
        ensures rule { IsTrue result → own.rule ≡ other.rule }
        ensures role { IsTrue result → HasPair self.now own.role other.role }
    {
        own.rule == other.rule && self.have_role(own.role, other.role)
    }

    fn have_role(&self, own: RolePlace, other: RolePlace) -> bool
        ensures { IsTrue result → HasPair self.now own other }
    {
        match (own, other) {
            (RolePlace::RoleAt(own), RolePlace::RoleAt(other)) => {
                is_at(self.roles.as_slice(), own, other)
            }
            (RolePlace::ClusterRoleAt(own), RolePlace::ClusterRoleAt(other)) => {
                is_at(self.cluster_roles.as_slice(), own, other)
            }
            _ => false,
        }
    }
}

// Whether the list has the place `other` for the role at `own`.
fn is_at(places: &[Option<usize>], own: usize, other: usize) -> bool
    ensures { IsTrue result → slice_get places.now own ≡ Some (Some other) }
{
    match places.get(own) {
        Some(Some(place)) => *place == other,
        _ => false,
    }
}

// A role or a cluster role.
trait Ruled: Named {
    ghost rules: { Self → List Rule };

    fn rules(&self) -> &[Rule]
        ensures { result.now ≡ rules self.now };
}

impl Ruled for Role {
    ghost rules = { λ r. r.rules };

    fn rules(&self) -> &[Rule] {
        self.rules.as_slice()
    }
}

impl Ruled for ClusterRole {
    ghost rules = { λ r. r.rules };

    fn rules(&self) -> &[Rule] {
        self.rules.as_slice()
    }
}

// For each role, the place of its namesake among the others, if the namesake's rules cover its own.
fn covered_places<T: Ruled>(
    alloc: Global,
    roles: &[T],
    others: &[T],
) -> Result<Vec<Option<usize>>, AllocError>
    ensures { IfOk result (λ places. AreCoveredAt T.rules roles.now places.items others.now) }
{
    let mut places = Vec::new(alloc);
    let mut from = 0;
    for role in roles {
        let namesake = namesake_from(others, &mut from, role);
        places.push(covered_place(role, others, namesake)?)?;
    }
    Ok(places)
}

// The place of the role's namesake among the others, if the namesake's rules cover the role's.
fn covered_place<T: Ruled>(
    role: &T,
    others: &[T],
    namesake: Option<usize>,
) -> Result<Option<usize>, AllocError>
    requires { IfSome namesake (λ at. at < length others.now) }
    ensures { IfOk result (λ place. IfSome place (IsCoveredAt T.rules role.now others.now)) }
{
    match namesake {
        Some(at) if cover_each(others[at].rules(), role.rules())? => Ok(Some(at)),
        _ => Ok(None),
    }
}

// Whether both lists are equally long, and each rule covers the one at its place in `others`.
fn cover_each(rules: &[Rule], others: &[Rule]) -> Result<bool, AllocError>
    ensures { IfOk result (λ cover. IsTrue cover → CoversEach rules.now others.now) }
{
    if rules.len() != others.len() {
        return Ok(false);
    }
    for (at, rule) in rules.iter().enumerate() {
        if !covers_rule(rule, &others[at])? {
            return Ok(false);
        }
    }
    Ok(true)
}
