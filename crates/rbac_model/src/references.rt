//! The roles that bindings refer to.

ghost use Rattle.std.specs.Prelude.{◌≡◌, ◌<◌, Any, HoldsAt, MatchOption, IsSome, Some, length};
ghost use Rattle.rbac_model.specs.Lists.{IsAscendingBy};
ghost use Rattle.rbac_model.specs.Places.{IsRefAt};
ghost use Rattle.rbac_model.specs.Policies.{Source, IsRefTo, grant_at, sourced_at, role_name};
ghost use Rattle.rbac_model.specs.Policies.{cluster_role_name};
ghost use Rattle.rbac_model.specs.Sources.{grant_of, source_of};

use crate::objects::Objects;
use crate::places::{GrantPlace, RolePlace};
use rbac_terms::{Binding, ClusterRole, Role, RoleRef, Rule, Word};

/// The role where a rule is written.
#[derive(Clone, Copy)]
pub enum SourceRole<'a> {
    /// A role of one namespace.
    Role(&'a Role),
    /// A cluster role: for a rule that an aggregated role gathers, the plain role that contains it.
    ClusterRole(&'a ClusterRole),
}

/// A grant: a binding whose role is held, and a rule of that role.
#[derive(Clone, Copy)]
pub struct Grant<'a> {
    /// The binding that grants.
    pub binding: &'a Binding,
    /// The place of the binding among the policy's bindings, from 0.
    pub binding_place: usize,
    /// The role where the rule is written.
    pub source: SourceRole<'a>,
    /// The rule.
    pub rule: &'a Rule,
    /// The place of the rule in that role, from 0.
    pub place: usize,
}

// The grant at these places.
pub(crate) fn grant_from<'a>(objects: &'a Objects, at: GrantPlace) -> Grant<'a>
    requires { IsSome (grant_at objects.now at) }
    ensures grant { grant_at objects.now at ≡ Some (grant_of result) }
    ensures binding { result.binding_place ≡ at.binding }
{
    let binding = &objects.bindings()[at.binding];
    let (source, rule) = sourced(objects, at.role, at.rule);
    Grant {
        binding,
        binding_place: at.binding,
        source,
        rule,
        place: at.rule,
    }
}

// The role at a place, and its rule at `place`.
fn sourced<'a>(objects: &'a Objects, role: RolePlace, place: usize) -> (SourceRole<'a>, &'a Rule)
    requires { IsSome (sourced_at objects.now role place) }
    ensures { sourced_at objects.now role place
        ≡ Some (record { source = source_of result.0; rule = result.1.now; place = place }) }
{
    match role {
        RolePlace::RoleAt(at) => {
            let role = &objects.roles()[at];
            (SourceRole::Role(role), &role.rules.as_slice()[place])
        }
        RolePlace::ClusterRoleAt(at) => {
            let role = &objects.cluster_roles()[at];
            (SourceRole::ClusterRole(role), &role.rules.as_slice()[place])
        }
    }
}

// The place of the role with this namespace and name.
pub(crate) fn role_place(roles: &[Role], namespace: &Word, name: &Word) -> Option<usize>
    requires { IsAscendingBy role_name roles.now }
    ensures { MatchOption result
        (¬ Any (λ r. (r.namespace ≡ namespace.now) × (r.name ≡ name.now)) roles.now)
        (λ at. (at < length roles.now)
        × HoldsAt (λ r. (r.namespace ≡ namespace.now) × (r.name ≡ name.now)) roles.now at) }
{
    roles
        .binary_search_by(|held| held.namespace.cmp(namespace).then(held.name.cmp(name)))
        .ok()
}

// The place of the cluster role with this name.
pub(crate) fn cluster_role_place(roles: &[ClusterRole], name: &Word) -> Option<usize>
    requires { IsAscendingBy cluster_role_name roles.now }
    ensures { MatchOption result
        (¬ Any (λ r. r.name ≡ name.now) roles.now)
        (λ at. (at < length roles.now) × HoldsAt (λ r. r.name ≡ name.now) roles.now at) }
{
    roles.binary_search_by(|held| held.name.cmp(name)).ok()
}

/// The place of the role that a binding refers to, if that role is held. A RoleBinding refers to a
/// Role of its own namespace or to a ClusterRole, a ClusterRoleBinding to a ClusterRole (Using RBAC
/// Authorization, RoleBinding and ClusterRoleBinding). A ClusterRoleBinding that names a Role
/// refers to none. Doesn't allocate.
pub fn ref_place(objects: &Objects, binding: &Binding) -> Option<RolePlace>
    ensures { MatchOption result
        ((source : Source) → ¬ IsRefTo objects.now binding.now.namespace binding.now.role source)
        (IsRefAt objects.now binding.now.namespace binding.now.role) }
{
    match &binding.role {
        RoleRef::Role(name) => {
            let namespace = binding.namespace.as_ref()?;
            let place = role_place(objects.roles(), namespace, name)?;
            Some(RolePlace::RoleAt(place))
        }
        RoleRef::ClusterRole(name) => {
            let place = cluster_role_place(objects.cluster_roles(), name)?;
            Some(RolePlace::ClusterRoleAt(place))
        }
    }
}
