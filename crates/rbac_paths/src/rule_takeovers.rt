//! What each rule of each role takes over by some steps. Each rule is compared with the table once,
//! however many bindings grant it.

ghost use Rattle.std.specs.Prelude.{◌≡◌, IfOk, Some, [], slice_get, slice_index_or, ℕ};
ghost use Rattle.rbac_terms.specs.declared.granting.ClusterRole.{ClusterRole};
ghost use Rattle.rbac_terms.specs.declared.granting.Role.{Role};
ghost use Rattle.rbac_paths.specs.Takeovers.{AreTakeoversOfEach, HaveTakeovers, takeovers_at};

use crate::listed::listed_at;
use crate::takeover::{Takeover, takeovers_of};
use crate::told::StepRows;
use rbac_model::{GrantPlace, Objects, RolePlace};
use rbac_terms::{ClusterRole, Items, Role, Rule};
use std::alloc::{AllocError, Global};
use std::marker::Model;

// What each rule of a list takes over.
type OfEach = Items<Items<Takeover>>;

/// For each Role and each cluster role of a policy, what each of its rules takes over.
pub(crate) struct RuleTakeovers {
    roles: Vec<OfEach>,
    cluster_roles: Vec<OfEach>,
}

impl Drop for RuleTakeovers {
    fn drop(self) {
        let Self {
            roles,
            cluster_roles,
        } = self;
    }
}

impl Model for RuleTakeovers {
    ghost use Rattle.rbac_paths.specs.Takeovers.{TakeoversView};

    ghost Value = { TakeoversView };

    ghost view = { λ m. record { roles = m.roles.items; cluster_roles = m.cluster_roles.items } };
}

impl RuleTakeovers {
    /// What each rule of these roles takes over by these steps.
    pub(crate) fn of_roles(
        alloc: Global,
        objects: &Objects,
        steps: &[StepRows],
    ) -> Result<Self, AllocError>
        ensures { IfOk result (HaveTakeovers objects.now steps.now) }
    {
        Ok(RuleTakeovers {
            roles: all_of_roles(alloc, objects.roles(), steps)?,
            cluster_roles: all_of_cluster_roles(alloc, objects.cluster_roles(), steps)?,
        })
    }

    /// What the rule of a grant takes over.
    pub(crate) fn of_grant(&self, grant: GrantPlace) -> &[Takeover]
        ensures { result.now ≡ slice_index_or (takeovers_at self.now grant.role) grant.rule [] }
    {
        listed_at(self.of_role(grant.role), grant.rule)
    }

    // What each rule of the role at this place takes over; empty past the last role.
    fn of_role(&self, role: RolePlace) -> &[Items<Takeover>]
        ensures { result.now ≡ takeovers_at self.now role }
    {
        match role {
            RolePlace::RoleAt(at) => listed_at(self.roles.as_slice(), at),
            RolePlace::ClusterRoleAt(at) => listed_at(self.cluster_roles.as_slice(), at),
        }
    }
}

// What each rule of each of these Roles takes over.
fn all_of_roles(
    alloc: Global,
    roles: &[Role],
    steps: &[StepRows],
) -> Result<Vec<OfEach>, AllocError>
    ensures { IfOk result (λ all. (at : ℕ) (role : Role) → slice_get roles.now at ≡ Some role
        → AreTakeoversOfEach steps.now role.rules (slice_index_or all.items at [])) }
{
    let mut all = Vec::with_capacity(alloc, roles.len())?;
    for role in roles {
        all.push(of_each(alloc, role.rules.as_slice(), steps)?)?;
    }
    Ok(all)
}

// What each rule of each of these cluster roles takes over.
fn all_of_cluster_roles(
    alloc: Global,
    roles: &[ClusterRole],
    steps: &[StepRows],
) -> Result<Vec<OfEach>, AllocError>
    ensures { IfOk result (λ all. (at : ℕ) (role : ClusterRole) → slice_get roles.now at ≡ Some role
        → AreTakeoversOfEach steps.now role.rules (slice_index_or all.items at [])) }
{
    let mut all = Vec::with_capacity(alloc, roles.len())?;
    for role in roles {
        all.push(of_each(alloc, role.rules.as_slice(), steps)?)?;
    }
    Ok(all)
}

// What each of these rules takes over.
fn of_each(alloc: Global, rules: &[Rule], steps: &[StepRows]) -> Result<OfEach, AllocError>
    ensures { IfOk result (AreTakeoversOfEach steps.now rules.now) }
{
    let mut all = Vec::with_capacity(alloc, rules.len())?;
    for rule in rules {
        all.push(takeovers_of(alloc, steps, rule)?)?;
    }
    Ok(Items::from_vec(all))
}
