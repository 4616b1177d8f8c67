//! The roles of an export, as one list.

ghost use Rattle.std.specs.Prelude.{◌≡◌, ◌<◌, Some, length, slice_get, MatchOption};
ghost use Rattle.rbac_model.specs.Policies.{IsHeld};
ghost use Rattle.rbac_model.specs.Sources.{source_of};
ghost use Rattle.rbac_model.specs.Places.{rules_of};
ghost use Rattle.rbac_lint.specs.Roles.{roles_in, IsPlainRole, source_object};
ghost use Rattle.rbac_lint.specs.Wanted.{IsKept};

use crate::wanted::Wanted;
use rbac_model::{Objects, SourceRole};
use rbac_terms::Rule;

// How many roles there are.
pub(crate) fn role_count(objects: &Objects) -> usize
    ensures count { result ≡ length (roles_in objects.now) }
    ensures held { IsHeld objects.now }
{
    objects.cluster_roles().len() + objects.roles().len()
}

// The role at a place: cluster roles by name, then roles by namespace and name.
pub(crate) fn role_at(objects: &Objects, place: usize) -> SourceRole<'_>
    requires { place < length (roles_in objects.now) }
    ensures { slice_get (roles_in objects.now) place ≡ Some (source_of result) }
{
    let cluster_roles = objects.cluster_roles();
    if place < cluster_roles.len() {
        return SourceRole::ClusterRole(&cluster_roles[place]);
    }
    SourceRole::Role(&objects.roles()[place - cluster_roles.len()])
}

// The rules of a plain role, if findings about it are asked for.
pub(crate) fn wanted_rules<'a>(wanted: &Wanted<'_>, role: SourceRole<'a>) -> Option<&'a [Rule]>
    ensures { MatchOption result
        (¬ (IsKept wanted.now (source_object (source_of role.entry))
        × IsPlainRole (source_of role.entry)))
        (λ rules. IsKept wanted.now (source_object (source_of role.entry))
        × IsPlainRole (source_of role.entry)
        × (rules.now ≡ rules_of (source_of role.entry))) }
{
    if !wanted.keeps_role(role) {
        return None;
    }
    plain_rules(role)
}

// The rules of a plain role; an aggregated one's written rules aren't used.
fn plain_rules(role: SourceRole<'_>) -> Option<&[Rule]>
    ensures { MatchOption result (¬ IsPlainRole (source_of role.entry))
        (λ rules. IsPlainRole (source_of role.entry)
        × (rules.now ≡ rules_of (source_of role.entry))) }
{
    match role {
        SourceRole::Role(role) => Some(role.rules.as_slice()),
        SourceRole::ClusterRole(role) => {
            if role.aggregation.is_some() {
                return None;
            }
            Some(role.rules.as_slice())
        }
    }
}
