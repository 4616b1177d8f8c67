//! Grants by the same rule.

ghost use Rattle.std.specs.Prelude.{◌≡◌, ◌<◌, ◌↔◌, IsTrue, IfSome, length};
ghost use Rattle.rbac_index.specs.Indexed.{AreAlike};

use crate::numbers::GrantNos;
use rbac_model::{GrantPlace, Policy, RolePlace};

// An earlier grant by the same rule as the grant with this number, found in the runs of each row of
// rules. It is the first such grant, so that all of them share what is computed for it.
pub(crate) fn earlier_alike(policy: &Policy, starts: &[GrantNos], no: u32) -> Option<u32>
    requires { no < length policy.now.grants }
    ensures { IfSome result (λ first. (first < no) × AreAlike policy.now first no) }
{
    let place = policy.place(no);
    let row = match place.role {
        RolePlace::RoleAt(at) => at,
        RolePlace::ClusterRoleAt(at) => policy.objects().roles().len().checked_add(at)?,
    };
    let start = starts.get(row)?.as_slice().first()?;
    let first = (*start as usize).checked_add(place.rule)?;
    if first < no as usize && is_same_rule(policy.place(first as u32), place) {
        Some(first as u32)
    } else {
        None
    }
}

// Whether the grants with these places are by the same rule.
fn is_same_rule(a: GrantPlace, b: GrantPlace) -> bool
    ensures { IsTrue result ↔ ((a.role ≡ b.role) × (a.rule ≡ b.rule)) }
{
    is_same_role(a.role, b.role) && a.rule == b.rule
}

fn is_same_role(a: RolePlace, b: RolePlace) -> bool
    ensures { IsTrue result ↔ (a ≡ b) }
{
    match (a, b) {
        (RolePlace::RoleAt(a), RolePlace::RoleAt(b)) => a == b,
        (RolePlace::ClusterRoleAt(a), RolePlace::ClusterRoleAt(b)) => a == b,
        _ => false,
    }
}
