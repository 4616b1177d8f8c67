//! The groups that documents give each of many principals.

ghost use Rattle.std.specs.Prelude.{◌≡◌, IfOk, map};
ghost use Rattle.rbac_groups.specs.Memberships.{with_memberships};

use crate::by_user::GroupsByUser;
use crate::giving::{add_copies, user_given};
use crate::membership::Membership;
use rbac_terms::{Principal, Word, Words};
use std::alloc::{AllocError, Global};

/// Each of these principals, in order, with the groups that documents give it, as
/// `with_memberships` gives them (own). Looks each user up, so it takes time n log n for n
/// principals and listed users in all; without memberships it is free. Fails only if it runs out of
/// memory.
pub fn each_with_memberships(
    alloc: Global,
    memberships: &[Membership],
    principals: Vec<Principal>,
) -> Result<Vec<Principal>, AllocError>
    ensures { IfOk result
        (λ given. given.items ≡ map (with_memberships memberships.now) principals.items) }
{
    if memberships.is_empty() {
        return Ok(principals);
    }
    let listed = GroupsByUser::build(alloc, memberships)?;
    each_with_groups(alloc, &listed, principals)
}

// Each of these principals, in order, with the groups that are listed for it.
fn each_with_groups(
    alloc: Global,
    listed: &GroupsByUser<'_>,
    principals: Vec<Principal>,
) -> Result<Vec<Principal>, AllocError>
    ensures { IfOk result
        (λ given. given.items ≡ map (with_memberships listed.now) principals.items) }
{
    let mut given = Vec::with_capacity(alloc, principals.len())?;
    for principal in principals {
        given.push(with_groups(alloc, listed, principal)?)?;
    }
    Ok(given)
}

// The principal, with the groups that are listed for it.
fn with_groups(
    alloc: Global,
    listed: &GroupsByUser<'_>,
    who: Principal,
) -> Result<Principal, AllocError>
    ensures { IfOk result (λ given. given ≡ with_memberships listed.now who) }
{
    if who.member_of().is_some() {
        return Ok(who);
    }
    let name = Word::from_slice(alloc, who.name())?;
    let more = listed.groups_of(&name);
    if more.is_empty() {
        return Ok(who);
    }
    let mut groups = Words::new(alloc);
    add_copies(who.given(), &mut groups)?;
    add_copies(more, &mut groups)?;
    user_given(alloc, &name, &groups)
}
