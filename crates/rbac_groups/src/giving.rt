//! The groups that documents give a principal.

ghost use Rattle.std.specs.Prelude.{◌≡◌, ◌++◌, IfOk, OnOk};
ghost use Rattle.std.specs.Option.{option_to_list};
ghost use Rattle.rbac_terms.specs.Principals.{AsUser};
ghost use Rattle.rbac_groups.specs.Memberships.{group_listing, groups_listing, with_memberships};

use crate::membership::Membership;
use rbac_terms::{Principal, Word, Words};
use std::alloc::{AllocError, Global};

// Adds copies of these texts at the end, in order.
pub(crate) fn add_copies(words: &[Word], list: &mut Words) -> Result<(), AllocError>
    ensures { OnOk result (list.new ≡ list.old ++ words.now) }
{
    for word in words {
        list.push(word.clone()?)?;
    }
    Ok(())
}

// Adds the document's group, if the document lists the user.
#[tactic(auto, using(crate::proofs::Listing::group_taken))]
fn add_listed(membership: &Membership, user: &[u8], groups: &mut Words) -> Result<(), AllocError>
    ensures { OnOk result
        (groups.new ≡ groups.old ++ option_to_list (group_listing user.now membership.now)) }
{
    if membership.users.contains_bytes(user) {
        groups.push(membership.group.clone()?)?;
    }
    Ok(())
}

// Adds the groups whose documents list the user, in order.
fn add_groups(memberships: &[Membership], user: &[u8], groups: &mut Words) -> Result<(), AllocError>
    ensures { OnOk result
        (groups.new ≡ groups.old ++ groups_listing memberships.now user.now) }
{
    for membership in memberships {
        add_listed(membership, user, groups)?;
    }
    Ok(())
}

/// The principal, with the groups whose documents list the user after those that the user was given
/// (own). A member of a group gets none. Goes through the memberships once. Fails only if it runs
/// out of memory.
pub fn with_memberships(
    alloc: Global,
    memberships: &[Membership],
    who: &Principal,
) -> Result<Principal, AllocError>
    ensures { IfOk result (λ given. given ≡ with_memberships memberships.now who.now) }
{
    if who.member_of().is_some() {
        return who.clone();
    }
    let mut groups = Words::new(alloc);
    add_copies(who.given(), &mut groups)?;
    add_groups(memberships, who.name(), &mut groups)?;
    let name = Word::from_slice(alloc, who.name())?;
    user_given(alloc, &name, &groups)
}

// The user of this name, who is given these groups.
pub(crate) fn user_given(
    alloc: Global,
    name: &Word,
    groups: &Words,
) -> Result<Principal, AllocError>
    ensures { IfOk result (λ user. user ≡ AsUser name.now groups.now) }
{
    match Principal::user(alloc, name, groups) {
        Ok(user) => Ok(user),
        Err(_) => Err(AllocError),
    }
}
