//! The users whom documents list.

ghost use Rattle.std.specs.Prelude.{◌≡◌, ◌++◌, [], All, IfOk, OnOk};
ghost use Rattle.std.specs.List.{filter_map};
ghost use Rattle.rbac_terms.specs.Principals.{given_of};
ghost use Rattle.rbac_groups.specs.Memberships.{user_named, users_listed};

use crate::membership::Membership;
use rbac_terms::{ModelFault, Principal, Word, Words};
use std::alloc::{AllocError, Global};

/// The users whom documents list, in order, with repeats, without given groups (own). Fails only if
/// it runs out of memory.
pub fn users_listed(alloc: Global, memberships: &[Membership]) -> Result<Vec<Principal>, AllocError>
    ensures users { IfOk result (λ users. users.items ≡ users_listed memberships.now) }
    ensures given { IfOk result (λ users. All (λ who. given_of who ≡ []) users.items) }
{
    let mut users = Vec::new(alloc);
    for membership in memberships {
        put_users(alloc, membership.users.as_slice(), &mut users)?;
    }
    Ok(users)
}

// Adds the users of these names, in order; an empty name is passed over.
fn put_users(alloc: Global, names: &[Word], users: &mut Vec<Principal>) -> Result<(), AllocError>
    ensures { OnOk result
        (users.new.items ≡ users.old.items ++ filter_map user_named names.now) }
{
    for name in names {
        if let Some(user) = user_named(alloc, name)? {
            users.push(user)?;
        }
    }
    Ok(())
}

// The user of this name, unless the name is empty.
fn user_named(alloc: Global, name: &Word) -> Result<Option<Principal>, AllocError>
    ensures { IfOk result (λ user. user ≡ user_named name.now) }
{
    match Principal::user(alloc, name, &Words::new(alloc)) {
        Ok(user) => Ok(Some(user)),
        Err(ModelFault::EmptyName) => Ok(None),
        Err(_) => Err(AllocError),
    }
}
