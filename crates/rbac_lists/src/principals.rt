//! The users of service accounts.

ghost use Rattle.std.specs.Prelude.{◌≡◌, ◌++◌, [], All, IfOk, OnOk, map};
ghost use Rattle.rbac_terms.specs.Principals.{account_principal, given_of};

use crate::given_lists::Account;
use rbac_terms::Principal;
use rbac_universe::Principals;
use std::alloc::{AllocError, Global};

// Adds the users of these service accounts.
pub(crate) fn put_accounts(
    alloc: Global,
    accounts: &[Account],
    list: &mut Vec<Principal>,
) -> Result<(), AllocError>
    ensures { OnOk result (list.new.items ≡ list.old.items
        ++ map (λ a. account_principal a.namespace a.name) accounts.now) }
{
    for account in accounts {
        list.push(Principal::account(alloc, &account.namespace, &account.name)?)?;
    }
    Ok(())
}

/// The users of these service accounts, without further groups (Using RBAC Authorization,
/// "Referring to subjects"). Fails only if it runs out of memory.
pub fn users_of(alloc: Global, accounts: &[Account]) -> Result<Principals, AllocError>
    ensures list { IfOk result
        (λ users. users ≡ map (λ a. account_principal a.namespace a.name) accounts.now) }
    ensures given { IfOk result (All (λ who. given_of who ≡ [])) }
{
    let mut users = Vec::new(alloc);
    put_accounts(alloc, accounts, &mut users)?;
    Ok(Principals::from_vec(users))
}
