//! The requests by which a user acts as another.

ghost use Rattle.std.specs.Prelude.{◌≡◌, ◌++◌, IfOk, OnOk, option_map};
ghost use Rattle.rbac_terms.specs.Targets.{IsResourceText};
ghost use Rattle.rbac_log.specs.Acting.{is_part, parts_of, cut_at_colon, account_parts};
ghost use Rattle.rbac_log.specs.Acting.{impersonation, acting_as, impersonations};

use crate::logged::LoggedRequest;
use rbac_terms::{Principal, Target, Word, cut_at_first};
use std::alloc::{AllocError, Global};

const IMPERSONATE: &[u8] = b"impersonate";

const USERS: &[u8] = b"users";

const ACCOUNTS: &[u8] = b"serviceaccounts";

const GROUPS: &[u8] = b"groups";

const EVERYWHERE: &[u8] = b"";

// The prefix of a service account's user name.
const ACCOUNT: &[u8] = b"system:serviceaccount:";

// The request to impersonate one of these resources, by its name.
fn impersonation(
    alloc: Global,
    user: &Principal,
    namespace: &[u8],
    resource: &[u8],
    name: &[u8],
) -> Result<LoggedRequest, AllocError>
    requires { IsResourceText resource.now }
    ensures { IfOk result (λ r. r ≡ impersonation user.now namespace.now resource.now name.now) }
{
    let resource = Word::from_slice(alloc, resource)?;
    let name = Word::from_slice(alloc, name)?;
    let Ok(target) = Target::resource(Word::new(alloc), resource, name) else {
        unreachable!()
    };
    Ok(LoggedRequest {
        who: user.clone()?,
        namespace: Word::from_slice(alloc, namespace)?,
        verb: Word::from_slice(alloc, IMPERSONATE)?,
        target,
    })
}

// Whether a text can be a part of a service account's user name.
fn is_part(text: &[u8]) -> bool
    ensures { result ≡ is_part text.now }
{
    !text.is_empty() && !text.contains(&b':')
}

// Two parts, if both can be parts of a service account's user name.
fn parts_of<'a>(namespace: &'a [u8], name: &'a [u8]) -> Option<(&'a [u8], &'a [u8])>
    ensures { option_map (λ p. (p.0.now, p.1.now)) result ≡ parts_of namespace.now name.now }
{
    if is_part(namespace) && is_part(name) {
        Some((namespace, name))
    } else {
        None
    }
}

// The parts of a service account's user name before and after the first colon.
fn cut_at_colon(text: &[u8]) -> Option<(&[u8], &[u8])>
    ensures { option_map (λ p. (p.0.now, p.1.now)) result ≡ cut_at_colon text.now }
{
    let (namespace, name) = cut_at_first(text, b':')?;
    parts_of(namespace, name)
}

/// The namespace and the name in the user name of a service account,
/// `system:serviceaccount:NAMESPACE:NAME` (Using RBAC Authorization, "Referring to subjects"):
/// neither is empty or has a colon. `None` for any other user name. Doesn't allocate.
#[tactic(auto, unfolding(crate::specs::Acting::account_parts))]
pub fn account_parts(user: &[u8]) -> Option<(&[u8], &[u8])>
    ensures { option_map (λ p. (p.0.now, p.1.now)) result ≡ account_parts user.now }
{
    if user.starts_with(ACCOUNT) {
        cut_at_colon(&user[ACCOUNT.len()..])
    } else {
        None
    }
}

// The request to act as the user of this name.
#[tactic(auto, unfolding(crate::specs::Acting::acting_as))]
fn acting_as(alloc: Global, user: &Principal, name: &[u8]) -> Result<LoggedRequest, AllocError>
    ensures { IfOk result (λ r. r ≡ acting_as user.now name.now) }
{
    match account_parts(name) {
        Some((namespace, account)) => impersonation(alloc, user, namespace, ACCOUNTS, account),
        None => impersonation(alloc, user, EVERYWHERE, USERS, name),
    }
}

// Appends the requests by which a user acts as another.
pub(crate) fn add_impersonations(
    alloc: Global,
    user: &Principal,
    other: &Principal,
    requests: &mut Vec<LoggedRequest>,
) -> Result<(), AllocError>
    ensures { OnOk result
        (requests.new.items ≡ requests.old.items ++ impersonations user.now other.now) }
{
    requests.push(acting_as(alloc, user, other.name())?)?;
    for group in other.given() {
        let group = group.as_bytes();
        requests.push(impersonation(alloc, user, EVERYWHERE, GROUPS, group)?)?;
    }
    Ok(())
}
