//! The keys of a principal, under which the bindings that name the principal are listed.

ghost use Rattle.std.specs.Prelude.{◌≡◌, ◌↔◌, ◌++◌, Contains};
ghost use Rattle.rbac_terms.specs.Text.{Text, text_cmp};
ghost use Rattle.rbac_model.specs.Holders.{IsKeyFor};

use arrayvec::{ArrayVec, IntoIter};
use rbac_terms::{MEMBER_PREFIX, Principal, Word};
use std::cmp::Ordering;
use std::marker::Model;

// The key of the members of the group of all service accounts.
const ACCOUNTS: &[u8] = b"g:system:serviceaccounts";

// The prefix of the key of the members of the group of a namespace's service accounts.
const ACCOUNTS_OF: &[u8] = b"g:system:serviceaccounts:";

// The most keys that a principal has besides those of the given groups: its own key, the keys of an
// account's two groups, and the key of the group that shows whether a user has signed in.
const MOST_IMPLIED: usize = 4;

// A key of a principal, in two parts, so that nothing is allocated. Contracts see the whole key.
#[derive(Default, Drop)]
pub(crate) struct PrincipalKey<'a> {
    prefix: &'a [u8],
    rest: &'a [u8],
}

impl<'a> Model for PrincipalKey<'a> {
    ghost use Rattle.std.specs.Prelude.{◌++◌};
    ghost use Rattle.rbac_terms.specs.Text.{Text};

    ghost Value = { Text };

    ghost view = { λ key. key.prefix.now ++ key.rest.now };
}

impl<'a> PrincipalKey<'a> {
    fn new(prefix: &'a [u8], rest: &'a [u8]) -> Self
        ensures { result ≡ prefix.now ++ rest.now }
    {
        PrincipalKey { prefix, rest }
    }

    // How a key that a binding is listed under compares to this one.
    pub(crate) fn cmp_listed(&self, listed: &[u8]) -> Ordering
        ensures { result ≡ text_cmp listed.now self.now }
    {
        if self.rest.is_empty() {
            return listed.cmp(self.prefix);
        }
        let (head, tail) = listed.split_at(listed.len().min(self.prefix.len()));
        match head.cmp(self.prefix) {
            Ordering::Equal => tail.cmp(self.rest),
            by_prefix => by_prefix,
        }
    }
}

// The keys of a principal that weren't taken yet. Contracts see them as a list.
#[derive(Drop)]
pub(crate) struct PrincipalKeys<'a> {
    // The principal's own key, and those of its implied groups.
    implied: IntoIter<PrincipalKey<'a>, MOST_IMPLIED>,
    given: &'a [Word],
}

impl<'a> Model for PrincipalKeys<'a> {
    ghost use Rattle.std.specs.Prelude.{List, ◌++◌, map};
    ghost use Rattle.rbac_terms.specs.Text.{Text};
    ghost use Rattle.rbac_terms.specs.Principals.{AsMember, who_key};

    ghost Value = { List Text };

    ghost view = { λ keys. keys.implied ++ map (λ group. who_key (AsMember group)) keys.given.now };
}

// The keys of the principal: its own key, and the keys of an account's groups, of the group that
// shows whether a user has signed in, and of the given groups. Doesn't allocate.
pub(crate) fn keys_of(principal: &Principal) -> PrincipalKeys<'_>
    ensures { (key : Text) → Contains result key ↔ IsKeyFor principal.now key }
{
    let mut implied = ArrayVec::new();
    implied.push(PrincipalKey::new(principal.key().as_bytes(), &[]));
    if let Some(namespace) = principal.account_namespace() {
        implied.push(PrincipalKey::new(ACCOUNTS, &[]));
        implied.push(PrincipalKey::new(ACCOUNTS_OF, namespace));
    }
    if let Some(group) = principal.sign_in_group() {
        implied.push(PrincipalKey::new(MEMBER_PREFIX, group));
    }
    PrincipalKeys {
        implied: implied.into_iter(),
        given: principal.given(),
    }
}

impl<'a> Iterator for PrincipalKeys<'a> {
    type Item = PrincipalKey<'a>;

    ghost use Rattle.std.specs.Iterator.{YieldsFirst, item_count};

    ghost next_gives = { YieldsFirst (λ keys. keys) };

    ghost remaining = { item_count (λ keys. keys) };

    fn next(&mut self) -> Option<PrincipalKey<'a>> {
        if let Some(key) = self.implied.next() {
            return Some(key);
        }
        let (group, others) = self.given.split_first()?;
        self.given = others;
        Some(PrincipalKey::new(MEMBER_PREFIX, group.as_bytes()))
    }
}
