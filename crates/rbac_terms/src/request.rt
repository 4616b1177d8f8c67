//! Principals and targets: who asks, and for what.

ghost use Rattle.std.specs.Prelude.{◌≡◌, ◌≢◌, ◌++◌, ◌⊎◌, [], IsTrue, ◌↔◌, MatchBool, MatchResult};
ghost use Rattle.std.specs.Prelude.{MatchOption, IfOk, IfErr, OnOk, OnErr, Contains};
ghost use Rattle.rbac_terms.specs.Text.{Text};
ghost use Rattle.rbac_terms.specs.Targets.{Resource, Url, IsProper, IsUrl, IsResource, group_of};
ghost use Rattle.rbac_terms.specs.Targets.{text_of, name_of, IsPath, IsResourceText, is_path};
ghost use Rattle.rbac_terms.specs.Principals.{Who, AsUser, AsMember, who_of, who_key, who_name};
ghost use Rattle.rbac_terms.specs.Principals.{given_of, IsUserNamed, IsInGroup, account_user};
ghost use Rattle.rbac_terms.specs.Principals.{account_principal};
ghost use Rattle.rbac_terms.specs.Principals.{IsAccountOf, IsAccountGroup, IsGroupOfAccounts};
ghost use Rattle.rbac_terms.specs.Principals.{IsImpliedGroup, IsPart, IsSignInGroup, IsAccountIn};
ghost use Rattle.rbac_terms.specs.Principals.{SignsInAs};

use crate::fault::ModelFault;
use crate::given_groups::GivenGroups;
use crate::text::{Word, Words, after_prefix, cut_at_first, is_joined};
use std::alloc::{AllocError, Global};
use std::marker::Model;

/// The prefix of a user's key (own).
pub const USER_PREFIX: &[u8] = b"u:";

/// The prefix of the key of a member of a group (own).
pub const MEMBER_PREFIX: &[u8] = b"g:";

// The separator of the parts of a service account's user name.
const COLON: &[u8] = b":";

// The prefix of a service account's user name.
const ACCOUNT: &[u8] = b"system:serviceaccount:";

// The group of all service accounts.
const ACCOUNTS: &[u8] = b"system:serviceaccounts";

// The prefix of the group of a namespace's service accounts.
const ACCOUNTS_OF: &[u8] = b"system:serviceaccounts:";

/// The user of a request without credentials (Authenticating, "Anonymous requests").
pub const ANONYMOUS: &[u8] = b"system:anonymous";

/// The group of the users who have signed in (Using RBAC Authorization, "Discovery roles").
pub const AUTHENTICATED: &[u8] = b"system:authenticated";

/// The group of the users who haven't signed in (Authenticating, "Anonymous requests").
pub const UNAUTHENTICATED: &[u8] = b"system:unauthenticated";

/// What a request is for: a resource by API group, resource text and object name, or a URL by its
/// path. A resource text isn't empty and doesn't begin with a slash. A URL begins with a slash
/// (own, after the paths of API requests). What follows the first slash of a resource text is its
/// subresource.
pub struct Target {
    is_url: bool,
    group: Word,
    text: Word,
    name: Word,
}

impl Drop for Target {
    fn drop(self) {
        let Self {
            is_url,
            group,
            text,
            name,
        } = self;
    }
}

impl Model for Target {
    ghost use Rattle.std.specs.Prelude.{◌≡◌, [], IsTrue};
    ghost use Rattle.rbac_terms.specs.Targets.{What, what_of, IsProper};

    ghost Value = { What };

    ghost view = { λ t. what_of t.is_url t.group t.text t.name };

    ghost invariant = { λ t. IsProper (what_of t.is_url t.group t.text t.name)
        × (IsTrue t.is_url → (t.group ≡ []) × (t.name ≡ [])) };
}

impl Target {
    /// A resource by API group (the core group is the empty text), resource text and object name
    /// (empty if the request names no object). Doesn't allocate. P3 BadTarget exactly if the
    /// resource text is empty or begins with a slash.
    pub fn resource(group: Word, text: Word, name: Word) -> Result<Self, ModelFault>
        ensures { MatchResult result
            (λ t. (t ≡ Resource group text name) × IsProper t)
            (λ e. (e ≡ ModelFault.BadTarget) × ¬ IsProper (Resource group text name)) }
    {
        if !is_resource_text(text.as_bytes()) {
            return Err(ModelFault::BadTarget);
        }
        Ok(Target {
            is_url: false,
            group,
            text,
            name,
        })
    }

    /// A URL by its path. Doesn't allocate. P3 BadTarget exactly if the path doesn't begin with a
    /// slash.
    pub fn url(alloc: Global, path: Word) -> Result<Self, ModelFault>
        ensures { MatchResult result
            (λ t. (t ≡ Url path) × IsProper t)
            (λ e. (e ≡ ModelFault.BadTarget) × ¬ IsProper (Url path)) }
    {
        if !is_path(path.as_bytes()) {
            return Err(ModelFault::BadTarget);
        }
        Ok(Target {
            is_url: true,
            group: Word::new(alloc),
            text: path,
            name: Word::new(alloc),
        })
    }

    /// Whether this is a URL, and not a resource.
    pub fn is_url(&self) -> bool
        ensures { MatchBool result (IsUrl self.now) (IsResource self.now) }
    {
        self.is_url
    }

    /// The API group: the empty text for the core group, and for a URL.
    pub fn group(&self) -> &Word
        ensures group { result.now ≡ group_of self.now }
        ensures proper { IsProper self.now }
    {
        &self.group
    }

    /// The resource text, with its subresource, or the path of a URL; never empty.
    pub fn text(&self) -> &Word
        ensures text { result.now ≡ text_of self.now }
        ensures proper { IsProper self.now }
    {
        &self.text
    }

    /// The object name: the empty text if the request names no object, and for a URL.
    pub fn name(&self) -> &Word
        ensures name { result.now ≡ name_of self.now }
        ensures proper { IsProper self.now }
    {
        &self.name
    }
}

/// Whether a text is the path of a URL: it begins with a slash (own, after the paths of API
/// requests). Doesn't allocate.
pub fn is_path(text: &[u8]) -> bool
    ensures path { IsTrue result ↔ IsPath text.now }
    ensures value { result ≡ is_path text.now }
{
    text.starts_with(b"/".as_slice())
}

/// Whether a text can be the resource text of a target: it isn't empty, and isn't a path (own).
/// Doesn't allocate.
pub fn is_resource_text(text: &[u8]) -> bool
    ensures { IsTrue result ↔ IsResourceText text.now }
{
    !text.is_empty() && !is_path(text)
}

/// Who asks: a user with a name and given groups, or an unnamed member of one group. A service
/// account asks as the user `system:serviceaccount:NAMESPACE:NAME` (Using RBAC Authorization,
/// "Referring to subjects"; members of a group: own). Neither the user's name nor the group's is
/// empty.
#[derive(Clone)]
pub struct Principal {
    is_user: bool,
    key: Word,
    given: GivenGroups,
}

impl Drop for Principal {
    fn drop(self) {
        let Self {
            is_user,
            key,
            given,
        } = self;
    }
}

impl Model for Principal {
    ghost use Rattle.std.specs.Prelude.{◌≡◌, ◌≢◌, []};
    ghost use Rattle.rbac_terms.specs.Principals.{Who, who_of, who_key, who_name};

    ghost Value = { Who };

    ghost view = { λ p. who_of p.is_user p.key p.given };

    ghost invariant = { λ p. (p.key ≡ who_key (who_of p.is_user p.key p.given))
        × (who_name (who_of p.is_user p.key p.given) ≢ []) };
}

impl Principal {
    /// The user of this name, with these groups besides the implied ones. P1 EmptyName exactly for
    /// the empty name; otherwise P5 NoMemory if the call runs out of memory.
    pub fn user(alloc: Global, name: &Word, given: &Words) -> Result<Self, ModelFault>
        ensures ok { IfOk result (λ p. p ≡ AsUser name.now given.now) }
        ensures empty { (result ≡ Err ModelFault.EmptyName) ↔ (name.now ≡ []) }
        ensures errors { IfErr result
            (λ e. (e ≡ ModelFault.EmptyName) ⊎ (e ≡ ModelFault.NoMemory)) }
    {
        Ok(Principal {
            is_user: true,
            key: named_key(alloc, USER_PREFIX, name)?,
            given: GivenGroups::of(given)?,
        })
    }

    /// A member of this group and of no other (own). P1 EmptyName exactly for the empty name;
    /// otherwise P5 NoMemory if the call runs out of memory.
    pub fn group(alloc: Global, name: &Word) -> Result<Self, ModelFault>
        ensures ok { IfOk result (λ p. p ≡ AsMember name.now) }
        ensures empty { (result ≡ Err ModelFault.EmptyName) ↔ (name.now ≡ []) }
        ensures errors { IfErr result
            (λ e. (e ≡ ModelFault.EmptyName) ⊎ (e ≡ ModelFault.NoMemory)) }
    {
        Ok(Principal {
            is_user: false,
            key: named_key(alloc, MEMBER_PREFIX, name)?,
            given: GivenGroups::new(alloc),
        })
    }

    /// The user that this service account asks as, with no groups given (Using RBAC Authorization,
    /// "Referring to subjects"). Fails only if it runs out of memory.
    pub fn account(alloc: Global, namespace: &Word, name: &Word) -> Result<Self, AllocError>
        ensures { IfOk result (λ p. p ≡ account_principal namespace.now name.now) }
    {
        Ok(Principal {
            is_user: true,
            key: account_key(alloc, namespace, name)?,
            given: GivenGroups::new(alloc),
        })
    }

    /// The user or the member of a group that has this key, with no groups given (own); `None` for
    /// a text that is nobody's key. Fails only if it runs out of memory.
    pub fn from_key(alloc: Global, key: &Word) -> Result<Option<Self>, AllocError>
        ensures { IfOk result (λ found. MatchOption found
            ((who : Who) → who_name who ≢ [] → who_key who ≢ key.now)
            (λ who. (who_key who ≡ key.now) × (who_name who ≢ []) × (given_of who ≡ []))) }
    {
        let bytes = key.as_bytes();
        let Some(is_user) = is_of_user(bytes) else {
            return Ok(None);
        };
        Ok(Some(Principal {
            is_user,
            key: Word::from_slice(alloc, bytes)?,
            given: GivenGroups::new(alloc),
        }))
    }

    /// Adds to a user's given groups those of `more`, a principal with the same key; a member of a
    /// group has no given groups (own). Fails only if it runs out of memory, and then leaves the
    /// principal unchanged.
    pub fn give(&mut self, more: Self) -> Result<(), AllocError>
        requires { who_key more ≡ who_key self.old }
        ensures key { who_key self.new ≡ who_key self.old }
        ensures given { OnOk result
            ((g : Text) → Contains (given_of self.new) g
            ↔ (Contains (given_of self.old) g ⊎ Contains (given_of more) g)) }
        ensures err { OnErr result (self.new ≡ self.old) }
    {
        let Principal {
            is_user: _,
            key: _,
            given,
        } = more;
        self.given.append(given)
    }

    /// The principal's key: `u:` and the user's name, or `g:` and the group's (own). Doesn't
    /// allocate.
    pub fn key(&self) -> &Word
        ensures { result.now ≡ who_key self.now }
    {
        &self.key
    }

    /// The user's name, or the group's; never empty.
    pub fn name(&self) -> &[u8]
        ensures name { result.now ≡ who_name self.now }
        ensures not_empty { result.now ≢ [] }
    {
        let key = self.key.as_bytes();
        &key[2..]
    }

    /// The group whose member this is; `None` for a user (own). Doesn't allocate.
    pub fn member_of(&self) -> Option<&[u8]>
        ensures { MatchOption result ((group : Text) → ¬ (self.now ≡ AsMember group))
            (λ group. self.now ≡ AsMember group.now) }
    {
        if self.is_user {
            None
        } else {
            Some(self.name())
        }
    }

    // Whether the principal is the user of this name, whatever its groups. Doesn't allocate.
    pub(crate) fn is_user_named(&self, name: &Word) -> bool
        ensures { IsTrue result ↔ IsUserNamed self.now name.now }
    {
        self.is_user && self.name() == name.as_bytes()
    }

    // Whether the principal is the user of this service account,
    // `system:serviceaccount:NAMESPACE:NAME` (Using RBAC Authorization, "Referring to subjects").
    // Doesn't allocate.
    pub(crate) fn is_account(&self, namespace: &Word, name: &Word) -> bool
        ensures { IsTrue result ↔ IsUserNamed self.now (account_user namespace.now name.now) }
    {
        self.is_user && is_account_user(self.name(), namespace.as_bytes(), name.as_bytes())
    }

    /// The groups given to a user besides the implied ones, in order, with repeats; none for a
    /// member of a group (own). Doesn't allocate.
    pub fn given(&self) -> &[Word]
        ensures { result.now ≡ given_of self.now }
    {
        if self.is_user {
            self.given.as_slice()
        } else {
            &[]
        }
    }

    /// The namespace of the service account whose user the principal is; `None` for any other
    /// principal (Using RBAC Authorization, "Referring to subjects"). Doesn't allocate.
    pub fn account_namespace(&self) -> Option<&[u8]>
        ensures { MatchOption result
            ((namespace : Text) → ¬ IsAccountIn self.now namespace)
            (λ own. (namespace : Text) → IsAccountIn self.now namespace ↔ (namespace ≡ own.now)) }
    {
        if self.is_user {
            account_namespace(self.name())
        } else {
            None
        }
    }

    /// The group that shows whether a user has signed in: `system:authenticated` or
    /// `system:unauthenticated` (Using RBAC Authorization). `None` for a user other than
    /// `system:anonymous` who is given `system:unauthenticated`, and for a member of a group (own).
    /// Doesn't allocate.
    pub fn sign_in_group(&self) -> Option<&'static [u8]>
        ensures { MatchOption result
            ((group : Text) → ¬ SignsInAs self.now group)
            (λ own. (group : Text) → SignsInAs self.now group ↔ (group ≡ own.now)) }
    {
        if self.is_user {
            sign_in_group(self.name(), &self.given)
        } else {
            None
        }
    }

    /// Whether the principal is in this group. A user is in the given groups and in the implied
    /// ones: the groups of service accounts, `system:authenticated` and `system:unauthenticated`
    /// (Using RBAC Authorization). A member of a group is in that group alone (own). Doesn't
    /// allocate.
    pub fn in_group(&self, group: &Word) -> bool
        ensures { IsTrue result ↔ IsInGroup self.now group.now }
    {
        if self.is_user {
            is_user_group(self.name(), &self.given, group.as_bytes())
        } else {
            self.name() == group.as_bytes()
        }
    }
}

// Whether a key is a user's and not that of a member of a group; `None` for a text that is nobody's
// key.
fn is_of_user(key: &[u8]) -> Option<bool>
    ensures { MatchOption result ((who : Who) → who_name who ≢ [] → who_key who ≢ key.now)
        (λ is_user. (key.now ≡ who_key (who_of is_user key.now []))
        × (who_name (who_of is_user key.now []) ≢ [])) }
{
    if is_named_behind(key, USER_PREFIX) {
        Some(true)
    } else if is_named_behind(key, MEMBER_PREFIX) {
        Some(false)
    } else {
        None
    }
}

// Whether the key is this prefix and a name.
fn is_named_behind(key: &[u8], prefix: &[u8]) -> bool
    ensures { IsTrue result
        ↔ ((name : Text) × (name ≢ []) × (key.now ≡ prefix.now ++ name)) }
{
    match after_prefix(key, prefix) {
        Some(name) => !name.is_empty(),
        None => false,
    }
}

// The key of a principal of this name; refuses an empty name.
fn named_key(alloc: Global, prefix: &[u8], name: &Word) -> Result<Word, ModelFault>
    ensures ok { IfOk result (λ key. key ≡ prefix.now ++ name.now) }
    ensures empty { (result ≡ Err ModelFault.EmptyName) ↔ (name.now ≡ []) }
    ensures errors { IfErr result (λ e. (e ≡ ModelFault.EmptyName) ⊎ (e ≡ ModelFault.NoMemory)) }
{
    if name.is_empty() {
        return Err(ModelFault::EmptyName);
    }
    Ok(with_prefix(alloc, prefix, name)?)
}

fn with_prefix(alloc: Global, prefix: &[u8], name: &Word) -> Result<Word, AllocError>
    ensures { IfOk result (λ word. word ≡ prefix.now ++ name.now) }
{
    let name = name.as_bytes();
    let mut word = Word::with_capacity(alloc, prefix.len() + name.len())?;
    word.push_slice(prefix)?;
    word.push_slice(name)?;
    Ok(word)
}

// The key of the user of this name.
pub(crate) fn user_key(alloc: Global, name: &Word) -> Result<Word, AllocError>
    ensures { IfOk result (λ key. key ≡ who_key (AsUser name.now [])) }
{
    with_prefix(alloc, USER_PREFIX, name)
}

// The key of a member of the group of this name.
pub(crate) fn member_key(alloc: Global, name: &Word) -> Result<Word, AllocError>
    ensures { IfOk result (λ key. key ≡ who_key (AsMember name.now)) }
{
    with_prefix(alloc, MEMBER_PREFIX, name)
}

/// The user name of a service account, `system:serviceaccount:NAMESPACE:NAME` (Using RBAC
/// Authorization, "Referring to subjects"). Fails only if it runs out of memory.
pub fn account_user(alloc: Global, namespace: &Word, name: &Word) -> Result<Word, AllocError>
    ensures { IfOk result (λ user. user ≡ account_user namespace.now name.now) }
{
    account_after(alloc, &[], namespace, name)
}

// The key of the user that a service account asks as.
pub(crate) fn account_key(alloc: Global, namespace: &Word, name: &Word) -> Result<Word, AllocError>
    ensures { IfOk result
        (λ key. key ≡ who_key (AsUser (account_user namespace.now name.now) [])) }
{
    account_after(alloc, USER_PREFIX, namespace, name)
}

// The user name of a service account after this prefix, in a text that has room for all of it.
fn account_after(
    alloc: Global,
    prefix: &[u8],
    namespace: &Word,
    name: &Word,
) -> Result<Word, AllocError>
    ensures { IfOk result (λ text. text ≡ prefix.now ++ account_user namespace.now name.now) }
{
    let namespace = namespace.as_bytes();
    let name = name.as_bytes();
    let fixed = prefix.len() + ACCOUNT.len() + COLON.len();
    let given = namespace.len().saturating_add(name.len());
    let mut text = Word::with_capacity(alloc, fixed.saturating_add(given))?;
    text.push_slice(prefix)?;
    text.push_slice(ACCOUNT)?;
    text.push_slice(namespace)?;
    text.push_slice(COLON)?;
    text.push_slice(name)?;
    Ok(text)
}

// The namespace of the service account with this user name; `None` for any other user name.
fn account_namespace(user: &[u8]) -> Option<&[u8]>
    ensures { MatchOption result
        ((namespace : Text) → ¬ IsAccountOf user.now namespace)
        (λ own. (namespace : Text) → IsAccountOf user.now namespace ↔ (namespace ≡ own.now)) }
{
    let parts = after_prefix(user, ACCOUNT)?;
    let (namespace, name) = cut_at_first(parts, b':')?;
    if is_part(namespace) && is_part(name) {
        Some(namespace)
    } else {
        None
    }
}

fn is_account_user(user: &[u8], namespace: &[u8], name: &[u8]) -> bool
    ensures { IsTrue result ↔ (user.now ≡ account_user namespace.now name.now) }
{
    let Some(parts) = after_prefix(user, ACCOUNT) else {
        return false;
    };
    let Some(rest) = after_prefix(parts, namespace) else {
        return false;
    };
    is_joined(rest, COLON, name)
}

fn is_part(text: &[u8]) -> bool
    ensures { IsTrue result ↔ IsPart text.now }
{
    !text.is_empty() && !text.contains(&b':')
}

fn is_account_group(user: &[u8], group: &[u8]) -> bool
    ensures { IsTrue result ↔ IsAccountGroup user.now group.now }
{
    match account_namespace(user) {
        Some(namespace) => is_group_of_accounts(namespace, group),
        None => false,
    }
}

fn is_group_of_accounts(namespace: &[u8], group: &[u8]) -> bool
    ensures { IsTrue result ↔ IsGroupOfAccounts namespace.now group.now }
{
    group == ACCOUNTS || is_joined(group, ACCOUNTS_OF, namespace)
}

fn is_user_group(user: &[u8], given: &GivenGroups, group: &[u8]) -> bool
    ensures { IsTrue result ↔ IsInGroup (AsUser user.now given.now) group.now }
{
    given.contains(group) || is_implied_group(user, given, group)
}

fn is_implied_group(user: &[u8], given: &GivenGroups, group: &[u8]) -> bool
    ensures { IsTrue result ↔ IsImpliedGroup user.now given.now group.now }
{
    is_account_group(user, group) || is_sign_in_group(user, given, group)
}

fn is_sign_in_group(user: &[u8], given: &GivenGroups, group: &[u8]) -> bool
    ensures { IsTrue result ↔ IsSignInGroup user.now given.now group.now }
{
    if user == ANONYMOUS {
        group == UNAUTHENTICATED
    } else {
        group == AUTHENTICATED && !given.contains(UNAUTHENTICATED)
    }
}

// The group that shows whether this user has signed in, if there is one.
fn sign_in_group(user: &[u8], given: &GivenGroups) -> Option<&'static [u8]>
    ensures { MatchOption result
        ((group : Text) → ¬ IsSignInGroup user.now given.now group)
        (λ own. (group : Text) → IsSignInGroup user.now given.now group ↔ (group ≡ own.now)) }
{
    if user == ANONYMOUS {
        Some(UNAUTHENTICATED)
    } else if given.contains(UNAUTHENTICATED) {
        None
    } else {
        Some(AUTHENTICATED)
    }
}
