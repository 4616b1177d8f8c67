//! Roles, and the bindings that grant them.

ghost use Rattle.std.specs.Prelude.{◌≡◌, ◌++◌, IsTrue, ◌↔◌, IfOk, IsOkAnd, None, OnOk};
ghost use Rattle.std.specs.Prelude.{MatchOption, option_copied, []};
ghost use Rattle.std.specs.List.{filter_map};
ghost use Rattle.std.specs.Option.{option_or};
ghost use Rattle.rbac_terms.specs.Text.{Text};
ghost use Rattle.rbac_terms.specs.Granting.{Names, IsSubjectKey, named, subject_principal};
ghost use Rattle.rbac_terms.specs.Principals.{AsUser, AsMember};

use crate::fault::ModelFault;
use crate::items::Items;
use crate::matching::Rules;
use crate::request::{Principal, account_key, member_key, user_key};
use crate::selecting::{Labels, Selectors};
use crate::text::{Word, Words};
use std::alloc::{AllocError, Global};

/// A role of one namespace (Using RBAC Authorization, "Role and ClusterRole").
pub struct Role {
    /// The role's namespace.
    pub namespace: Word,
    /// The role's name, unique within the namespace.
    pub name: Word,
    /// The rules, in their written order.
    pub rules: Rules,
}

impl Drop for Role {
    fn drop(self) {
        let Self {
            namespace,
            name,
            rules,
        } = self;
    }
}

/// A role of the whole cluster, whose rules may be gathered from others (Using RBAC Authorization,
/// "Role and ClusterRole", "Aggregated ClusterRoles").
pub struct ClusterRole {
    /// The role's name, unique within the cluster.
    pub name: Word,
    /// The labels by which aggregated roles select it.
    pub labels: Labels,
    /// The rules, in their written order. If the role is aggregated, they aren't used.
    pub rules: Rules,
    /// The selectors by which an aggregated role gathers rules from other roles; `None` for a plain
    /// role.
    pub aggregation: Option<Selectors>,
}

impl Drop for ClusterRole {
    fn drop(self) {
        let Self {
            name,
            labels,
            rules,
            aggregation,
        } = self;
    }
}

/// The role that a binding grants, by name (Using RBAC Authorization, "RoleBinding and
/// ClusterRoleBinding").
pub enum RoleRef {
    /// The Role of this name, in the binding's own namespace.
    Role(Word),
    /// The ClusterRole of this name.
    ClusterRole(Word),
}

impl Drop for RoleRef {
    fn drop(self) {
        match self {
            Self::Role(_) => {}
            Self::ClusterRole(_) => {}
        }
    }
}

/// Who a binding grants its role to (Using RBAC Authorization, "Referring to subjects").
pub enum Subject {
    /// The user of this name.
    User(Word),
    /// Everyone in this group.
    Group(Word),
    /// A service account.
    Account {
        /// The account's namespace; `None` means the binding's.
        namespace: Option<Word>,
        /// The account's name within the namespace.
        name: Word,
    },
}

impl Drop for Subject {
    fn drop(self) {
        match self {
            Self::User(_) => {}
            Self::Group(_) => {}
            Self::Account {
                namespace: _,
                name: _,
            } => {}
        }
    }
}

/// The subjects of a binding in their written order: as many as fit in memory.
pub type Subjects = Items<Subject>;

/// A binding of a role to subjects (Using RBAC Authorization, "RoleBinding and
/// ClusterRoleBinding").
pub struct Binding {
    /// A RoleBinding's namespace; a ClusterRoleBinding has none.
    pub namespace: Option<Word>,
    /// The binding's name, unique within the namespace, or within the cluster.
    pub name: Word,
    /// The role that the binding grants.
    pub role: RoleRef,
    /// The subjects to which the binding grants the role.
    pub subjects: Subjects,
}

impl Drop for Binding {
    fn drop(self) {
        let Self {
            namespace,
            name,
            role,
            subjects,
        } = self;
    }
}

/// Whether a binding's subject names this principal: as the user of the subject's name, as a member
/// of its group, or as the user of its service account (Using RBAC Authorization, "Referring to
/// subjects"). `binding_namespace` is `None` for a ClusterRoleBinding. An account without a
/// namespace takes the binding's; in a ClusterRoleBinding it names nobody (own). Doesn't allocate.
pub fn names(subject: &Subject, binding_namespace: Option<&Word>, principal: &Principal) -> bool
    ensures { IsTrue result
        ↔ Names subject.now (option_copied binding_namespace.entry) principal.now }
{
    match subject {
        Subject::User(name) => principal.is_user_named(name),
        Subject::Group(name) => principal.in_group(name),
        Subject::Account { namespace, name } => match namespace_of(namespace, binding_namespace) {
            Some(namespace) => principal.is_account(namespace, name),
            None => false,
        },
    }
}

/// The key of the principal that a binding's subject stands for (own): an account has the key of
/// its user. `binding_namespace` is `None` for a ClusterRoleBinding. An account without a namespace
/// takes the binding's; in a ClusterRoleBinding it stands for nobody, and the call returns `None`
/// and doesn't allocate. Fails only if it runs out of memory.
pub fn subject_key(
    alloc: Global,
    subject: &Subject,
    binding_namespace: Option<&Word>,
) -> Result<Option<Word>, AllocError>
    ensures key { IfOk result (λ o. MatchOption o
        ((key : Text) → ¬ IsSubjectKey subject.now (option_copied binding_namespace.entry) key)
        (λ w. (key : Text) → IsSubjectKey subject.now (option_copied binding_namespace.entry) key
        ↔ (key ≡ w))) }
    ensures nobody { (name : Text) → subject.now ≡ Subject.Account None name
        → option_copied binding_namespace.entry ≡ None → IsOkAnd result (λ o. o ≡ None) }
{
    match subject {
        Subject::User(name) => Ok(Some(user_key(alloc, name)?)),
        Subject::Group(name) => Ok(Some(member_key(alloc, name)?)),
        Subject::Account { namespace, name } => match namespace_of(namespace, binding_namespace) {
            Some(namespace) => Ok(Some(account_key(alloc, namespace, name)?)),
            None => Ok(None),
        },
    }
}

/// The principal that a binding's subject stands for (own): an account stands for its user.
/// `binding_namespace` is `None` for a ClusterRoleBinding. An account without a namespace takes the
/// binding's. `None` for such an account in a ClusterRoleBinding, and for an empty name. Fails only
/// if it runs out of memory.
pub fn subject_principal(
    alloc: Global,
    subject: &Subject,
    binding_namespace: Option<&Word>,
) -> Result<Option<Principal>, AllocError>
    ensures { IfOk result
        (λ p. p ≡ subject_principal (option_copied binding_namespace.entry) subject.now) }
{
    match subject {
        Subject::User(name) => user_of(alloc, name),
        Subject::Group(name) => member_of(alloc, name),
        Subject::Account { namespace, name } => {
            let Some(namespace) = namespace_of(namespace, binding_namespace) else {
                return Ok(None);
            };
            Ok(Some(Principal::account(alloc, namespace, name)?))
        }
    }
}

/// Adds the principals that the binding's subjects stand for, in their written order, with repeats
/// (own). Fails only if it runs out of memory.
pub fn put_principals(
    alloc: Global,
    binding: &Binding,
    list: &mut Vec<Principal>,
) -> Result<(), AllocError>
    ensures { OnOk result (list.new.items ≡ list.old.items
        ++ filter_map (subject_principal binding.now.namespace) binding.now.subjects) }
{
    for subject in binding.subjects.as_slice() {
        if let Some(principal) = subject_principal(alloc, subject, binding.namespace.as_ref())? {
            list.push(principal)?;
        }
    }
    Ok(())
}

// The user of this name, unless the name is empty.
fn user_of(alloc: Global, name: &Word) -> Result<Option<Principal>, AllocError>
    ensures { IfOk result (λ p. p ≡ named (λ n. AsUser n []) name.now) }
{
    match Principal::user(alloc, name, &Words::new(alloc)) {
        Ok(user) => Ok(Some(user)),
        Err(ModelFault::EmptyName) => Ok(None),
        Err(_) => Err(AllocError),
    }
}

// A member of the group of this name, unless the name is empty.
fn member_of(alloc: Global, name: &Word) -> Result<Option<Principal>, AllocError>
    ensures { IfOk result (λ p. p ≡ named AsMember name.now) }
{
    match Principal::group(alloc, name) {
        Ok(member) => Ok(Some(member)),
        Err(ModelFault::EmptyName) => Ok(None),
        Err(_) => Err(AllocError),
    }
}

// The namespace of an account: its own, or else the binding's.
fn namespace_of<'a>(own: &'a Option<Word>, binding_namespace: Option<&'a Word>) -> Option<&'a Word>
    ensures { option_copied result ≡ option_or own.now (option_copied binding_namespace.entry) }
{
    own.as_ref().or(binding_namespace)
}
