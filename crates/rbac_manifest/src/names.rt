//! The names of the objects that documents give, borrowed from them.

ghost use Rattle.std.specs.Prelude.{◌≡◌, ◌++◌, OnOk, map};
ghost use Rattle.std.specs.List.Sorted.{IsSorted, IsPermutation};
ghost use Rattle.rbac_model.specs.Policies.{binding_name};
ghost use Rattle.rbac_terms.specs.Text.{text_cmp};
ghost use Rattle.rbac_manifest.specs.Names.{kind_word, object_name, namespace_name, account_name};
ghost use Rattle.rbac_manifest.specs.Names.{name_cmp, has_name};

use rbac_lists::Account;
use rbac_model::Object;
use rbac_terms::{
    Binding, CLUSTER_ROLE, CLUSTER_ROLE_BINDING, NAMESPACE, ROLE, ROLE_BINDING, SERVICE_ACCOUNT,
    Word,
};
use std::alloc::AllocError;
use std::cmp::Ordering;
use std::marker::Model;

// The kind of an object that has a name, with the variants in the order of their words.
#[derive(Clone, Copy, PartialEq, Eq, PartialOrd, Ord, Drop)]
pub(crate) enum ObjectKind {
    ClusterRole,
    ClusterRoleBinding,
    Namespace,
    Role,
    RoleBinding,
    ServiceAccount,
}

impl ObjectKind {
    pub(crate) fn as_bytes(self) -> &'static [u8]
        ensures { result.now ≡ kind_word self }
    {
        match self {
            ObjectKind::ClusterRole => CLUSTER_ROLE.as_bytes(),
            ObjectKind::ClusterRoleBinding => CLUSTER_ROLE_BINDING.as_bytes(),
            ObjectKind::Namespace => NAMESPACE.as_bytes(),
            ObjectKind::Role => ROLE.as_bytes(),
            ObjectKind::RoleBinding => ROLE_BINDING.as_bytes(),
            ObjectKind::ServiceAccount => SERVICE_ACCOUNT.as_bytes(),
        }
    }

    fn cmp_word(self, other: Self) -> Ordering
        ensures { result ≡ text_cmp (kind_word self) (kind_word other) }
    {
        self.cmp(&other)
    }
}

// The kind, namespace and name of an object, borrowed from it.
pub(crate) struct ObjectName<'a> {
    pub kind: ObjectKind,
    pub namespace: &'a [u8],
    pub name: &'a [u8],
}

impl Drop for ObjectName<'_> {
    fn drop(self) {
        let Self {
            kind,
            namespace,
            name,
        } = self;
    }
}

impl<'a> Model for ObjectName<'a> {
    ghost use Rattle.std.specs.Prelude.{ℕ, List, ◌∷◌, []};
    ghost use Rattle.rbac_manifest.specs.Names.{kind_word};

    ghost Value = { List (List ℕ) };

    ghost view = { λ n. kind_word n.kind ∷ n.namespace.now ∷ n.name.now ∷ [] };
}

const NOWHERE: &[u8] = b"";

impl<'a> ObjectName<'a> {
    pub(crate) fn of_object(object: &'a Object) -> Self
        ensures { result ≡ object_name object.now }
    {
        match object {
            Object::Role(role) => ObjectName {
                kind: ObjectKind::Role,
                namespace: role.namespace.as_bytes(),
                name: role.name.as_bytes(),
            },
            Object::ClusterRole(role) => ObjectName {
                kind: ObjectKind::ClusterRole,
                namespace: NOWHERE,
                name: role.name.as_bytes(),
            },
            Object::Binding(binding) => ObjectName::of_binding(binding),
        }
    }

    fn of_binding(binding: &'a Binding) -> Self
        ensures { result ≡ binding_name binding.now }
    {
        let name = binding.name.as_bytes();
        match &binding.namespace {
            Some(namespace) => ObjectName {
                kind: ObjectKind::RoleBinding,
                namespace: namespace.as_bytes(),
                name,
            },
            None => ObjectName {
                kind: ObjectKind::ClusterRoleBinding,
                namespace: NOWHERE,
                name,
            },
        }
    }

    pub(crate) fn of_namespace(namespace: &'a Word) -> Self
        ensures { result ≡ namespace_name namespace.now }
    {
        ObjectName {
            kind: ObjectKind::Namespace,
            namespace: NOWHERE,
            name: namespace.as_bytes(),
        }
    }

    pub(crate) fn of_account(account: &'a Account) -> Self
        ensures { result ≡ account_name account.now }
    {
        ObjectName {
            kind: ObjectKind::ServiceAccount,
            namespace: account.namespace.as_bytes(),
            name: account.name.as_bytes(),
        }
    }

    pub(crate) fn cmp_name(&self, other: &Self) -> Ordering
        ensures { result ≡ name_cmp self.now other.now }
    {
        match self.kind.cmp_word(other.kind) {
            Ordering::Equal => (self.namespace, self.name).cmp(&(other.namespace, other.name)),
            unlike => unlike,
        }
    }
}

// Adds the names of these objects.
pub(crate) fn push_objects<'a>(
    objects: &'a [Object],
    names: &mut Vec<ObjectName<'a>>,
) -> Result<(), AllocError>
    ensures { OnOk result (names.new.items ≡ names.old.items ++ map object_name objects.now) }
{
    for object in objects {
        names.push(ObjectName::of_object(object))?;
    }
    Ok(())
}

// Puts names in order, so that equal ones are adjacent and a binary search can find one.
pub(crate) fn sort_names(names: &mut Vec<ObjectName>) -> Result<(), AllocError>
    ensures sorted { OnOk result (IsSorted name_cmp names.new.items) }
    ensures same { OnOk result (IsPermutation names.old.items names.new.items) }
{
    names.sort_by(|a, b| a.cmp_name(b))?;
    Ok(())
}

// Whether this name is among these, which are in order. Doesn't allocate.
pub(crate) fn is_among(sorted: &[ObjectName], name: &ObjectName) -> bool
    requires { IsSorted name_cmp sorted.now }
    ensures { result ≡ has_name sorted.now name.now }
{
    let found = sorted.binary_search_by(|held| held.cmp_name(name));
    found.is_ok()
}
