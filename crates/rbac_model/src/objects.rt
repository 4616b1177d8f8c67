//! The objects that are held, in order of their names.

ghost use Rattle.std.specs.Prelude.{◌≡◌, ◌↔◌, IsTrue, IfOk, IfErr, OnOk, OnErr, Any, List, []};
ghost use Rattle.std.specs.Prelude.{length};
ghost use Rattle.rbac_terms.specs.Text.{Text};
ghost use Rattle.rbac_model.specs.Lists.{by_name, IsAscendingBy, IsPut, IsAtName, IsGapForName};

use rbac_terms::{Binding, ClusterRole, ModelFault, Role};
use std::alloc::{AllocError, Global};
use std::cmp::Ordering;
use std::marker::Model;

/// An object that a policy is made of (Using RBAC Authorization, API objects).
#[derive(Drop)]
pub enum Object {
    /// A role of one namespace.
    Role(Role),
    /// A role of the whole cluster.
    ClusterRole(ClusterRole),
    /// A ClusterRoleBinding, or a RoleBinding of some namespace.
    Binding(Binding),
}

/// The objects that are held: one for each kind, namespace and name, ordered by these.
pub struct Objects {
    roles: Vec<Role>,
    cluster_roles: Vec<ClusterRole>,
    bindings: Vec<Binding>,
}

impl Drop for Objects {
    fn drop(self) {
        let Self {
            roles,
            cluster_roles,
            bindings,
        } = self;
    }
}

impl Model for Objects {
    ghost use Rattle.rbac_model.specs.Policies.{Held, IsHeld};

    ghost Value = { Held };

    ghost view = { λ o. record {
      roles = o.roles.items;
      cluster_roles = o.cluster_roles.items;
      bindings = o.bindings.items;
    } };

    ghost invariant = { λ o. IsHeld
        (record {
          roles = o.roles.items;
          cluster_roles = o.cluster_roles.items;
          bindings = o.bindings.items;
        }) };
}

impl Objects {
    ghost use Rattle.rbac_model.specs.Policies.{Held, IsHeld, Puts, HasNameOf};

    /// An empty set of objects. Doesn't allocate.
    pub fn new(alloc: Global) -> Self
        ensures { result ≡ record { roles = []; cluster_roles = []; bindings = [] } }
    {
        Objects {
            roles: Vec::new(alloc),
            cluster_roles: Vec::new(alloc),
            bindings: Vec::new(alloc),
        }
    }

    // The objects of these lists, one list for each kind and each in order of names.
    pub(crate) fn of_kinds(
        roles: Vec<Role>,
        cluster_roles: Vec<ClusterRole>,
        bindings: Vec<Binding>,
    ) -> Self
        requires { IsHeld
            (record {
              roles = roles.items;
              cluster_roles = cluster_roles.items;
              bindings = bindings.items;
            }) }
        ensures { result
            ≡ record {
              roles = roles.items;
              cluster_roles = cluster_roles.items;
              bindings = bindings.items;
            } }
    {
        Objects {
            roles,
            cluster_roles,
            bindings,
        }
    }

    /// Adds an object, in place of any object with the same kind, namespace and name, and returns
    /// whether there was one (own: the later object replaces the earlier). A ClusterRoleBinding and
    /// a RoleBinding are of different kinds. Fails only if it runs out of memory, with P5 NoMemory,
    /// and then leaves the objects unchanged.
    pub fn put(&mut self, object: Object) -> Result<bool, ModelFault>
        ensures ok { OnOk result (Puts self.old self.new object) }
        ensures replaced { IfOk result (λ was. IsTrue was ↔ HasNameOf self.old object) }
        ensures held { IsHeld self.new }
        ensures err { OnErr result (self.new ≡ self.old) }
        ensures only_memory { IfErr result (λ e. e ≡ ModelFault.NoMemory) }
    {
        match object {
            Object::Role(role) => Ok(put(&mut self.roles, role)?),
            Object::ClusterRole(role) => Ok(put(&mut self.cluster_roles, role)?),
            Object::Binding(binding) => Ok(put(&mut self.bindings, binding)?),
        }
    }

    /// The roles, in order of namespace and name.
    pub fn roles(&self) -> &[Role]
        ensures roles { result.now ≡ self.now.roles }
        ensures held { IsHeld self.now }
    {
        self.roles.as_slice()
    }

    /// The cluster roles, in order of name.
    pub fn cluster_roles(&self) -> &[ClusterRole]
        ensures cluster_roles { result.now ≡ self.now.cluster_roles }
        ensures held { IsHeld self.now }
    {
        self.cluster_roles.as_slice()
    }

    /// The bindings: ClusterRoleBindings by name, then RoleBindings by namespace and name.
    pub fn bindings(&self) -> &[Binding]
        ensures bindings { result.now ≡ self.now.bindings }
        ensures held { IsHeld self.now }
    {
        self.bindings.as_slice()
    }
}

/// An object that has a name among the objects of its kind. The name of a role or a RoleBinding
/// includes the namespace; cluster roles and ClusterRoleBindings have no namespace (Using RBAC
/// Authorization, API objects).
pub trait Named {
    ghost name: { Self → List Text };

    /// Compares the names of two objects: by namespace, then by name, and ClusterRoleBindings
    /// before RoleBindings. Each list of `Objects` is in this order.
    fn cmp_name(&self, other: &Self) -> Ordering
        ensures { result ≡ by_name name self.now other.now };
}

impl Named for Role {
    ghost use Rattle.rbac_model.specs.Policies.{role_name};

    ghost name = { role_name };

    fn cmp_name(&self, other: &Self) -> Ordering {
        self.namespace
            .cmp(&other.namespace)
            .then(self.name.cmp(&other.name))
    }
}

impl Named for ClusterRole {
    ghost use Rattle.rbac_model.specs.Policies.{cluster_role_name};

    ghost name = { cluster_role_name };

    fn cmp_name(&self, other: &Self) -> Ordering {
        self.name.cmp(&other.name)
    }
}

impl Named for Binding {
    ghost use Rattle.rbac_model.specs.Policies.{binding_name};

    ghost name = { binding_name };

    fn cmp_name(&self, other: &Self) -> Ordering {
        match (&self.namespace, &other.namespace) {
            (None, None) => self.name.cmp(&other.name),
            (None, Some(_)) => Ordering::Less,
            (Some(_), None) => Ordering::Greater,
            (Some(mine), Some(theirs)) => mine.cmp(theirs).then(self.name.cmp(&other.name)),
        }
    }
}

// Whether the item's name is greater than the names of all these items. If items come in order of
// names, it always is.
fn comes_last<T: Named>(items: &[T], item: &T) -> bool
    requires { IsAscendingBy T.name items.now }
    ensures { IsTrue result → IsGapForName T.name items.now item.now (length items.now) }
{
    match items.last() {
        Some(last) => last.cmp_name(item).is_lt(),
        None => true,
    }
}

// The place of the item with the same name, or else the place where this item would go.
pub(crate) fn place<T: Named>(items: &[T], item: &T) -> Result<usize, usize>
    requires { IsAscendingBy T.name items.now }
    ensures found { IfOk result (IsAtName T.name items.now item.now) }
    ensures absent { IfErr result (IsGapForName T.name items.now item.now) }
{
    if comes_last(items, item) {
        return Err(items.len());
    }
    items.binary_search_by(|held| held.cmp_name(item))
}

// Puts an item in its place, where it replaces any item with the same name, and returns whether
// there was one.
pub(crate) fn put<T: Named + Drop>(items: &mut Vec<T>, item: T) -> Result<bool, AllocError>
    requires { IsAscendingBy T.name items.old.items }
    ensures ok { OnOk result (IsPut T.name items.old.items items.new.items item) }
    ensures replaced { IfOk result
        (λ was. IsTrue was ↔ Any (λ y. T.name y ≡ T.name item) items.old.items) }
    ensures ascending { IsAscendingBy T.name items.new.items }
    ensures err { OnErr result (items.new.items ≡ items.old.items) }
{
    match place(items, &item) {
        Ok(at) => {
            items[at] = item;
            Ok(true)
        }
        Err(at) => {
            items.insert(at, item)?;
            Ok(false)
        }
    }
}
