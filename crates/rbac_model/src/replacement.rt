//! Which of the given objects are kept: a later object replaces an earlier one with the same kind,
//! namespace and name.

ghost use Rattle.std.specs.Prelude.{◌≡◌, ◌++◌, ◌∷◌, [], IfOk, IfErr, OnOk};
ghost use Rattle.std.specs.List.{filter_map};
ghost use Rattle.rbac_model.specs.Kept.{AreKept, AreLastNamed, as_role, as_cluster_role};
ghost use Rattle.rbac_model.specs.Kept.{as_binding};

use crate::objects::{Named, Object, Objects, put};
use rbac_terms::{Binding, ClusterRole, ModelFault, Role};
use std::alloc::{AllocError, Global};

// The given objects, by kind.
#[derive(Drop)]
struct Kinds {
    roles: Vec<Role>,
    cluster_roles: Vec<ClusterRole>,
    bindings: Vec<Binding>,
}

impl Kinds {
    // Adds an object to those of its kind.
    fn push(&mut self, object: Object) -> Result<(), AllocError>
        ensures roles { OnOk result
            (self.new.roles.items ≡ self.old.roles.items ++ filter_map as_role (object ∷ [])) }
        ensures cluster_roles { OnOk result
            (self.new.cluster_roles.items
            ≡ self.old.cluster_roles.items ++ filter_map as_cluster_role (object ∷ [])) }
        ensures bindings { OnOk result
            (self.new.bindings.items
            ≡ self.old.bindings.items ++ filter_map as_binding (object ∷ [])) }
    {
        match object {
            Object::Role(role) => self.roles.push(role)?,
            Object::ClusterRole(role) => self.cluster_roles.push(role)?,
            Object::Binding(binding) => self.bindings.push(binding)?,
        }
        Ok(())
    }
}

impl Objects {
    /// The objects that are kept of these given objects: the last one of each kind, namespace and
    /// name (own). The objects are sorted first, so that no order of them is slow. Fails only if it
    /// runs out of memory, with P5 NoMemory.
    pub fn from_given(alloc: Global, given: Vec<Object>) -> Result<Self, ModelFault>
        ensures kept { IfOk result (λ held. AreKept given.items held) }
        ensures only_memory { IfErr result (λ e. e ≡ ModelFault.NoMemory) }
    {
        let Kinds {
            roles,
            cluster_roles,
            bindings,
        } = by_kind(alloc, given)?;
        let roles = last_named(alloc, roles)?;
        let cluster_roles = last_named(alloc, cluster_roles)?;
        let bindings = last_named(alloc, bindings)?;
        Ok(Objects::of_kinds(roles, cluster_roles, bindings))
    }
}

// Puts each object with those of its kind, in the order given.
fn by_kind(alloc: Global, given: Vec<Object>) -> Result<Kinds, AllocError>
    ensures roles { IfOk result (λ kinds. kinds.roles.items ≡ filter_map as_role given.items) }
    ensures cluster_roles { IfOk result
        (λ kinds. kinds.cluster_roles.items ≡ filter_map as_cluster_role given.items) }
    ensures bindings { IfOk result
        (λ kinds. kinds.bindings.items ≡ filter_map as_binding given.items) }
{
    let mut kinds = Kinds {
        roles: Vec::new(alloc),
        cluster_roles: Vec::new(alloc),
        bindings: Vec::new(alloc),
    };
    for object in given {
        kinds.push(object)?;
    }
    Ok(kinds)
}

// For each name, the last item that has it. The items are sorted first, so that each item goes to
// the end of the list.
fn last_named<T: Named + Drop>(alloc: Global, mut given: Vec<T>) -> Result<Vec<T>, AllocError>
    ensures { IfOk result (λ kept. AreLastNamed T.name given.items kept.items) }
{
    given.sort_by(|a, b| a.cmp_name(b))?;
    let mut kept = Vec::with_capacity(alloc, given.len())?;
    for item in given {
        put(&mut kept, item)?;
    }
    Ok(kept)
}
