//! Copies of objects, part by part. The types that they are made of have no `Clone`, since nothing
//! else copies whole objects.

ghost use Rattle.std.specs.Prelude.{◌≡◌, ◌++◌, ◌∷◌, [], IfOk, OnOk};

use rbac_model::Object;
use rbac_terms::{
    Binding, ClusterRole, Items, Requirement, Role, RoleRef, Rule, Selector, Subject, Words,
};
use std::alloc::{AllocError, Global};

// Values that can be copied.
pub(crate) trait Copyable: Sized {
    // A copy, equal to the original. Fails only if it runs out of memory.
    fn copy(&self, alloc: Global) -> Result<Self, AllocError>
        ensures { IfOk result (λ copy. copy ≡ self.now) };
}

impl<T: Copyable + Drop> Copyable for Items<T> {
    fn copy(&self, alloc: Global) -> Result<Self, AllocError> {
        let mut copies = Items::new(alloc);
        for item in self.as_slice() {
            push_copy(alloc, item, &mut copies)?;
        }
        Ok(copies)
    }
}

// Adds a copy of an item at the end.
fn push_copy<T: Copyable + Drop>(
    alloc: Global,
    item: &T,
    copies: &mut Items<T>,
) -> Result<(), AllocError>
    ensures { OnOk result (copies.new ≡ copies.old ++ item.now ∷ []) }
{
    copies.push(item.copy(alloc)?)?;
    Ok(())
}

impl<T: Copyable> Copyable for Option<T> {
    fn copy(&self, alloc: Global) -> Result<Self, AllocError> {
        match self {
            Some(value) => Ok(Some(value.copy(alloc)?)),
            None => Ok(None),
        }
    }
}

impl Copyable for Rule {
    fn copy(&self, alloc: Global) -> Result<Self, AllocError> {
        let mut copy = Rule {
            verbs: Words::new(alloc),
            groups: Words::new(alloc),
            resources: Words::new(alloc),
            resource_names: Words::new(alloc),
            urls: Words::new(alloc),
        };
        copy_rule(self, &mut copy)?;
        Ok(copy)
    }
}

// Makes `copy` equal to a rule. All that can fail is in here, where an early return has nothing to
// drop.
fn copy_rule(rule: &Rule, copy: &mut Rule) -> Result<(), AllocError>
    ensures { OnOk result (copy.new ≡ rule.now) }
{
    copy_words(&rule.verbs, &mut copy.verbs)?;
    copy_words(&rule.groups, &mut copy.groups)?;
    copy_words(&rule.resources, &mut copy.resources)?;
    copy_words(&rule.resource_names, &mut copy.resource_names)?;
    copy_words(&rule.urls, &mut copy.urls)
}

// Makes `copy` equal to these words.
fn copy_words(words: &Words, copy: &mut Words) -> Result<(), AllocError>
    ensures { OnOk result (copy.new ≡ words.now) }
{
    *copy = words.clone()?;
    Ok(())
}

impl Copyable for Requirement {
    fn copy(&self, _: Global) -> Result<Self, AllocError> {
        Ok(Requirement {
            key: self.key.clone()?,
            op: self.op,
            values: self.values.clone()?,
        })
    }
}

impl Copyable for Selector {
    fn copy(&self, alloc: Global) -> Result<Self, AllocError> {
        Ok(Selector {
            labels: self.labels.clone()?,
            requirements: self.requirements.copy(alloc)?,
        })
    }
}

impl Copyable for Role {
    fn copy(&self, alloc: Global) -> Result<Self, AllocError> {
        Ok(Role {
            namespace: self.namespace.clone()?,
            name: self.name.clone()?,
            rules: self.rules.copy(alloc)?,
        })
    }
}

impl Copyable for ClusterRole {
    fn copy(&self, alloc: Global) -> Result<Self, AllocError> {
        Ok(ClusterRole {
            name: self.name.clone()?,
            labels: self.labels.clone()?,
            rules: self.rules.copy(alloc)?,
            aggregation: self.aggregation.copy(alloc)?,
        })
    }
}

impl Copyable for RoleRef {
    fn copy(&self, _: Global) -> Result<Self, AllocError> {
        match self {
            RoleRef::Role(name) => Ok(RoleRef::Role(name.clone()?)),
            RoleRef::ClusterRole(name) => Ok(RoleRef::ClusterRole(name.clone()?)),
        }
    }
}

impl Copyable for Subject {
    fn copy(&self, _: Global) -> Result<Self, AllocError> {
        match self {
            Subject::User(name) => Ok(Subject::User(name.clone()?)),
            Subject::Group(name) => Ok(Subject::Group(name.clone()?)),
            Subject::Account { namespace, name } => Ok(Subject::Account {
                namespace: namespace.clone()?,
                name: name.clone()?,
            }),
        }
    }
}

impl Copyable for Binding {
    fn copy(&self, alloc: Global) -> Result<Self, AllocError> {
        Ok(Binding {
            namespace: self.namespace.clone()?,
            name: self.name.clone()?,
            role: self.role.copy(alloc)?,
            subjects: self.subjects.copy(alloc)?,
        })
    }
}

impl Copyable for Object {
    fn copy(&self, alloc: Global) -> Result<Self, AllocError> {
        match self {
            Object::Role(role) => Ok(Object::Role(role.copy(alloc)?)),
            Object::ClusterRole(role) => Ok(Object::ClusterRole(role.copy(alloc)?)),
            Object::Binding(binding) => Ok(Object::Binding(binding.copy(alloc)?)),
        }
    }
}
