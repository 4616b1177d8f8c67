//! The places of subjects in bindings that have many of them. They are looked up by the keys of the
//! subjects, so no binding can make a look-up slow.

ghost use Rattle.std.specs.Prelude.{◌≡◌, ◌⊎◌, [], IfOk, MatchOption, Some, slice_get, slice_index_or};
ghost use Rattle.rbac_terms.specs.Granting.{Names};
ghost use Rattle.rbac_terms.specs.declared.granting.Subject.{Subject};
ghost use Rattle.rbac_model.specs.Lists.{IsFirstAt};
ghost use Rattle.rbac_model.specs.Policies.{BindingNames};
ghost use Rattle.rbac_subjects.specs.Naming.{AreKeyedSubjects};

use crate::live_bindings::Live;
use crate::subject_keys::{Keyed, cmp_keyed, next_for};
use rbac_model::{Policy, naming_place};
use rbac_terms::{Binding, Items, Principal, subject_key};
use std::alloc::{AllocError, Global};
use std::marker::Model;

/// The subjects of each binding of a policy that has many of them, listed under their keys.
#[derive(Drop)]
pub struct SubjectPlaces<'p> {
    policy: &'p Policy,
    large: Vec<Items<Keyed>>,
}

impl<'p> Model for SubjectPlaces<'p> {
    ghost use Rattle.rbac_model.specs.Policies.{PolicyView};
    ghost use Rattle.rbac_subjects.specs.Naming.{AreOfBindings};

    ghost Value = { PolicyView };

    ghost view = { λ s. s.policy.now };

    ghost invariant = { λ s. AreOfBindings s.policy.now.held.bindings s.large.items };
}

impl<'p> SubjectPlaces<'p> {
    /// The subjects of this policy's bindings. Fails only if it runs out of memory.
    pub fn of(alloc: Global, policy: &'p Policy) -> Result<Self, AllocError>
        ensures { IfOk result (λ s. s ≡ policy.now) }
    {
        let bindings = policy.bindings();
        let mut large = Vec::with_capacity(alloc, bindings.len())?;
        for binding in bindings {
            large.push(keyed_if_many(alloc, binding)?)?;
        }
        Ok(SubjectPlaces { policy, large })
    }

    /// The place, from 0, of the first subject that names the principal, of the binding at this
    /// place; `None` if none does. Doesn't allocate.
    pub fn naming(&self, place: usize, binding: &Binding, principal: &Principal) -> Option<usize>
        requires { slice_get self.now.held.bindings place ≡ Some binding.now }
        ensures { MatchOption result (¬ BindingNames binding.now principal.now)
            (λ at. (s : Subject)
            × IsFirstAt (λ s. Names s binding.now.namespace principal.now) binding.now.subjects at s) }
    {
        let entries = entries_at(self.large.as_slice(), place);
        if entries.is_empty() {
            return naming_place(binding, principal);
        }
        let all = Live {
            cluster_wide: binding.subjects.as_slice().len(),
            from: 0,
            to: 0,
        };
        next_for(entries, principal, all, 0)
    }
}

// The entries at this place; none past the last one.
fn entries_at(large: &[Items<Keyed>], place: usize) -> &[Keyed]
    ensures { result.now ≡ slice_index_or large.now place [] }
{
    match large.get(place) {
        Some(entries) => entries.as_slice(),
        None => &[],
    }
}

// How many subjects are many: among fewer, the first that names somebody is found as soon without
// an order.
const MANY: usize = 32;

// The binding's subjects under their keys, if it has many; otherwise nothing.
fn keyed_if_many(alloc: Global, binding: &Binding) -> Result<Items<Keyed>, AllocError>
    ensures { IfOk result (λ xs. (xs ≡ []) ⊎ AreKeyedSubjects binding.now xs) }
{
    if binding.subjects.as_slice().len() < MANY {
        return Ok(Items::new(alloc));
    }
    Ok(Items::from_vec(keyed_subjects(alloc, binding)?))
}

// The binding's subjects, each with its own place in place of a binding's, in order.
fn keyed_subjects(alloc: Global, binding: &Binding) -> Result<Vec<Keyed>, AllocError>
    ensures { IfOk result (λ xs. AreKeyedSubjects binding.now xs.items) }
{
    let mut entries = Vec::new(alloc);
    for (place, subject) in binding.subjects.as_slice().iter().enumerate() {
        if let Some(key) = subject_key(alloc, subject, binding.namespace.as_ref())? {
            entries.push(Keyed { key, place })?;
        }
    }
    entries.sort_unstable_by(|a, b| cmp_keyed(a, b));
    Ok(entries)
}
