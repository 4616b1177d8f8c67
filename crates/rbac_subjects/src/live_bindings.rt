//! The places of live bindings.

ghost use Rattle.std.specs.Prelude.{◌≡◌, ◌<◌, ◌≤◌, ◌↔◌, ℕ, Some, None, IsTrue, length, slice_get};
ghost use Rattle.std.specs.declared.cmp.Ordering.TheVariants.{Less};
ghost use Rattle.rbac_terms.specs.declared.granting.Binding.{Binding};
ghost use Rattle.rbac_model.specs.Lists.{IsAscendingBy};
ghost use Rattle.rbac_model.specs.Policies.{binding_name};
ghost use Rattle.rbac_model.specs.Universes.{LiveForSome};
ghost use Rattle.rbac_subjects.specs.Keyed.{IsLiveAt};
ghost use Rattle.rbac_subjects.specs.Living.{namespace_cmp, IsLiveRoleBinding};

use rbac_terms::{Binding, Target, Word};
use std::cmp::Ordering;

/// How many of the bindings are ClusterRoleBindings; these come first. Doesn't allocate.
pub fn cluster_wide(bindings: &[Binding]) -> usize
    requires { IsAscendingBy binding_name bindings.now }
    ensures within { result ≤ length bindings.now }
    ensures first { (at : ℕ) (b : Binding) → slice_get bindings.now at ≡ Some b
        → (at < result) ↔ (b.namespace ≡ None) }
{
    bindings.partition_point(|binding| binding.namespace.is_none())
}

// The places of the RoleBindings of this namespace: from the first place up to, but not including,
// the second.
pub(crate) fn of_namespace(bindings: &[Binding], namespace: &Word) -> (usize, usize)
    requires { IsAscendingBy binding_name bindings.now }
    ensures within { result.1 ≤ length bindings.now }
    ensures between { (at : ℕ) (b : Binding) → slice_get bindings.now at ≡ Some b
        → ((result.0 ≤ at) × (at < result.1)) ↔ (b.namespace ≡ Some namespace.now) }
{
    (
        first_from(bindings, namespace),
        bindings.partition_point(|binding| cmp_namespace(binding, namespace).is_le()),
    )
}

// The place of the first RoleBinding of this namespace or a later one.
pub(crate) fn first_from(bindings: &[Binding], namespace: &Word) -> usize
    requires { IsAscendingBy binding_name bindings.now }
    ensures { (at : ℕ) (b : Binding) → slice_get bindings.now at ≡ Some b
        → (at < result) ↔ (namespace_cmp b.namespace namespace.now ≡ Less) }
{
    bindings.partition_point(|binding| cmp_namespace(binding, namespace).is_lt())
}

// How the binding's namespace compares to this one; a ClusterRoleBinding comes before every
// namespace.
fn cmp_namespace(binding: &Binding, namespace: &Word) -> Ordering
    ensures { result ≡ namespace_cmp binding.now.namespace namespace.now }
{
    match &binding.namespace {
        None => Ordering::Less,
        Some(own) => own.cmp(namespace),
    }
}

/// The places of the RoleBindings that are live for this target in this namespace: from the first
/// place up to, but not including, the second. Doesn't allocate.
pub fn live_role_bindings(bindings: &[Binding], namespace: &Word, target: &Target) -> (usize, usize)
    requires { IsAscendingBy binding_name bindings.now }
    ensures within { result.1 ≤ length bindings.now }
    ensures between { (at : ℕ) (b : Binding) → slice_get bindings.now at ≡ Some b
        → ((result.0 ≤ at) × (at < result.1)) ↔ IsLiveRoleBinding b namespace.now target.now }
{
    if target.is_url() || namespace.is_empty() {
        return (0, 0);
    }
    of_namespace(bindings, namespace)
}

// Where bindings are live for some target: the first `cluster_wide` bindings, and those of a
// namespace, from place `from` up to place `to`.
#[derive(Clone, Copy)]
pub(crate) struct Live {
    pub(crate) cluster_wide: usize,
    pub(crate) from: usize,
    pub(crate) to: usize,
}

impl Live {
    // Whether the binding at this place is live.
    pub(crate) fn has(self, place: usize) -> bool
        ensures { IsTrue result ↔ IsLiveAt self place }
    {
        place < self.cluster_wide || self.is_in_namespace(place)
    }

    fn is_in_namespace(self, place: usize) -> bool
        ensures { IsTrue result ↔ ((self.from ≤ place) × (place < self.to)) }
    {
        self.from <= place && place < self.to
    }
}

// Where bindings are live if all of them are.
pub(crate) fn everywhere(bindings: &[Binding]) -> Live
    ensures { (at : ℕ) → IsLiveAt result at ↔ (at < length bindings.now) }
{
    Live {
        cluster_wide: bindings.len(),
        from: 0,
        to: 0,
    }
}

// Where bindings are live for some target in this namespace.
pub(crate) fn live_for_some(bindings: &[Binding], namespace: &Word) -> Live
    requires { IsAscendingBy binding_name bindings.now }
    ensures { (at : ℕ) (b : Binding) → slice_get bindings.now at ≡ Some b
        → IsLiveAt result at ↔ LiveForSome b.namespace namespace.now }
{
    let cluster_wide = cluster_wide(bindings);
    let (from, to) = if namespace.is_empty() {
        (0, 0)
    } else {
        of_namespace(bindings, namespace)
    };
    Live {
        cluster_wide,
        from,
        to,
    }
}
