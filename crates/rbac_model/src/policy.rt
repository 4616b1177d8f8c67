//! Policies: objects, and the grants that follow from them.

ghost use Rattle.std.specs.Prelude.{ℕ, ◌≡◌, ◌<◌, ◌≤◌, ◌↔◌, IsTrue, [], Any, Contains, IfOk, IfErr};
ghost use Rattle.std.specs.Prelude.{IsOkAnd, Some, IsSome, All, length, slice_get};
ghost use Rattle.rbac_model.specs.Policies.{PolicyView, IsPolicy, HasTooMany, AreReachedNames};
ghost use Rattle.rbac_model.specs.Policies.{IsPlain, IsOfBinding, grants_at, grant_at, most_grants};
ghost use Rattle.rbac_model.specs.Places.{IsReachedAt};
ghost use Rattle.rbac_model.specs.Sources.{grant_of};
ghost use Rattle.rbac_terms.specs.declared.granting.ClusterRole.{ClusterRole};

use crate::aggregation::{names_from, reached_by_each};
use crate::fault::ResolveFault;
use crate::grants::grants_of;
use crate::objects::Objects;
use crate::place_set::PlaceSet;
use crate::places::GrantPlace;
use crate::references::{Grant, grant_from};
use rbac_terms::{Binding, Word, Words};
use std::alloc::Global;
use std::marker::Model;

/// Objects, and the grants that follow from them: at most a million, numbered from 0 in order of
/// bindings, then of the rules of a binding's role.
pub struct Policy {
    objects: Objects,
    reached: Vec<PlaceSet>,
    grants: Vec<GrantPlace>,
}

impl Drop for Policy {
    fn drop(self) {
        let Self {
            objects,
            reached,
            grants,
        } = self;
    }
}

impl Model for Policy {
    ghost use Rattle.std.specs.Prelude.{IsSome, All, ◌≤◌, vec_len};
    ghost use Rattle.rbac_model.specs.Places.{AreReachedByEach};
    ghost use Rattle.rbac_model.specs.Policies.{PolicyView, IsPolicy, grants_at, grant_at};
    ghost use Rattle.rbac_model.specs.Policies.{most_grants};

    ghost Value = { PolicyView };

    ghost view = { λ p. record { held = p.objects; grants = grants_at p.objects p.grants.items } };

    ghost invariant = { λ p. IsPolicy
        (record { held = p.objects; grants = grants_at p.objects p.grants.items })
        × All (λ g. IsSome (grant_at p.objects g)) p.grants.items × (vec_len p.grants ≤ most_grants)
        × AreReachedByEach p.objects p.reached.items };
}

impl Policy {
    /// The policy of these objects, with the grants that follow from them. A binding whose role
    /// isn't held has no grants. An aggregated role has the rules of the plain roles that it
    /// reaches, in order of their names (own: the state in which aggregation settles). Fails with
    /// P2 TooMany for more than a million grants, and with P5 NoMemory if it runs out of memory; in
    /// both cases, the objects are dropped.
    pub fn resolve(alloc: Global, objects: Objects) -> Result<Self, ResolveFault>
        ensures held { IfOk result (λ p. p.held ≡ objects) }
        ensures policy { IfOk result (λ p. IsPolicy p) }
        ensures few { IfOk result (λ p. length p.grants ≤ most_grants) }
        ensures many { IfErr result (λ e. e ≡ ResolveFault.TooMany → HasTooMany objects) }
    {
        let reached = reached_by_each(alloc, &objects)?;
        let grants = grants_of(alloc, &objects, &reached)?;
        Ok(Policy {
            objects,
            reached,
            grants,
        })
    }

    /// The names of the cluster roles that the cluster role with this name reaches by one or more
    /// selection steps, ascending (Using RBAC Authorization, Aggregated ClusterRoles). If that role
    /// is plain or isn't held, the list is empty and nothing is allocated. Fails only if it runs
    /// out of memory, with P5 NoMemory.
    pub fn reached(&self, alloc: Global, name: &Word) -> Result<Words, ResolveFault>
        ensures reached { IfOk result
            (λ ws. (r : ClusterRole) → Contains self.now.held.cluster_roles r → r.name ≡ name.now
            → AreReachedNames self.now.held r ws) }
        ensures none { ¬ Any (λ r. r.name ≡ name.now) self.now.held.cluster_roles
            → IsOkAnd result (λ ws. ws ≡ []) }
        ensures plain { (r : ClusterRole) → Contains self.now.held.cluster_roles r
            → r.name ≡ name.now → IsPlain r → IsOkAnd result (λ ws. ws ≡ []) }
        ensures only_memory { IfErr result (λ e. e ≡ ResolveFault.NoMemory) }
    {
        let names = names_from(alloc, &self.objects, &self.reached, name)?;
        Ok(names)
    }

    /// Whether the cluster role at place `from` reaches the one at place `to` by one or more
    /// selection steps (Using RBAC Authorization, Aggregated ClusterRoles). Places are counted from
    /// 0, in order of names. Doesn't allocate.
    pub fn reaches(&self, from: usize, to: usize) -> bool
        requires { from < length self.now.held.cluster_roles }
        ensures reaches { (r : ClusterRole) → slice_get self.now.held.cluster_roles from ≡ Some r
            → (IsTrue result ↔ IsReachedAt self.now.held r to) }
    {
        self.reached[from].has(to)
    }

    /// The objects that the policy was made of.
    pub fn objects(&self) -> &Objects
        ensures held { result.now ≡ self.now.held }
        ensures policy { IsPolicy self.now }
    {
        &self.objects
    }

    /// The bindings in order: ClusterRoleBindings by name, then RoleBindings by namespace and name.
    pub fn bindings(&self) -> &[Binding]
        ensures bindings { result.now ≡ self.now.held.bindings }
        ensures policy { IsPolicy self.now }
    {
        self.objects.bindings()
    }

    /// How many grants the policy has: at most a million.
    pub fn len(&self) -> u32
        ensures len { result ≡ length self.now.grants }
        ensures few { length self.now.grants ≤ most_grants }
        ensures policy { IsPolicy self.now }
    {
        self.places().len() as u32
    }

    /// The grant with this number, counted from 0.
    pub fn grant(&self, no: u32) -> Grant<'_>
        requires { no < length self.now.grants }
        ensures grant { slice_get self.now.grants no ≡ Some (grant_of result) }
        ensures binding { IsOfBinding self.now no result.binding_place }
    {
        let places = self.places();
        grant_from(&self.objects, places[no as usize])
    }

    /// The places of the parts of the grant with this number, counted from 0: of its binding, of
    /// the role where its rule is written, and of the rule in that role.
    pub fn place(&self, no: u32) -> GrantPlace
        requires { no < length self.now.grants }
        ensures grant { grant_at self.now.held result ≡ slice_get self.now.grants no }
        ensures binding { IsOfBinding self.now no result.binding }
    {
        self.places()[no as usize]
    }

    /// The numbers of the grants of the binding at this place: from the first number up to, but not
    /// including, the second; the two are equal if the binding has no grants. Grants are in order
    /// of bindings, so the grants of a binding have consecutive numbers. Doesn't allocate.
    pub fn grants_of(&self, place: usize) -> (u32, u32)
        ensures ordered { result.0 ≤ result.1 }
        ensures within { result.1 ≤ length self.now.grants }
        ensures between { (n at : ℕ) → IsOfBinding self.now n at
            → ((result.0 ≤ n) × (n < result.1)) ↔ (at ≡ place) }
        ensures upto { (n at : ℕ) → IsOfBinding self.now n at → (n < result.1) ↔ (at ≤ place) }
        ensures policy { IsPolicy self.now }
    {
        let places = self.places();
        (
            places.partition_point(|at| at.binding < place) as u32,
            places.partition_point(|at| at.binding <= place) as u32,
        )
    }

    fn places(&self) -> &[GrantPlace]
        ensures len { length result.now ≡ length self.now.grants }
        ensures few { length result.now ≤ most_grants }
        ensures held { All (λ at. IsSome (grant_at self.now.held at)) result.now }
        ensures grants { self.now.grants ≡ grants_at self.now.held result.now }
        ensures policy { IsPolicy self.now }
    {
        self.grants.as_slice()
    }
}
