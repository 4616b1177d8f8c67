//! The universe that a matrix ranges over.

ghost use Rattle.std.specs.Prelude.{◌≡◌, ◌<◌, All, IfOk, IfErr, Some, length, map, slice_get};
ghost use Rattle.rbac_model.specs.Universes.{IsUniverse};
ghost use Rattle.rbac_universe.specs.UniverseSets.{universe_of};
ghost use Rattle.rbac_universe.specs.Sets.{IsUniverseOf, AreProper, HasUniverseFault};
ghost use Rattle.rbac_universe.specs.Sets.{IsWithinLimits};
ghost use Rattle.rbac_universe.specs.Stems.{IsStem};

use crate::fault::UniverseFault;
use crate::lists::UniverseLists;
use crate::sets::{UniverseSets, are_proper};
use crate::stems::{all_flags, all_targets};
use rbac_terms::{Principal, Target, Word};
use std::alloc::{AllocError, Global};
use std::marker::Model;

/// The requests that a matrix ranges over: principals, namespaces, verbs and targets, each a set in
/// byte order (own).
pub struct Universe {
    principals: Vec<Principal>,
    namespaces: Vec<Word>,
    verbs: Vec<Word>,
    targets: Vec<Target>,
    namespaced: Vec<bool>,
}

impl Drop for Universe {
    fn drop(self) {
        let Self {
            principals,
            namespaces,
            verbs,
            targets,
            namespaced,
        } = self;
    }
}

impl Model for Universe {
    ghost use Rattle.std.specs.Prelude.{◌≡◌, length};
    ghost use Rattle.rbac_model.specs.Universes.{UniverseView};
    ghost use Rattle.rbac_universe.specs.Made.{IsMade, view_of};

    ghost Value = { UniverseView };

    ghost view = { λ u. view_of u.principals.items u.namespaces.items u.verbs.items u.targets.items
        u.namespaced.items };

    ghost invariant = { λ u. (length u.namespaced.items ≡ length u.targets.items)
        × IsMade
        (view_of u.principals.items u.namespaces.items u.verbs.items u.targets.items
        u.namespaced.items) };
}

impl Universe {
    ghost use Rattle.rbac_universe.specs.Made.{IsMade};

    /// The universe of these lists, each taken as a set: one principal for each key, with all
    /// groups that are given under this key; each resource with each name, and each URL. A resource
    /// is namespaced if one of its entries is; a URL never is.
    ///
    /// Refuses a bad resource or URL first, with P3 BadTarget, whatever the names and without
    /// allocating. Then refuses sets beyond the limits, with P4 TooLarge: 65,535 each of
    /// principals, namespaces and verbs, and 1,000,000 targets (own). Targets are counted before
    /// any of them is made. P5 NoMemory only if the call runs out of memory.
    pub fn build(alloc: Global, lists: &UniverseLists) -> Result<Self, UniverseFault>
        ensures ok { IfOk result (IsUniverseOf lists.now) }
        ensures fault { IfErr result (HasUniverseFault lists.now) }
        ensures bad { ¬ AreProper lists.now → result ≡ Err UniverseFault.BadTarget }
    {
        if !are_proper(lists) {
            return Err(UniverseFault::BadTarget);
        }
        Self::of_proper(alloc, lists)
    }

    // The universe of lists whose resources and URLs are proper.
    fn of_proper(alloc: Global, lists: &UniverseLists) -> Result<Self, UniverseFault>
        requires { AreProper lists.now }
        ensures ok { IfOk result (IsUniverseOf lists.now) }
        ensures fault { IfErr result (HasUniverseFault lists.now) }
    {
        let sets = UniverseSets::of(alloc, lists)?;
        if !sets.is_within_limits() {
            return Err(UniverseFault::TooLarge);
        }
        Ok(Universe::of(alloc, sets)?)
    }

    // The universe that these sets make.
    fn of(alloc: Global, sets: UniverseSets) -> Result<Self, AllocError>
        requires stems { All IsStem sets.stems.items }
        requires made { IsMade (universe_of sets) }
        ensures { IfOk result (λ u. u ≡ universe_of sets) }
    {
        let stems = sets.stems.as_slice();
        let names = sets.names.as_slice();
        let targets = all_targets(alloc, stems, names)?;
        let namespaced = all_flags(alloc, stems, names)?;
        let UniverseSets {
            principals,
            namespaces,
            verbs,
            stems: _,
            names: _,
        } = sets;
        Ok(Universe {
            principals,
            namespaces,
            verbs,
            targets,
            namespaced,
        })
    }

    /// The principals, in order of keys.
    pub fn principals(&self) -> &[Principal]
        ensures principals { result.now ≡ self.now.principals }
        ensures ordered { IsUniverse self.now }
        ensures few { IsWithinLimits self.now }
    {
        self.principals.as_slice()
    }

    /// The namespaces, in byte order.
    pub fn namespaces(&self) -> &[Word]
        ensures namespaces { result.now ≡ self.now.namespaces }
        ensures ordered { IsUniverse self.now }
        ensures few { IsWithinLimits self.now }
    {
        self.namespaces.as_slice()
    }

    /// The verbs, in byte order.
    pub fn verbs(&self) -> &[Word]
        ensures verbs { result.now ≡ self.now.verbs }
        ensures ordered { IsUniverse self.now }
        ensures few { IsWithinLimits self.now }
    {
        self.verbs.as_slice()
    }

    /// The targets, in order of group, resource or URL, and name.
    pub fn targets(&self) -> &[Target]
        ensures targets { result.now ≡ map (λ t. t.0) self.now.targets }
        ensures ordered { IsUniverse self.now }
        ensures few { IsWithinLimits self.now }
    {
        self.targets.as_slice()
    }

    /// Whether the target at this place is namespaced.
    pub fn namespaced(&self, place: usize) -> bool
        requires { place < length self.now.targets }
        ensures { slice_get (map (λ t. t.1) self.now.targets) place ≡ Some result }
    {
        self.namespaced[place]
    }
}
