//! Laws of universes, each stated by the contract of a function that does nothing.

ghost use Rattle.std.specs.Prelude.{◌≡◌, ◌≢◌, map};
ghost use Rattle.rbac_terms.specs.Principals.{who_key};
ghost use Rattle.rbac_model.specs.Universes.{UniverseView};
ghost use Rattle.rbac_universe.specs.declared.lists.UniverseLists.{UniverseLists};
ghost use Rattle.rbac_universe.specs.declared.fault.UniverseFault.{UniverseFault};
ghost use Rattle.rbac_universe.specs.declared.fault.UniverseFault.TheVariants.{NoMemory};
ghost use Rattle.rbac_universe.specs.Sets.{AreSets, IsUniverseOf, HasUniverseFault};

/// Lists determine their sets (own). Of the principals, only the keys are determined: the order of
/// a principal's given groups, and their repeats, may differ.
pub fn sets_are_one()
    ensures { (lists : UniverseLists) (u others : UniverseView) → AreSets lists u
        → AreSets lists others
        → (map who_key u.principals ≡ map who_key others.principals)
        × (u.namespaces ≡ others.namespaces)
        × (u.verbs ≡ others.verbs) × (u.targets ≡ others.targets) }
{}

/// Lists that make a universe have no fault but out of memory. So the same lists are refused either
/// always or never (own).
pub fn universes_have_no_fault()
    ensures { (lists : UniverseLists) (u : UniverseView) (fault : UniverseFault)
        → IsUniverseOf lists u
        → fault ≢ NoMemory → ¬ HasUniverseFault lists fault }
{}
