//! Laws of documents, each stated by the contract of a function that does nothing.

ghost use Rattle.std.specs.Prelude.{◌≡◌, ◌↔◌, ◌++◌, ◌∷◌, [], List, ℕ};
ghost use Rattle.rbac_terms.specs.Text.{Text};
ghost use Rattle.rbac_model.specs.Universes.{UniverseView};
ghost use Rattle.rbac_universe.specs.declared.lists.UniverseLists.{UniverseLists};
ghost use Rattle.rbac_universe.specs.declared.fault.UniverseFault.{UniverseFault};
ghost use Rattle.rbac_universe.specs.Sets.{IsUniverseOf, HasUniverseFault};
ghost use Rattle.rbac_manifest.specs.Load.{LoadedView, IsLoaded};
ghost use Rattle.rbac_document.specs.Document.{AreOnceEach, AreReadable, IsDocument};

/// Lists have one document: whoever prints the same lists prints the same text (own).
pub fn documents_are_one()
    ensures { (lists : UniverseLists) (text other : Text) → IsDocument lists text
        → IsDocument lists other → text ≡ other }
{}

/// Lists with each entry once and in order make the same universes as the lists themselves, and are
/// refused for the same faults (own).
pub fn once_each_is_the_same_universe()
    ensures universe { (lists each : UniverseLists) (u : UniverseView) → AreOnceEach lists each
        → IsUniverseOf lists u ↔ IsUniverseOf each u }
    ensures fault { (lists each : UniverseLists) (fault : UniverseFault) → AreOnceEach lists each
        → HasUniverseFault lists fault ↔ HasUniverseFault each fault }
{}

/// The document of an export's lists, read after its inputs, is accepted. It replaces the lists by
/// the same ones with each entry once and in order, and leaves all else as it is. So a matrix over
/// the inputs and the document is over the same policy and the same universe (own).
pub fn documents_are_taken_back()
    ensures { (inputs : List (List ℕ)) (l : LoadedView) (text : Text) → IsLoaded inputs l
        → AreReadable l.lists → IsDocument l.lists text
        → (each : UniverseLists) × AreOnceEach l.lists each
        × IsLoaded (inputs ++ text ∷ []) (record l { lists = each }) }
{}
