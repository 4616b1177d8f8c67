//! The catalogue that API resource lists make up.

ghost use Rattle.std.specs.Prelude.{◌≡◌, ◌++◌, [], IfOk, OnOk, OnErr, IsTrue, ◌↔◌, true, false};
ghost use Rattle.rbac_catalogue.specs.Lookups.{IsFound, IsOnlyFound};
ghost use Rattle.rbac_catalogue.specs.Catalogue.{IsClusterOnly};

use crate::entry::{Entries, Entry};
use crate::lookup::{Found, resource_meant};
use crate::scope::is_cluster_only;
use rbac_terms::Word;
use std::alloc::{AllocError, Global};
use std::marker::Model;

/// The entries of all API resource lists together. Entries with the same group and name, from
/// several versions, are about one resource.
#[derive(Drop)]
pub struct Catalogue {
    is_given: bool,
    entries: Vec<Entry>,
}

impl Model for Catalogue {
    ghost use Rattle.rbac_catalogue.specs.Catalogue.{CatalogueView};

    ghost Value = { CatalogueView };

    ghost view = { λ c. record { is_given = c.is_given; entries = c.entries.items } };
}

impl Catalogue {
    /// A catalogue without lists. Doesn't allocate.
    pub fn new(alloc: Global) -> Self
        ensures { result ≡ record { is_given = false; entries = [] } }
    {
        Catalogue {
            is_given: false,
            entries: Vec::new(alloc),
        }
    }

    /// Adds the entries of an API resource list, which may have none. Fails only if it runs out of
    /// memory, and then leaves the catalogue unchanged.
    pub fn give(&mut self, entries: Entries) -> Result<(), AllocError>
        ensures ok { OnOk result
            (self.new ≡ record { is_given = true; entries = self.old.entries ++ entries }) }
        ensures err { OnErr result (self.new ≡ self.old) }
    {
        self.entries.append(&mut entries.into_vec())?;
        self.is_given = true;
        Ok(())
    }

    /// Whether there was an API resource list, even one without entries. Doesn't allocate.
    pub fn is_given(&self) -> bool
        ensures { result ≡ self.now.is_given }
    {
        self.is_given
    }

    /// The entries of all lists, in the order given. Doesn't allocate.
    pub fn entries(&self) -> &[Entry]
        ensures { result.now ≡ self.now.entries }
    {
        self.entries.as_slice()
    }

    /// The resource that a type word means (own). A word without a dot is looked up as a name, a
    /// singular name or a short name: `po` means `pods`. Of several resources, it means the least
    /// by group and then by name. In a word with a dot, what follows the first dot is the group,
    /// and the part before the dot is looked up in that group alone, like `deploy` in
    /// `deploy.apps`. A word, or a part, that names no resource is taken as written, in that group
    /// or, without a dot, in the core group.
    ///
    /// Subresources and entries without a name have no type words, and the empty word names
    /// nothing. Allocates only for the result, and fails only if it runs out of memory.
    pub fn resolve_word(&self, alloc: Global, word: &Word) -> Result<Found, AllocError>
        ensures found { IfOk result (IsFound self.now.entries word.now) }
        ensures only { IfOk result (IsOnlyFound self.now.entries word.now) }
    {
        resource_meant(alloc, self.entries(), word)
    }

    /// Whether the resource with this group and full text is known to be cluster-scoped (own): it
    /// is listed, and none of its versions is namespaced. A subresource that isn't listed, like
    /// `pods/log`, is scoped like its resource, `pods`. Doesn't allocate.
    pub fn cluster_only(&self, group: &Word, text: &Word) -> bool
        ensures { IsTrue result ↔ IsClusterOnly self.now.entries group.now text.now }
    {
        is_cluster_only(self.entries(), group.as_bytes(), text.as_bytes())
    }
}
