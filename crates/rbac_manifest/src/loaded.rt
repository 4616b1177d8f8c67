//! What inputs give, with the lists of a universe.

ghost use Rattle.std.specs.Prelude.{◌≡◌, ◌≢◌, IfOk, IfErr, None};
ghost use Rattle.rbac_manifest.specs.declared.fault.Cause.TheVariants.{NoMemory};
ghost use Rattle.rbac_manifest.specs.Load.{IsLoaded, HasFault};
ghost use Rattle.rbac_manifest.specs.Replaced.{replaced_name};
ghost use Rattle.rbac_model.specs.Lists.{IsAscendingBy};

use crate::fault::LoadFault;
use crate::loading::{Export, load_export};
use crate::replacement::Replaced;
use rbac_catalogue::Catalogue;
use rbac_model::{Objects, Policy};
use rbac_streams::Input;
use rbac_universe::UniverseLists;
use std::alloc::Global;
use std::marker::Model;

/// What inputs give, once all of them are accepted, with the lists that a universe is made of.
pub struct Loaded {
    export: Export,
    lists: UniverseLists,
}

impl Drop for Loaded {
    fn drop(self) {
        let Self { export, lists } = self;
    }
}

impl Model for Loaded {
    ghost use Rattle.std.specs.Prelude.{◌≡◌};
    ghost use Rattle.rbac_manifest.specs.Load.{LoadedView};

    ghost Value = { LoadedView };

    ghost view = { λ l. l.export };

    ghost invariant = { λ l. l.lists ≡ l.export.lists };
}

impl Loaded {
    /// What the inputs give. Doesn't allocate.
    pub fn export(&self) -> &Export
        ensures { result.now ≡ self.now }
    {
        &self.export
    }

    /// The policy of the objects that are kept. Doesn't allocate.
    pub fn policy(&self) -> &Policy
        ensures { result.now ≡ self.now.policy }
    {
        self.export.policy()
    }

    /// The objects that are kept: for each kind, namespace and name the last one given. Doesn't
    /// allocate.
    pub fn objects(&self) -> &Objects
        ensures { result.now ≡ self.now.policy.held }
    {
        self.policy().objects()
    }

    /// The catalogue of all API resource lists (own). Doesn't allocate.
    pub fn catalogue(&self) -> &Catalogue
        ensures { result.now ≡ self.now.catalogue }
    {
        self.export.catalogue()
    }

    /// The objects given by several documents, in order of kind, namespace and name, each with how
    /// many earlier documents the last one replaced (own). Doesn't allocate.
    pub fn replaced(&self) -> &[Replaced]
        ensures replaced { result.now ≡ self.now.replaced }
        ensures ordered { IsAscendingBy replaced_name self.now.replaced }
    {
        self.export.replaced()
    }

    /// The lists that a universe is made of (own): each as given by the last Universe document that
    /// has it, otherwise as derived from the objects that are kept, the catalogue, and Namespace
    /// and ServiceAccount objects. Doesn't allocate.
    pub fn lists(&self) -> &UniverseLists
        ensures { result.now ≡ self.now.lists }
    {
        &self.lists
    }
}

/// Reads inputs, in order, into what they give: the policy of their objects, keeping only the last
/// one of each kind, namespace and name (own), the catalogue of their API resource lists, the lists
/// of a universe, and which objects were replaced. Version v1beta1 of the RBAC group is read as v1
/// (Kubernetes API). Documents of other kinds are passed over.
///
/// # Errors
///
/// The fault of the first document that has one; if that has several, the one with the least
/// number. If no document has a fault, M11 if there are over 1,000,000 grants. M12 if it runs out
/// of memory.
pub fn load(alloc: Global, inputs: &[Input]) -> Result<Loaded, LoadFault>
    ensures ok { IfOk result (IsLoaded inputs.now) }
    ensures fault { IfErr result (λ e. e.cause ≢ NoMemory → HasFault inputs.now e) }
    ensures memory { IfErr result (λ e. e.cause ≡ NoMemory → e.at ≡ None) }
{
    let export = load_export(alloc, inputs)?;
    match export.lists(alloc) {
        Ok(lists) => Ok(Loaded { export, lists }),
        Err(_) => Err(LoadFault::no_memory()),
    }
}
