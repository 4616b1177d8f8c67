//! Reads inputs into what they give and the policy that follows from it.

ghost use Rattle.std.specs.Prelude.{◌≡◌, ◌≢◌, ◌++◌, [], All, OnOk, IfOk, IfErr, None, Some};
ghost use Rattle.std.specs.Prelude.{IsTrue, MatchOption};
ghost use Rattle.rbac_lists.specs.Derived.{subject_principals};
ghost use Rattle.rbac_manifest.specs.declared.fault.Cause.TheVariants.{NoMemory};
ghost use Rattle.rbac_manifest.specs.Load.{file_refusal, contents_of_file};
ghost use Rattle.rbac_manifest.specs.Load.{document_fault, all_contents, too_many, IsLoaded};
ghost use Rattle.rbac_manifest.specs.Load.{HasFault, HasTooManyGrants};
ghost use Rattle.rbac_manifest.specs.Contents.{sorted_contents, with_contents, objects_in};
ghost use Rattle.rbac_manifest.specs.Changed.{IsResolved};
ghost use Rattle.rbac_manifest.specs.Names.{names_given};
ghost use Rattle.rbac_manifest.specs.Reads.{Yields};
ghost use Rattle.rbac_manifest.specs.Replaced.{AreReplaced, replaced_name};
ghost use Rattle.rbac_model.specs.Lists.{IsAscendingBy};
ghost use Rattle.rbac_terms.specs.Principals.{given_of};
ghost use Rattle.rbac_lists.specs.Wide.{AreTooMany};
ghost use Rattle.rbac_universe.specs.Sets.{HasUniverseFault};
ghost use Rattle.rbac_universe.specs.Stems.{stem_name};
ghost use Rattle.rbac_universe.specs.declared.fault.UniverseFault.TheVariants.{NoMemory as LacksMemory};

use crate::content::Content;
use crate::contents::Contents;
use crate::document_list::text_contents;
use crate::fault::{Cause, LoadFault, Refusal};
use crate::replacement::{Replaced, replaced_of};
use rbac_catalogue::Catalogue;
use rbac_groups::Membership;
use rbac_lists::{Account, GivenLists, fault_of_wide_rule, has_wide_rule, lists_of, users_of};
use rbac_model::{Object, Objects, Policy, ResolveFault};
use rbac_streams::Input;
use rbac_terms::Word;
use rbac_universe::{Principals, UniverseFault, UniverseLists};
use simdutf8::basic::from_utf8;
use std::alloc::{AllocError, Global};
use std::marker::Model;

/// What inputs give, once all of them are accepted; the lists of a universe are derived from it.
pub struct Export {
    policy: Policy,
    catalogue: Catalogue,
    namespaces: Vec<Word>,
    accounts: Vec<Account>,
    documents: Vec<GivenLists>,
    replaced: Vec<Replaced>,
    memberships: Vec<Membership>,
}

impl Drop for Export {
    fn drop(self) {
        let Self {
            policy,
            catalogue,
            namespaces,
            accounts,
            documents,
            replaced,
            memberships,
        } = self;
    }
}

impl Model for Export {
    ghost use Rattle.rbac_lists.specs.Derived.{principals_of};
    ghost use Rattle.rbac_lists.specs.Meant.{lists_meant};
    ghost use Rattle.rbac_manifest.specs.Load.{LoadedView};
    ghost use Rattle.rbac_manifest.specs.Replaced.{replaced_name};
    ghost use Rattle.rbac_model.specs.Lists.{IsAscendingBy};

    ghost Value = { LoadedView };

    ghost view = { λ l. record {
      policy = l.policy;
      catalogue = l.catalogue;
      principals = principals_of l.policy.held l.accounts.items;
      lists = lists_meant l.policy.held l.catalogue l.namespaces.items l.accounts.items
          l.documents.items;
      replaced = l.replaced.items;
      memberships = l.memberships.items;
    } };

    ghost invariant = { λ l. IsAscendingBy replaced_name l.replaced.items };
}

impl Export {
    /// The policy of the objects that are kept. Doesn't allocate.
    pub fn policy(&self) -> &Policy
        ensures { result.now ≡ self.now.policy }
    {
        &self.policy
    }

    /// The catalogue of all API resource lists (own). Doesn't allocate.
    pub fn catalogue(&self) -> &Catalogue
        ensures { result.now ≡ self.now.catalogue }
    {
        &self.catalogue
    }

    /// The users of ServiceAccount objects, as often as the accounts are given, whatever a Universe
    /// document lists (own). With the principals that subjects of bindings stand for they are all
    /// that the export names. Each call derives them anew. Fails only if it runs out of memory.
    pub fn account_users(&self, alloc: Global) -> Result<Principals, AllocError>
        ensures users { IfOk result (λ users. self.now.principals
            ≡ subject_principals self.now.policy.held ++ users) }
        ensures given { IfOk result (All (λ who. given_of who ≡ [])) }
    {
        users_of(alloc, self.accounts.as_slice())
    }

    /// The objects given by several documents, in order of kind, namespace and name, each with how
    /// many earlier documents the last one replaced (own). Doesn't allocate.
    pub fn replaced(&self) -> &[Replaced]
        ensures replaced { result.now ≡ self.now.replaced }
        ensures ordered { IsAscendingBy replaced_name self.now.replaced }
    {
        self.replaced.as_slice()
    }

    /// The groups of all Group documents, in their order, each with the users that the document
    /// lists (OpenShift, "Group"). Several documents may be about one group. Doesn't allocate.
    pub fn memberships(&self) -> &[Membership]
        ensures { result.now ≡ self.now.memberships }
    {
        self.memberships.as_slice()
    }

    /// Whether a rule from which resources are derived names more of them by itself than a universe
    /// may have targets (own). They aren't listed. Fails only if it runs out of memory.
    pub fn has_wide_rule(&self, alloc: Global) -> Result<bool, AllocError>
        ensures { IfOk result
            (λ wide. IsTrue wide → AreTooMany stem_name self.now.lists.resources) }
    {
        let documents = self.documents.as_slice();
        has_wide_rule(alloc, self.policy().objects(), self.catalogue(), documents)
    }

    /// Why the lists make no universe, if a rule by itself names more resources than a universe may
    /// have targets (own): P3 or P4. The resources aren't listed, so it takes no memory for them.
    /// `None` doesn't say that they make one. Fails only if it runs out of memory.
    pub fn fault_of_wide_rule(&self, alloc: Global) -> Result<Option<UniverseFault>, AllocError>
        ensures fault { IfOk result
            (λ found. MatchOption found (Unit {0}) (HasUniverseFault self.now.lists)) }
        ensures memory { IfOk result (λ found. found ≢ Some LacksMemory) }
    {
        let given = self.documents.as_slice();
        fault_of_wide_rule(alloc, self.policy().objects(), self.catalogue(), given)
    }

    /// The lists that a universe is made of (own): each as given by the last Universe document that
    /// has it, otherwise as derived from the objects that are kept, the catalogue, and Namespace
    /// and ServiceAccount objects. Each call derives them anew.
    ///
    /// # Errors
    ///
    /// If it runs out of memory.
    pub fn lists(&self, alloc: Global) -> Result<UniverseLists, AllocError>
        ensures { IfOk result (λ lists. lists ≡ self.now.lists) }
    {
        lists_of(
            alloc,
            self.policy().objects(),
            self.catalogue(),
            self.namespaces.as_slice(),
            self.accounts.as_slice(),
            self.documents.as_slice(),
        )
    }
}

// What a file gives.
#[tactic(auto, using(crate::proofs::Json::json_in_text, crate::proofs::Json::json_in_none), unfolding(crate::specs::Load::file_refusal, crate::specs::Load::contents_of_file))]
fn file_contents(alloc: Global, bytes: &[u8]) -> Result<Vec<Content>, Refusal>
    ensures { Yields result (file_refusal bytes.now) (contents_of_file bytes.now) }
{
    match from_utf8(bytes) {
        Ok(text) => text_contents(alloc, text),
        Err(_) => Err(Refusal::whole(Cause::NotJson)),
    }
}

// Adds what a file gives to `contents`.
fn file_into(alloc: Global, bytes: &[u8], contents: &mut Contents) -> Result<(), Refusal>
    ensures sound { OnOk result (file_refusal bytes.now ≡ None) }
    ensures contents { OnOk result
        (contents.new ≡ with_contents contents.old (contents_of_file bytes.now)) }
    ensures refusal { IfErr result (λ e. e.cause ≢ NoMemory → file_refusal bytes.now ≡ Some e) }
{
    let given = file_contents(alloc, bytes)?;
    contents.take_all(given)?;
    Ok(())
}

// What all inputs give, in order. Fails with the fault of the first document that has one.
#[tactic(auto, using(crate::proofs::ContentsLemmas::contents_next))]
fn contents_of(alloc: Global, inputs: &[Input]) -> Result<Contents, LoadFault>
    ensures sound { OnOk result (document_fault inputs.now ≡ None) }
    ensures contents { IfOk result (λ g. g ≡ sorted_contents (all_contents inputs.now)) }
    ensures fault { IfErr result (λ e. e.cause ≢ NoMemory → document_fault inputs.now ≡ Some e) }
    ensures memory { IfErr result (λ e. e.cause ≡ NoMemory → e.at ≡ None) }
{
    let mut contents = Contents::new(alloc);
    for (file, input) in inputs.iter().enumerate() {
        if let Err(refusal) = file_into(alloc, input.as_bytes(), &mut contents) {
            return Err(LoadFault::in_file(file, refusal));
        }
    }
    Ok(contents)
}

// The objects that several of these documents give.
fn replaced_among(
    alloc: Global,
    objects: &[Object],
    namespaces: &[Word],
    accounts: &[Account],
) -> Result<Vec<Replaced>, LoadFault>
    ensures replaced { IfOk result
        (λ v. AreReplaced (names_given objects.now namespaces.now accounts.now) v.items) }
    ensures memory { IfErr result (λ e. e ≡ record { at = None; cause = NoMemory }) }
{
    match replaced_of(alloc, objects, namespaces, accounts) {
        Ok(replaced) => Ok(replaced),
        Err(_) => Err(LoadFault::no_memory()),
    }
}

/// The policy of these objects, keeping only the last one of each kind, namespace and name (own).
///
/// # Errors
///
/// M11 if there are over 1,000,000 grants. M12 if it runs out of memory.
pub fn load_policy(alloc: Global, objects: Vec<Object>) -> Result<Policy, LoadFault>
    ensures ok { IfOk result (IsResolved objects.items) }
    ensures fault { IfErr result (λ e. e.cause ≢ NoMemory → HasTooManyGrants objects.items e) }
    ensures memory { IfErr result (λ e. e.cause ≡ NoMemory → e.at ≡ None) }
{
    let Ok(held) = Objects::from_given(alloc, objects) else {
        return Err(LoadFault::no_memory());
    };
    match Policy::resolve(alloc, held) {
        Ok(policy) => Ok(policy),
        Err(fault) => Err(unresolved(fault)),
    }
}

// Why inputs are refused if their objects can't be resolved.
fn unresolved(fault: ResolveFault) -> LoadFault
    ensures many { fault ≡ ResolveFault.TooMany → result ≡ too_many }
    ensures memory { fault ≡ ResolveFault.NoMemory
        → result ≡ record { at = None; cause = NoMemory } }
{
    match fault {
        ResolveFault::TooMany => LoadFault::too_many(),
        ResolveFault::NoMemory => LoadFault::no_memory(),
    }
}

/// Reads inputs as [`load`](crate::load) does, and returns the objects that they give, in order,
/// including those that later ones replace.
///
/// # Errors
///
/// The errors of `load` but M11, since no policy is made.
#[tactic(auto, unfolding(crate::specs::Contents::sorted_contents))]
pub fn load_objects(alloc: Global, inputs: &[Input]) -> Result<Vec<Object>, LoadFault>
    ensures ok { IfOk result (λ v. (document_fault inputs.now ≡ None)
        × (v.items ≡ objects_in (all_contents inputs.now))) }
    ensures fault { IfErr result (λ e. e.cause ≢ NoMemory → document_fault inputs.now ≡ Some e) }
    ensures memory { IfErr result (λ e. e.cause ≡ NoMemory → e.at ≡ None) }
{
    let contents = contents_of(alloc, inputs)?;
    Ok(contents.objects)
}

/// Reads inputs as [`load`](crate::load) does, with the same errors, but doesn't derive the lists
/// of a universe.
pub fn load_export(alloc: Global, inputs: &[Input]) -> Result<Export, LoadFault>
    ensures ok { IfOk result (IsLoaded inputs.now) }
    ensures fault { IfErr result (λ e. e.cause ≢ NoMemory → HasFault inputs.now e) }
    ensures memory { IfErr result (λ e. e.cause ≡ NoMemory → e.at ≡ None) }
{
    let Contents {
        objects,
        namespaces,
        accounts,
        catalogue,
        documents,
        memberships,
    } = contents_of(alloc, inputs)?;
    let replaced = replaced_among(
        alloc,
        objects.as_slice(),
        namespaces.as_slice(),
        accounts.as_slice(),
    )?;
    let policy = load_policy(alloc, objects)?;
    Ok(Export {
        policy,
        catalogue,
        namespaces,
        accounts,
        documents,
        replaced,
        memberships,
    })
}
