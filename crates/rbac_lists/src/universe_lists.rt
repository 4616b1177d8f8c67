//! The lists that a universe is made of, each given or derived.

ghost use Rattle.std.specs.Prelude.{◌≡◌, ◌≢◌, ◌↔◌, [], IfOk, List, IsTrue, All, MatchOption};
ghost use Rattle.std.specs.Prelude.{Some, unwrap_or};
ghost use Rattle.std.specs.Option.{option_copied, option_or};
ghost use Rattle.rbac_lists.specs.Derived.{principals_of, namespaces_of, verbs_of, resources_of};
ghost use Rattle.rbac_lists.specs.Derived.{names_of, urls_of};
ghost use Rattle.rbac_lists.specs.Meant.{last_given, given_or as last_or_derived, lists_meant};
ghost use Rattle.rbac_lists.specs.Wide.{has_wide_rule, AreTooMany};
ghost use Rattle.rbac_lists.specs.declared.given_lists.Account.{Account as Listed};
ghost use Rattle.rbac_terms.specs.Text.{Text};
ghost use Rattle.rbac_terms.specs.Targets.{is_path};
ghost use Rattle.rbac_universe.specs.Sets.{HasUniverseFault};
ghost use Rattle.rbac_universe.specs.Stems.{stem_name};
ghost use Rattle.rbac_universe.specs.declared.fault.UniverseFault.TheVariants.{NoMemory};

use crate::derived_lists::{
    names_of, namespaces_of, principals_of, resources_of, urls_of, verbs_of,
};
use crate::given_lists::{Account, GivenLists};
use crate::wide::has_wide_source;
use rbac_catalogue::Catalogue;
use rbac_model::Objects;
use rbac_terms::{Word, Words, is_path};
use rbac_universe::{ListedResources, Principals, UniverseFault, UniverseLists};
use std::alloc::{AllocError, Global};

// Of each list, the last one that the documents give.
#[derive(Drop)]
struct LastLists<'a> {
    principals: Option<&'a Principals>,
    namespaces: Option<&'a Words>,
    verbs: Option<&'a Words>,
    resources: Option<&'a ListedResources>,
    names: Option<&'a Words>,
    urls: Option<&'a Words>,
}

/// The lists that a universe is made of (own). Each is taken from the last Universe document that
/// has this list, even if it is empty. If no document has the list, it is derived from the objects
/// that are kept, the catalogue, the names of Namespace objects and the ServiceAccount objects.
/// Fails only if it runs out of memory.
pub fn lists_of(
    alloc: Global,
    objects: &Objects,
    catalogue: &Catalogue,
    namespaces: &[Word],
    accounts: &[Account],
    documents: &[GivenLists],
) -> Result<UniverseLists, AllocError>
    ensures { IfOk result (λ lists.
        lists ≡ lists_meant objects.now catalogue.now namespaces.now accounts.now documents.now) }
{
    let given = last_lists(documents);
    lists_over(alloc, objects, catalogue, namespaces, accounts, given)
}

/// Whether the resources of a universe are derived from rules, and one of these rules by itself
/// names more different resources than a universe may have targets (own). They are counted, and not
/// listed. Fails only if it runs out of memory.
pub fn has_wide_rule(
    alloc: Global,
    objects: &Objects,
    catalogue: &Catalogue,
    documents: &[GivenLists],
) -> Result<bool, AllocError>
    ensures wide { IfOk result
        (λ wide. wide ≡ has_wide_rule objects.now catalogue.now documents.now) }
    ensures many { IfOk result (λ wide. IsTrue wide → AreTooMany stem_name
        (last_or_derived (resources_of objects.now catalogue.now) (λ d. d.resources) documents.now)) }
{
    if last_lists(documents).resources.is_some() || catalogue.is_given() {
        return Ok(false);
    }
    has_wide_source(alloc, objects)
}

/// Why the lists make no universe, if a rule by itself names too many resources: P3 BadTarget if a
/// given URL isn't a path, otherwise P4 TooLarge. `None` if no rule does, or if the lists have no
/// object name, so that no resource is asked about. The resources aren't listed. Fails only if it
/// runs out of memory.
pub fn fault_of_wide_rule(
    alloc: Global,
    objects: &Objects,
    catalogue: &Catalogue,
    documents: &[GivenLists],
) -> Result<Option<UniverseFault>, AllocError>
    ensures none { IfOk result (λ found. MatchOption found
        (¬ (IsTrue (has_wide_rule objects.now catalogue.now documents.now)
        × (last_or_derived (names_of objects.now) (λ d. d.names) documents.now ≢ [])))
        (λ fault. fault ≢ NoMemory)) }
    ensures fault { IfOk result (λ found.
        (namespaces : List Text) (accounts : List Listed) → MatchOption found (Unit {0})
        (HasUniverseFault
        (lists_meant objects.now catalogue.now namespaces accounts documents.now))) }
{
    if !has_wide_rule(alloc, objects, catalogue, documents)? {
        return Ok(None);
    }
    let last = last_lists(documents);
    if is_given_empty(last.names) {
        return Ok(None);
    }
    if are_paths(last.urls) {
        return Ok(Some(UniverseFault::TooLarge));
    }
    Ok(Some(UniverseFault::BadTarget))
}

// Whether a list is given, and is empty.
fn is_given_empty(given: Option<&Words>) -> bool
    ensures { IsTrue result ↔ (option_copied given.entry ≡ Some []) }
{
    match given {
        Some(words) => words.is_empty(),
        None => false,
    }
}

// Whether each URL is a path, if URLs are given.
fn are_paths(given: Option<&Words>) -> bool
    ensures { IsTrue result
        ↔ MatchOption (option_copied given.entry) (Unit {0}) (All (λ path. IsTrue (is_path path))) }
{
    match given {
        Some(urls) => urls.as_slice().iter().all(|path| is_path(path.as_bytes())),
        None => true,
    }
}

// Each list given or derived.
fn lists_over(
    alloc: Global,
    objects: &Objects,
    catalogue: &Catalogue,
    names: &[Word],
    accounts: &[Account],
    given: LastLists<'_>,
) -> Result<UniverseLists, AllocError>
    ensures principals { IfOk result
        (λ lists. lists.principals
        ≡ unwrap_or (option_copied given.entry.principals)
        (principals_of objects.now accounts.now)) }
    ensures namespaces { IfOk result
        (λ lists. lists.namespaces
        ≡ unwrap_or (option_copied given.entry.namespaces)
        (namespaces_of objects.now names.now accounts.now)) }
    ensures verbs { IfOk result
        (λ lists. lists.verbs
        ≡ unwrap_or (option_copied given.entry.verbs) (verbs_of objects.now catalogue.now)) }
    ensures resources { IfOk result
        (λ lists. lists.resources
        ≡ unwrap_or (option_copied given.entry.resources)
        (resources_of objects.now catalogue.now)) }
    ensures names { IfOk result
        (λ lists. lists.names
        ≡ unwrap_or (option_copied given.entry.names) (names_of objects.now)) }
    ensures urls { IfOk result
        (λ lists. lists.urls ≡ unwrap_or (option_copied given.entry.urls) (urls_of objects.now)) }
{
    Ok(UniverseLists {
        principals: given_or(given.principals, || principals_of(alloc, objects, accounts))?,
        namespaces: given_or(given.namespaces, || {
            namespaces_of(alloc, objects, names, accounts)
        })?,
        verbs: given_or(given.verbs, || verbs_of(alloc, objects, catalogue))?,
        resources: given_or(given.resources, || resources_of(alloc, objects, catalogue))?,
        names: given_or(given.names, || names_of(alloc, objects))?,
        urls: given_or(given.urls, || urls_of(alloc, objects))?,
    })
}

// Of each list, the last one that these documents give.
fn last_lists(documents: &[GivenLists]) -> LastLists<'_>
    ensures principals { option_copied result.principals
        ≡ last_given (λ d. d.principals) documents.now }
    ensures namespaces { option_copied result.namespaces
        ≡ last_given (λ d. d.namespaces) documents.now }
    ensures verbs { option_copied result.verbs ≡ last_given (λ d. d.verbs) documents.now }
    ensures resources { option_copied result.resources
        ≡ last_given (λ d. d.resources) documents.now }
    ensures names { option_copied result.names ≡ last_given (λ d. d.names) documents.now }
    ensures urls { option_copied result.urls ≡ last_given (λ d. d.urls) documents.now }
{
    let mut last = LastLists {
        principals: None,
        namespaces: None,
        verbs: None,
        resources: None,
        names: None,
        urls: None,
    };
    for document in documents {
        last = over(document, last);
    }
    last
}

// The lists of this document; a list that it leaves out is taken from the earlier documents.
fn over<'a>(document: &'a GivenLists, earlier: LastLists<'a>) -> LastLists<'a>
    ensures principals { option_copied result.principals
        ≡ option_or document.now.principals (option_copied earlier.entry.principals) }
    ensures namespaces { option_copied result.namespaces
        ≡ option_or document.now.namespaces (option_copied earlier.entry.namespaces) }
    ensures verbs { option_copied result.verbs
        ≡ option_or document.now.verbs (option_copied earlier.entry.verbs) }
    ensures resources { option_copied result.resources
        ≡ option_or document.now.resources (option_copied earlier.entry.resources) }
    ensures names { option_copied result.names
        ≡ option_or document.now.names (option_copied earlier.entry.names) }
    ensures urls { option_copied result.urls
        ≡ option_or document.now.urls (option_copied earlier.entry.urls) }
{
    LastLists {
        principals: document.principals.as_ref().or(earlier.principals),
        namespaces: document.namespaces.as_ref().or(earlier.namespaces),
        verbs: document.verbs.as_ref().or(earlier.verbs),
        resources: document.resources.as_ref().or(earlier.resources),
        names: document.names.as_ref().or(earlier.names),
        urls: document.urls.as_ref().or(earlier.urls),
    }
}

// The list that is given, even if it is empty, otherwise the derived one.
fn given_or<T: Clone, F: FnOnce() -> Result<T, AllocError>>(
    given: Option<&T>,
    derive: F,
) -> Result<T, AllocError>
    requires { F.IsAlwaysCallable derive }
    ensures { MatchOption (option_copied given.entry)
        (F.post derive result) (λ list. IfOk result (T.is_clone list)) }
{
    match given {
        Some(list) => list.clone(),
        None => derive(),
    }
}
