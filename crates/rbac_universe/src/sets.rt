//! The sets of a universe, before its targets are made.

ghost use Rattle.std.specs.Prelude.{◌≡◌, ◌≤◌, ◌↔◌, [], IsTrue, IfOk, All, length};
ghost use Rattle.rbac_terms.specs.Text.{text_cmp};
ghost use Rattle.rbac_terms.specs.Targets.{Resource, IsProper, is_path};
ghost use Rattle.rbac_model.specs.Lists.{IsOnceEach};
ghost use Rattle.rbac_universe.specs.Sets.{AreProper, IsWithinLimits};
ghost use Rattle.rbac_model.specs.Universes.{most_targets, most_words};

use crate::lists::{ListedResource, UniverseLists};
use crate::stems::{count_targets, stems_of};
use crate::unions::united;
use rbac_terms::{Principal, Word, Words, is_path, is_resource_text};
use std::alloc::{AllocError, Global};

/// The sets of a universe, with the stems and names from which its targets are made.
#[derive(Drop)]
pub(crate) struct UniverseSets {
    pub(crate) principals: Vec<Principal>,
    pub(crate) namespaces: Vec<Word>,
    pub(crate) verbs: Vec<Word>,
    pub(crate) stems: Vec<ListedResource>,
    pub(crate) names: Vec<Word>,
}

// The limits of a universe, counted without repeats: for principals, namespaces and verbs each, and
// for targets (own).
const MOST_WORDS: usize = 65_535;

const MOST_TARGETS: u128 = 1_000_000;

impl UniverseSets {
    ghost use Rattle.rbac_universe.specs.UniverseSets.{AreUniverseSets, universe_of};

    // The sets of these lists, whose resources and URLs are proper.
    pub(crate) fn of(alloc: Global, lists: &UniverseLists) -> Result<Self, AllocError>
        requires { AreProper lists.now }
        ensures { IfOk result (AreUniverseSets lists.now) }
    {
        let stems = stems_of(alloc, lists)?;
        Ok(UniverseSets {
            principals: united(alloc, principals_of(lists)?)?,
            namespaces: once_each(alloc, &lists.namespaces)?,
            verbs: once_each(alloc, &lists.verbs)?,
            stems: united(alloc, stems)?,
            names: once_each(alloc, &lists.names)?,
        })
    }

    // Whether none of the sets is too large.
    pub(crate) fn is_within_limits(&self) -> bool
        ensures { IsTrue result ↔ IsWithinLimits (universe_of self.now) }
    {
        self.has_few_words() && self.has_few_targets()
    }

    fn has_few_words(&self) -> bool
        ensures { IsTrue result
            ↔ ((length self.now.principals.items ≤ most_words)
            × (length self.now.namespaces.items ≤ most_words)
            × (length self.now.verbs.items ≤ most_words)) }
    {
        self.principals.len() <= MOST_WORDS
            && self.namespaces.len() <= MOST_WORDS
            && self.verbs.len() <= MOST_WORDS
    }

    fn has_few_targets(&self) -> bool
        ensures { IsTrue result ↔ (length (universe_of self.now).targets ≤ most_targets) }
    {
        count_targets(self.stems.as_slice(), self.names.as_slice()) <= MOST_TARGETS
    }
}

// A copy of the principals, in the order listed.
fn principals_of(lists: &UniverseLists) -> Result<Vec<Principal>, AllocError>
    ensures { IfOk result (λ copy. copy.items ≡ lists.now.principals) }
{
    Ok(lists.principals.clone()?.into_vec())
}

// The texts, each once, in order.
fn once_each(alloc: Global, words: &Words) -> Result<Vec<Word>, AllocError>
    ensures { IfOk result (λ once. IsOnceEach text_cmp words.now once.items) }
{
    let mut once = copies_of(alloc, words.as_slice())?;
    once.sort()?;
    once.dedup();
    Ok(once)
}

fn copies_of(alloc: Global, words: &[Word]) -> Result<Vec<Word>, AllocError>
    ensures { IfOk result (λ copy. copy.items ≡ words.now) }
{
    Vec::from_clones(alloc, words)
}

// Whether a request can ask for each listed resource and each listed URL.
pub(crate) fn are_proper(lists: &UniverseLists) -> bool
    ensures { IsTrue result ↔ AreProper lists.now }
{
    are_resources(lists.resources.as_slice()) && are_urls(lists.urls.as_slice())
}

fn are_resources(resources: &[ListedResource]) -> bool
    ensures { IsTrue result ↔ All (λ r. IsProper (Resource r.group r.text [])) resources.now }
{
    resources.iter().all(|resource| is_resource(resource))
}

fn is_resource(resource: &ListedResource) -> bool
    ensures { IsTrue result ↔ IsProper (Resource resource.now.group resource.now.text []) }
{
    is_resource_text(resource.text.as_bytes())
}

fn are_urls(urls: &[Word]) -> bool
    ensures { IsTrue result ↔ All (λ path. IsTrue (is_path path)) urls.now }
{
    urls.iter().all(|path| is_path(path.as_bytes()))
}
