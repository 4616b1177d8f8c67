//! Which resource a type word means.

ghost use Rattle.std.specs.Prelude.{◌≡◌, IsTrue, ◌↔◌, IfOk, MatchOption, Any, ⊤};
ghost use Rattle.std.specs.Option.{option_copied};
ghost use Rattle.std.specs.declared.cmp.Ordering.TheVariants.{Less};
ghost use Rattle.rbac_catalogue.specs.Lookups.{IsCalled, HasWords, IsNamed, IsNamedInGroup};
ghost use Rattle.rbac_catalogue.specs.Lookups.{resource_of};
ghost use Rattle.rbac_catalogue.specs.Lookups.{resource_cmp, IsLeastOf, IsMeantIn, IsFound};

use crate::entry::Entry;
use rbac_terms::{Word, cut_at_first};
use std::alloc::{AllocError, Global};
use std::cmp::Ordering;

/// The resource that a type word means.
#[derive(Drop)]
pub struct Found {
    /// The API group, empty for the core group.
    pub group: Word,
    /// The resource, like `pods`, or the word as written if it names no resource.
    pub resource: Word,
}

fn is_called(word: &[u8], entry: &Entry) -> bool
    ensures { IsTrue result ↔ IsCalled word.now entry.now }
{
    word == entry.name.as_bytes()
        || word == entry.singular.as_bytes()
        || entry.short_names.contains_bytes(word)
}

// Whether words can name the entry.
fn has_words(entry: &Entry) -> bool
    ensures { IsTrue result ↔ HasWords entry.now }
{
    !entry.name.is_empty() && !entry.name.as_bytes().contains(&b'/')
}

// Whether the word names the entry.
fn is_named(word: &[u8], entry: &Entry) -> bool
    ensures { IsTrue result ↔ IsNamed word.now entry.now }
{
    if word.is_empty() || !has_words(entry) {
        return false;
    }
    is_called(word, entry)
}

// Whether the word names the entry in that group, or in any if none is given.
fn is_named_in(group: Option<&[u8]>, word: &[u8], entry: &Entry) -> bool
    ensures { IsTrue result ↔ IsNamedInGroup (option_copied group.entry) word.now entry.now }
{
    match group {
        None => is_named(word, entry),
        Some(group) => entry.group.as_bytes() == group && is_named(word, entry),
    }
}

// The order of the resources that two entries are about.
fn cmp_resource(a: &Entry, b: &Entry) -> Ordering
    ensures { result ≡ resource_cmp (resource_of a.now) (resource_of b.now) }
{
    a.group.cmp(&b.group).then(a.name.cmp(&b.name))
}

// Whether the entry comes before the one found so far.
fn comes_before(entry: &Entry, least: Option<&Entry>) -> bool
    ensures { IsTrue result ↔ MatchOption (option_copied least.entry) ⊤
        (λ e. resource_cmp (resource_of entry.now) (resource_of e) ≡ Less) }
{
    match least {
        None => true,
        Some(least) => cmp_resource(entry, least).is_lt(),
    }
}

// The least of the entries that the word names in that group, or in any if none is given.
fn least_named<'a>(entries: &'a [Entry], group: Option<&[u8]>, word: &[u8]) -> Option<&'a Entry>
    ensures { let P = IsNamedInGroup (option_copied group.entry) word.now in
        MatchOption (option_copied result) (¬ Any P entries.now)
        (λ e. IsLeastOf P entries.now (resource_of e)) }
{
    let mut least = None;
    for entry in entries {
        if is_named_in(group, word, entry) && comes_before(entry, least) {
            least = Some(entry);
        }
    }
    least
}

// A resource with copies of these texts.
fn found_from(alloc: Global, group: &[u8], resource: &[u8]) -> Result<Found, AllocError>
    ensures { IfOk result (λ f. f ≡ record { group = group.now; resource = resource.now }) }
{
    Ok(Found {
        group: Word::from_slice(alloc, group)?,
        resource: Word::from_slice(alloc, resource)?,
    })
}

// What the word means in that group, or in any if none is given.
fn meant(
    alloc: Global,
    entries: &[Entry],
    group: Option<&[u8]>,
    word: &[u8],
) -> Result<Found, AllocError>
    ensures { IfOk result (IsMeantIn entries.now (option_copied group.entry) word.now) }
{
    match least_named(entries, group, word) {
        Some(entry) => found_from(alloc, entry.group.as_bytes(), entry.name.as_bytes()),
        None => found_from(alloc, group.unwrap_or(&[]), word),
    }
}

// What a type word means.
#[tactic(auto, unfolding(crate::specs::Lookups::IsFound))]
pub(crate) fn resource_meant(
    alloc: Global,
    entries: &[Entry],
    typed: &Word,
) -> Result<Found, AllocError>
    ensures { IfOk result (IsFound entries.now typed.now) }
{
    match cut_at_first(typed.as_bytes(), b'.') {
        Some((word, group)) => meant(alloc, entries, Some(group), word),
        None => meant(alloc, entries, None, typed.as_bytes()),
    }
}
