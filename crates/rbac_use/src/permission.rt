//! The permissions of a rule.

ghost use Rattle.std.specs.Prelude.{◌≡◌, ◌↔◌, ◌∷◌, [], Contains, IfOk, IsTrue};
ghost use Rattle.std.specs.Prelude.{option_and_then, option_copied, option_map, slice_get};
ghost use Rattle.rbac_use.specs.Permissions.{AreFirstOfResource, AreFirstPlaces, IsFirstName};
ghost use Rattle.rbac_use.specs.Permissions.{IsFirstPlace, names_at, no_names};
ghost use Rattle.rbac_use.specs.Permissions.{permission_at, resource_permission, url_permission};

use rbac_terms::{Rule, Word, Words};
use std::alloc::{AllocError, Global};

/// The places of the words of a permission's target in the lists of its rule, each from 0.
#[derive(Clone, Copy, Debug, Drop)]
pub enum TargetPlaces {
    /// A URL.
    Url(usize),
    /// A resource.
    Resource {
        /// The place of the API group.
        group: usize,
        /// The place of the resource.
        resource: usize,
        /// The place of the object name; none for any name.
        name: Option<usize>,
    },
}

// The rule for the words at these places, if the lists of the rule have them.
pub(crate) fn permission_at(
    alloc: Global,
    rule: &Rule,
    verb: usize,
    target: TargetPlaces,
) -> Result<Option<Rule>, AllocError>
    ensures { IfOk result (λ permission. permission ≡ permission_at rule.now verb target) }
{
    let Some(verb) = rule.verbs.as_slice().get(verb) else {
        return Ok(None);
    };
    match target {
        TargetPlaces::Url(url) => on_url(alloc, verb, rule.urls.as_slice().get(url)),
        TargetPlaces::Resource {
            group,
            resource,
            name,
        } => on_resource(alloc, verb, rule, group, resource, name),
    }
}

// The rule for the verb on this URL, if there is one.
fn on_url(alloc: Global, verb: &Word, url: Option<&Word>) -> Result<Option<Rule>, AllocError>
    ensures { IfOk result (λ permission. permission
        ≡ option_map (λ url. url_permission verb.now url) (option_copied url.entry)) }
{
    let Some(url) = url else {
        return Ok(None);
    };
    let verbs = one(alloc, verb)?;
    let urls = one(alloc, url)?;
    Ok(Some(Rule {
        verbs,
        groups: Words::new(alloc),
        resources: Words::new(alloc),
        resource_names: Words::new(alloc),
        urls,
    }))
}

// The rule for the verb on the resource with the words at these places.
fn on_resource(
    alloc: Global,
    verb: &Word,
    rule: &Rule,
    group: usize,
    resource: usize,
    name: Option<usize>,
) -> Result<Option<Rule>, AllocError>
    ensures { IfOk result (λ permission. permission
        ≡ option_and_then (λ group. option_and_then (λ resource. option_map
        (λ names. resource_permission verb.now group resource names)
        (names_at rule.now.resource_names name)) (slice_get rule.now.resources resource))
        (slice_get rule.now.groups group)) }
{
    let Some(group) = rule.groups.as_slice().get(group) else {
        return Ok(None);
    };
    let Some(resource) = rule.resources.as_slice().get(resource) else {
        return Ok(None);
    };
    let Some(resource_names) = names_at(alloc, &rule.resource_names, name)? else {
        return Ok(None);
    };
    let verbs = one(alloc, verb)?;
    let groups = one(alloc, group)?;
    let resources = one(alloc, resource)?;
    Ok(Some(Rule {
        verbs,
        groups,
        resources,
        resource_names,
        urls: Words::new(alloc),
    }))
}

// The object name at this place, alone; without a place none, if the rule has none.
fn names_at(alloc: Global, names: &Words, place: Option<usize>) -> Result<Option<Words>, AllocError>
    ensures { IfOk result (λ found. found ≡ names_at names.now place) }
{
    let Some(place) = place else {
        return Ok(no_names(alloc, names));
    };
    match names.as_slice().get(place) {
        Some(name) => Ok(Some(one(alloc, name)?)),
        None => Ok(None),
    }
}

// No object names, if there are none.
fn no_names(alloc: Global, names: &Words) -> Option<Words>
    ensures { result ≡ no_names names.now }
{
    if names.is_empty() {
        Some(Words::new(alloc))
    } else {
        None
    }
}

// A list of this word alone.
fn one(alloc: Global, word: &Word) -> Result<Words, AllocError>
    ensures { IfOk result (λ words. words ≡ word.now ∷ []) }
{
    let mut words = Vec::new(alloc);
    words.push(word.clone()?)?;
    Ok(Words::from_vec(words))
}

// Whether the words at these places aren't at earlier ones, too.
pub(crate) fn are_first(rule: &Rule, verb: usize, target: TargetPlaces) -> bool
    ensures { IsTrue result ↔ AreFirstPlaces rule.now verb target }
{
    if !is_first(rule.verbs.as_slice(), verb) {
        return false;
    }
    match target {
        TargetPlaces::Url(url) => is_first(rule.urls.as_slice(), url),
        TargetPlaces::Resource {
            group,
            resource,
            name,
        } => are_first_of_resource(rule, group, resource, name),
    }
}

fn are_first_of_resource(rule: &Rule, group: usize, resource: usize, name: Option<usize>) -> bool
    ensures { IsTrue result ↔ AreFirstOfResource rule.now group resource name }
{
    if !is_first(rule.groups.as_slice(), group) {
        return false;
    }
    is_first(rule.resources.as_slice(), resource)
        && is_first_name(rule.resource_names.as_slice(), name)
}

fn is_first_name(names: &[Word], place: Option<usize>) -> bool
    ensures { IsTrue result ↔ IsFirstName names.now place }
{
    match place {
        Some(place) => is_first(names, place),
        None => true,
    }
}

// Whether the list has a word at this place, and not at an earlier one.
fn is_first(words: &[Word], place: usize) -> bool
    ensures { IsTrue result ↔ IsFirstPlace words.now place }
{
    match words.get(place) {
        Some(word) => !has_word(&words[..place], word),
        None => false,
    }
}

fn has_word(words: &[Word], word: &Word) -> bool
    ensures { IsTrue result ↔ Contains words.now word.now }
{
    words.contains(word)
}
