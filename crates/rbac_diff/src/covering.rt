//! Whether rules allow all requests that a permission stands for, decided by its words taken as
//! texts.

ghost use Rattle.std.specs.Prelude.{◌≡◌, ◌↔◌, IfOk, IsTrue, Any, Some, []};
ghost use Rattle.std.specs.Option.{option_copied};
ghost use Rattle.rbac_terms.specs.Matching.{ResourceWordMatches};
ghost use Rattle.rbac_model.specs.OwnWords.{GivesPath};
ghost use Rattle.rbac_covering.specs.Covering.{CoversAll};
ghost use Rattle.rbac_diff.specs.Covering.{CoversName, CoversTarget, CoversWords, IsAskedFor};
ghost use Rattle.rbac_diff.specs.Permissions.{OnUrl, one_star};
ghost use Rattle.rbac_diff.specs.Shown.{permitted_of};

use crate::permission::Permitted;
use crate::unchanged::same_rule;
use rbac_covering::{OrderedRule, covers as covers_all};
use rbac_model::gives_path;
use rbac_terms::{
    Rule, Word, Words, group_matches, is_resource_text, name_matches, resource_matches,
    verb_matches,
};
use std::alloc::AllocError;

// Whether what is permitted includes a request: a RoleBinding in the empty namespace is live
// nowhere, and some words match no proper target.
pub(crate) fn is_asked_for(target: Permitted<'_>) -> bool
    ensures { IsTrue result ↔ IsAskedFor (permitted_of target.entry) }
{
    match target {
        Permitted::Resource {
            namespace,
            group: _,
            resource,
            name: _,
        } => !is_empty_namespace(namespace) && is_resource_text(resource.as_bytes()),
        Permitted::Url(word) => is_asked_url(word),
    }
}

fn is_empty_namespace(namespace: Option<&Word>) -> bool
    ensures { IsTrue result ↔ (option_copied namespace.entry ≡ Some []) }
{
    match namespace {
        Some(namespace) => namespace.is_empty(),
        None => false,
    }
}

// Whether one of the rules allows the verb word on what is permitted.
pub(crate) fn is_covered(rules: &[OrderedRule<'_>], verb: &Word, target: Permitted<'_>) -> bool
    ensures { IsTrue result
        ↔ Any (λ r. CoversWords verb.now (permitted_of target.entry) r) rules.now }
{
    rules.iter().any(|rule| covers(rule, verb, target))
}

fn covers(rule: &OrderedRule<'_>, verb: &Word, target: Permitted<'_>) -> bool
    ensures { IsTrue result ↔ CoversWords verb.now (permitted_of target.entry) rule.now }
{
    covers_target(rule, target) && rule.verb_matches(verb)
}

fn covers_target(rule: &OrderedRule<'_>, target: Permitted<'_>) -> bool
    ensures { IsTrue result ↔ CoversTarget rule.now (permitted_of target.entry) }
{
    match target {
        Permitted::Resource {
            namespace: _,
            group,
            resource,
            name,
        } => covers_object(rule, resource, name) && rule.group_matches(group),
        Permitted::Url(word) => covers_url(rule, word),
    }
}

// Whether the rule allows this resource word, taken as a text, for this object name, or without one
// for any.
fn covers_object(rule: &OrderedRule<'_>, resource: &Word, name: Option<&Word>) -> bool
    ensures { IsTrue result
        ↔ (Any (λ w. ResourceWordMatches w resource.now) rule.now.resources
        × CoversName rule.now.resource_names (option_copied name.entry)) }
{
    rule.resource_matches(resource) && covers_name(rule, name)
}

fn covers_name(rule: &OrderedRule<'_>, name: Option<&Word>) -> bool
    ensures { IsTrue result ↔ CoversName rule.now.resource_names (option_copied name.entry) }
{
    match name {
        Some(name) => rule.name_matches(name),
        None => rule.rule().resource_names.is_empty(),
    }
}

// Whether the rule allows this URL word, taken as a text.
fn covers_url(rule: &OrderedRule<'_>, word: &Word) -> bool
    ensures { IsTrue result ↔ CoversTarget rule.now (OnUrl (one_star word.now)) }
{
    rule.allows_url_word(word)
}

// Whether the URL word, taken as a text, is a path.
fn is_asked_url(word: &Word) -> bool
    ensures { IsTrue result ↔ GivesPath (one_star word.now) }
{
    gives_path(word)
}

// Whether the rule allows every request that the other one allows (own). Two quick tests come
// first: most rules are equal, and most that don't cover the other lack its first words.
pub(crate) fn covers_rule(rule: &Rule, other: &Rule) -> Result<bool, AllocError>
    ensures { IfOk result (λ covers. IsTrue covers → CoversAll rule.now other.now) }
{
    if same_rule(rule, other) {
        return Ok(true);
    }
    if !allows_first_words(rule, other) {
        return Ok(false);
    }
    Ok(covers_all(&OrderedRule::new(rule)?, other))
}

// Whether the rule allows the first word in each list of the other one.
fn allows_first_words(rule: &Rule, other: &Rule) -> bool {
    first(&other.resources).is_none_or(|text| resource_matches(rule, text))
        && first(&other.groups).is_none_or(|group| group_matches(rule, group))
        && first(&other.resource_names).is_none_or(|name| name_matches(rule, name))
        && first(&other.verbs).is_none_or(|verb| verb_matches(rule, verb))
}

fn first(words: &Words) -> Option<&Word> {
    words.as_slice().first()
}
