//! Whether a rule allows everything that another rule allows.

ghost use Rattle.std.specs.Prelude.{IsTrue, ◌↔◌};
ghost use Rattle.rbac_model.specs.Universes.{Covers};
ghost use Rattle.rbac_covering.specs.Covering.{AllowsSamples, HasResource, HasUrl};
ghost use Rattle.rbac_covering.specs.Covering.{CoversResources, CoversUrls};
ghost use Rattle.rbac_covering.specs.Covering.{AllowsVerb, AllowsGroup, AllowsResource, AllowsName};
ghost use Rattle.rbac_covering.specs.Covering.{AllowsUrl, AllowsVerbs, AllowsGroups};
ghost use Rattle.rbac_covering.specs.Covering.{AllowsResources};
ghost use Rattle.rbac_covering.specs.Covering.{AllowsNames, AllowsUrls};

use crate::ordered_rule::OrderedRule;
use rbac_model::gives_path;
use rbac_terms::{Rule, Word, is_resource_text};

/// Whether the rule `a` allows each verb on each target on which the rule `b` allows it: for all
/// possible requests, whatever a universe lists (own). Asking `a` about samples is enough: the own
/// words of `b`, taken as texts, and, if `b` has no names, a name longer than all names of `a`.
/// Doesn't allocate.
pub fn covers(a: &OrderedRule<'_>, b: &Rule) -> bool
    ensures all { IsTrue result ↔ Covers a.now b.now }
    ensures samples { IsTrue result ↔ AllowsSamples a.now b.now }
    ensures lists { IsTrue result ↔ (CoversResources a.now b.now × CoversUrls a.now b.now) }
{
    covers_resources(a, b) && covers_urls(a, b)
}

// The resources are checked first, since few rules are about the same resources.
fn covers_resources(a: &OrderedRule<'_>, b: &Rule) -> bool
    ensures { IsTrue result ↔ CoversResources a.now b.now }
{
    !has_resource(b)
        || allows_resources(a, b) && allows_verbs(a, b) && allows_groups(a, b) && allows_names(a, b)
}

fn covers_urls(a: &OrderedRule<'_>, b: &Rule) -> bool
    ensures { IsTrue result ↔ CoversUrls a.now b.now }
{
    !has_url(b) || allows_verbs(a, b) && allows_urls(a, b)
}

#[tactic(auto, unfolding(crate::specs::Covering::AllowsVerbs))]
fn allows_verbs(a: &OrderedRule<'_>, b: &Rule) -> bool
    ensures { IsTrue result ↔ AllowsVerbs a.now b.now }
{
    b.verbs.as_slice().iter().all(|verb| allows_verb(a, verb))
}

#[tactic(auto, unfolding(crate::specs::Covering::AllowsVerb))]
fn allows_verb(a: &OrderedRule<'_>, verb: &Word) -> bool
    ensures { IsTrue result ↔ AllowsVerb a.now verb.now }
{
    a.verb_matches(verb)
}

#[tactic(auto, unfolding(crate::specs::Covering::AllowsGroups))]
fn allows_groups(a: &OrderedRule<'_>, b: &Rule) -> bool
    ensures { IsTrue result ↔ AllowsGroups a.now b.now }
{
    b.groups
        .as_slice()
        .iter()
        .all(|group| allows_group(a, group))
}

#[tactic(auto, unfolding(crate::specs::Covering::AllowsGroup))]
fn allows_group(a: &OrderedRule<'_>, group: &Word) -> bool
    ensures { IsTrue result ↔ AllowsGroup a.now group.now }
{
    a.group_matches(group)
}

#[tactic(auto, unfolding(crate::specs::Covering::AllowsResources))]
fn allows_resources(a: &OrderedRule<'_>, b: &Rule) -> bool
    ensures { IsTrue result ↔ AllowsResources a.now b.now }
{
    b.resources
        .as_slice()
        .iter()
        .all(|text| allows_resource(a, text))
}

#[tactic(auto, unfolding(crate::specs::Covering::AllowsResource))]
fn allows_resource(a: &OrderedRule<'_>, text: &Word) -> bool
    ensures { IsTrue result ↔ AllowsResource a.now text.now }
{
    !is_resource_text(text.as_bytes()) || a.resource_matches(text)
}

#[tactic(auto, unfolding(crate::specs::Covering::AllowsNames))]
fn allows_names(a: &OrderedRule<'_>, b: &Rule) -> bool
    ensures { IsTrue result ↔ AllowsNames a.now b.now }
{
    let names = b.resource_names.as_slice();
    (a.rule().resource_names.is_empty() || !names.is_empty())
        && names.iter().all(|name| allows_name(a, name))
}

#[tactic(auto, unfolding(crate::specs::Covering::AllowsName))]
fn allows_name(a: &OrderedRule<'_>, name: &Word) -> bool
    ensures { IsTrue result ↔ AllowsName a.now name.now }
{
    a.name_matches(name)
}

#[tactic(auto, unfolding(crate::specs::Covering::AllowsUrls))]
fn allows_urls(a: &OrderedRule<'_>, b: &Rule) -> bool
    ensures { IsTrue result ↔ AllowsUrls a.now b.now }
{
    b.urls.as_slice().iter().all(|word| allows_url(a, word))
}

#[tactic(auto, unfolding(crate::specs::Covering::AllowsUrl))]
fn allows_url(a: &OrderedRule<'_>, word: &Word) -> bool
    ensures { IsTrue result ↔ AllowsUrl a.now word.now }
{
    !gives_path(word) || a.allows_url_word(word)
}

/// Whether the rule allows some verb on some resource (own). Doesn't allocate.
#[tactic(auto, unfolding(crate::specs::Covering::HasResource))]
pub fn has_resource(rule: &Rule) -> bool
    ensures { IsTrue result ↔ HasResource rule.now }
{
    !rule.verbs.is_empty()
        && !rule.groups.is_empty()
        && rule
            .resources
            .as_slice()
            .iter()
            .any(|text| is_resource_text(text.as_bytes()))
}

/// Whether the rule allows some verb on some URL (own). Doesn't allocate.
#[tactic(auto, unfolding(crate::specs::Covering::HasUrl))]
pub fn has_url(rule: &Rule) -> bool
    ensures { IsTrue result ↔ HasUrl rule.now }
{
    !rule.verbs.is_empty() && rule.urls.as_slice().iter().any(|word| gives_path(word))
}
