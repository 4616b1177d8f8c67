//! A rule whose words are looked up.

ghost use Rattle.std.specs.Prelude.{◌≡◌, ◌↔◌, [], Any, Contains, IfOk, IsTrue, option_copied};
ghost use Rattle.rbac_terms.specs.Text.{Text};
ghost use Rattle.rbac_terms.specs.Matching.{NameMatches, ResourceWordMatches, TargetOk};
ghost use Rattle.rbac_terms.specs.Matching.{UrlWordMatches};
ghost use Rattle.rbac_reaches.specs.Matched.{IsBetween};
ghost use Rattle.rbac_index.specs.Requested.{StemOk};

use crate::subresources::{has_subresource_of, subresources_of};
use crate::url_prefixes::{begins_with_some, url_prefixes_of};
use rbac_covering::WordLookup;
use rbac_terms::{Rule, Target, Word, is_among, sorted_copy};
use std::alloc::{AllocError, Global};
use std::marker::Model;

// A rule, with its words, and the parts of words that have wildcards, in byte order, for binary
// search.
#[derive(Drop)]
pub(crate) struct OrderedRule<'a> {
    rule: &'a Rule,
    names: Vec<Word>,
    subresources: Vec<Word>,
    url_prefixes: Vec<Word>,
    groups: WordLookup<'a>,
    resources: WordLookup<'a>,
    urls: WordLookup<'a>,
}

impl<'a> Model for OrderedRule<'a> {
    ghost use Rattle.std.specs.Prelude.{◌≡◌};
    ghost use Rattle.rbac_terms.specs.declared.matching.Rule.{Rule};
    ghost use Rattle.rbac_terms.specs.Sorted.{IsSortedCopy};
    ghost use Rattle.rbac_reaches.specs.Wildcards.{AreSubresources, AreUrlPrefixes};

    ghost Value = { Rule };

    ghost view = { λ o. o.rule.now };

    ghost invariant = { λ o. (o.groups ≡ o.rule.now.groups) × (o.resources ≡ o.rule.now.resources)
        × (o.urls ≡ o.rule.now.urls) × IsSortedCopy o.rule.now.resource_names o.names.items
        × AreSubresources o.rule.now.resources o.subresources.items
        × AreUrlPrefixes o.rule.now.urls o.url_prefixes.items };
}

impl<'a> OrderedRule<'a> {
    pub(crate) fn new(alloc: Global, rule: &'a Rule) -> Result<Self, AllocError>
        ensures { IfOk result (λ o. o ≡ rule.now) }
    {
        Ok(OrderedRule {
            rule,
            names: sorted_copy(&rule.resource_names)?,
            subresources: subresources_of(alloc, rule.resources.as_slice())?,
            url_prefixes: url_prefixes_of(alloc, rule.urls.as_slice())?,
            groups: WordLookup::new(&rule.groups)?,
            resources: WordLookup::new(&rule.resources)?,
            urls: WordLookup::new(&rule.urls)?,
        })
    }

    // Whether the rule matches the target, verbs aside.
    pub(crate) fn matches(&self, target: &Target) -> bool
        ensures { IsTrue result ↔ TargetOk self.now target.now }
    {
        if target.is_url() {
            self.matches_url(target.text())
        } else {
            self.matches_stem(target) && self.matches_name(target.name())
        }
    }

    // Whether words of the rule match the target's group and resource text.
    pub(crate) fn matches_stem(&self, target: &Target) -> bool
        ensures { IsTrue result ↔ StemOk self.now target.now }
    {
        self.groups.matches(target.group()) && self.matches_resource(target.text())
    }

    // Whether a word of the rule matches this resource text.
    fn matches_resource(&self, text: &Word) -> bool
        ensures { IsTrue result ↔ Any (λ w. ResourceWordMatches w text.now) self.now.resources }
    {
        self.resources.matches(text) || has_subresource_of(self.subresources.as_slice(), text)
    }

    // Whether a word of the rule matches this path.
    fn matches_url(&self, path: &Word) -> bool
        ensures { IsTrue result ↔ Any (λ w. UrlWordMatches w path.now) self.now.urls }
    {
        self.urls.contains(path) || begins_with_some(self.url_prefixes.as_slice(), path)
    }

    // Whether the rule's names match this object name.
    fn matches_name(&self, name: &Word) -> bool
        ensures { IsTrue result ↔ NameMatches self.now.resource_names name.now }
    {
        self.is_nameless() || self.has_name(name)
    }

    // Whether the rule has no object names, and so applies to all objects.
    pub(crate) fn is_nameless(&self) -> bool
        ensures { IsTrue result ↔ (self.now.resource_names ≡ []) }
    {
        self.rule.resource_names.is_empty()
    }

    // Whether the rule has this object name.
    pub(crate) fn has_name(&self, name: &Word) -> bool
        ensures { IsTrue result ↔ Contains self.now.resource_names name.now }
    {
        is_among(self.names.as_slice(), name.as_bytes())
    }

    // The least of the rule's object names after this one.
    pub(crate) fn next_name(&self, name: &Word) -> Option<&Word>
        ensures { (x : Text) → Contains self.now.resource_names x
            → ¬ IsBetween name.now (option_copied result) x }
    {
        let names = self.names.as_slice();
        names.get(names.partition_point(|other| other <= name))
    }
}
