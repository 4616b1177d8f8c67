//! A rule whose words are looked up.

ghost use Rattle.std.specs.Prelude.{◌≡◌, ◌↔◌, Any, IfOk, IsTrue};
ghost use Rattle.rbac_terms.specs.Matching.{NameMatches, ResourceWordMatches, WordMatches};
ghost use Rattle.rbac_model.specs.OwnWords.{AllowsUrlWord};

use crate::word_lookup::WordLookup;
use rbac_model::allows_url_word;
use rbac_terms::{Rule, Word, resource_matches};
use std::alloc::{AllocError, Global};
use std::marker::Model;

/// A rule, with copies of the words of its long lists in byte order, for binary search. A list is
/// long if it has 16 words or more.
pub struct OrderedRule<'a> {
    rule: &'a Rule,
    verbs: WordLookup<'a>,
    groups: WordLookup<'a>,
    resources: WordLookup<'a>,
    names: WordLookup<'a>,
    urls: WordLookup<'a>,
}

impl Drop for OrderedRule<'_> {
    fn drop(self) {
        let Self {
            rule,
            verbs,
            groups,
            resources,
            names,
            urls,
        } = self;
    }
}

impl<'a> Model for OrderedRule<'a> {
    ghost use Rattle.std.specs.Prelude.{◌≡◌};
    ghost use Rattle.rbac_terms.specs.declared.matching.Rule.{Rule};

    ghost Value = { Rule };

    ghost view = { λ o. o.rule.now };

    ghost invariant = { λ o. (o.verbs ≡ o.rule.now.verbs) × (o.groups ≡ o.rule.now.groups)
        × (o.resources ≡ o.rule.now.resources) × (o.names ≡ o.rule.now.resource_names)
        × (o.urls ≡ o.rule.now.urls) };
}

impl<'a> OrderedRule<'a> {
    /// The rule, with the words of its long lists in order. Fails only if it runs out of memory.
    pub fn new(rule: &'a Rule) -> Result<Self, AllocError>
        ensures { IfOk result (λ o. o ≡ rule.now) }
    {
        Ok(OrderedRule {
            rule,
            verbs: WordLookup::new(&rule.verbs)?,
            groups: WordLookup::new(&rule.groups)?,
            resources: WordLookup::new(&rule.resources)?,
            names: WordLookup::new(&rule.resource_names)?,
            urls: WordLookup::new(&rule.urls)?,
        })
    }

    /// The rule itself.
    pub fn rule(&self) -> &'a Rule
        ensures { result.now ≡ self.now }
    {
        self.rule
    }

    /// Whether a word of the rule matches this verb, as [`rbac_terms::verb_matches`] does. Doesn't
    /// allocate.
    pub fn verb_matches(&self, verb: &Word) -> bool
        ensures { IsTrue result ↔ Any (λ w. WordMatches w verb.now) self.now.verbs }
    {
        self.verbs.matches(verb)
    }

    /// Whether a word of the rule matches this API group, as [`rbac_terms::group_matches`] does.
    /// Doesn't allocate.
    pub fn group_matches(&self, group: &Word) -> bool
        ensures { IsTrue result ↔ Any (λ w. WordMatches w group.now) self.now.groups }
    {
        self.groups.matches(group)
    }

    /// Whether a word of the rule matches this resource text, as [`rbac_terms::resource_matches`]
    /// does. Doesn't allocate.
    pub fn resource_matches(&self, text: &Word) -> bool
        ensures { IsTrue result ↔ Any (λ w. ResourceWordMatches w text.now) self.now.resources }
    {
        self.resources.matches(text) || resource_matches(self.rule, text)
    }

    /// Whether the rule's names match this object name, as [`rbac_terms::name_matches`] does.
    /// Doesn't allocate.
    pub fn name_matches(&self, name: &Word) -> bool
        ensures { IsTrue result ↔ NameMatches self.now.resource_names name.now }
    {
        self.rule.resource_names.is_empty() || self.names.contains(name)
    }

    /// Whether the rule allows this URL word, taken as a text, as [`rbac_model::allows_url_word`]
    /// does. Doesn't allocate.
    pub fn allows_url_word(&self, word: &Word) -> bool
        ensures { IsTrue result ↔ AllowsUrlWord self.now word.now }
    {
        self.urls.contains(word) || allows_url_word(self.rule, word)
    }
}

/// These rules, with the words of their long lists in order. Fails only if it runs out of memory.
pub fn ordered_rules<'a>(
    alloc: Global,
    rules: &'a [Rule],
) -> Result<Vec<OrderedRule<'a>>, AllocError>
    ensures { IfOk result (λ v. v.items ≡ rules.now) }
{
    let mut ordered = Vec::new(alloc);
    for rule in rules {
        ordered.push(OrderedRule::new(rule)?)?;
    }
    Ok(ordered)
}
