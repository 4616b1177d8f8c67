//! Rules, and which requests their words match.

ghost use Rattle.std.specs.Prelude.{◌≡◌, ◌++◌, ◌∷◌, [], IsTrue, ◌↔◌, Any, MatchOption};
ghost use Rattle.rbac_terms.specs.Text.{star};
ghost use Rattle.rbac_terms.specs.Matching.{WordMatches, ResourceWordMatches, FollowsFirstSlash};
ghost use Rattle.rbac_terms.specs.Matching.{NameMatches, UrlWordMatches, EndsInStar, TargetOk};
ghost use Rattle.rbac_terms.specs.Matching.{RuleAllows, IsBeforeStars};
ghost use Rattle.rbac_terms.specs.Targets.{Resource};

use crate::items::Items;
use crate::request::Target;
use crate::text::{Word, Words, cut_at_first};

/// A rule of a role: which verbs may be used on which resources or URLs (Using RBAC Authorization,
/// "API objects"). Any lists of words are accepted here; the loader decides what a manifest may
/// contain.
pub struct Rule {
    /// Verbs, or `*` for every verb.
    pub verbs: Words,
    /// API groups, with the core group as the empty text, or `*` for every group.
    pub groups: Words,
    /// Resources like `pods` or `pods/log`, `*/log` for the subresource `log` of every resource, or
    /// `*` for all.
    pub resources: Words,
    /// Object names; an empty list means every name.
    pub resource_names: Words,
    /// URL paths; a `*` at the end of a path means any ending.
    pub urls: Words,
}

impl Drop for Rule {
    fn drop(self) {
        let Self {
            verbs,
            groups,
            resources,
            resource_names,
            urls,
        } = self;
    }
}

/// The rules of a role in their written order: as many as fit in memory.
pub type Rules = Items<Rule>;

/// Whether one of the rule's verbs is `*` or this verb (rbac/v1 evaluation helpers, VerbMatches).
/// Doesn't allocate.
pub fn verb_matches(rule: &Rule, verb: &Word) -> bool
    ensures { IsTrue result ↔ Any (λ w. WordMatches w verb.now) rule.now.verbs }
{
    some_word_matches(&rule.verbs, verb)
}

/// Whether one of the rule's API groups is `*` or this group (rbac/v1 evaluation helpers,
/// APIGroupMatches). The empty text is the core group. Doesn't allocate.
pub fn group_matches(rule: &Rule, group: &Word) -> bool
    ensures { IsTrue result ↔ Any (λ w. WordMatches w group.now) rule.now.groups }
{
    some_word_matches(&rule.groups, group)
}

/// Whether one of the rule's resource words matches this resource text, like `pods` or `pods/log`:
/// the word is `*`, the text itself, or `*/` followed by the text's subresource (rbac/v1 evaluation
/// helpers, ResourceMatches). Doesn't allocate.
pub fn resource_matches(rule: &Rule, text: &Word) -> bool
    ensures { IsTrue result ↔ Any (λ w. ResourceWordMatches w text.now) rule.now.resources }
{
    rule.resources.as_slice().iter().any(|word| resource_word_matches(
        word.as_bytes(),
        text.as_bytes(),
    ))
}

/// Whether the rule has no object names, or has this one (rbac/v1 evaluation helpers,
/// ResourceNameMatches). The name is empty if the request names no object. Doesn't allocate.
pub fn name_matches(rule: &Rule, name: &Word) -> bool
    ensures { IsTrue result ↔ NameMatches rule.now.resource_names name.now }
{
    rule.resource_names.is_empty() || rule.resource_names.contains(name)
}

/// Whether one of the rule's URL words matches this path: the word is the path itself, or ends in
/// `*` and the path begins with the word without its trailing stars (rbac/v1 evaluation helpers,
/// NonResourceURLMatches; more than one star: own). Doesn't allocate.
pub fn url_matches(rule: &Rule, path: &Word) -> bool
    ensures { IsTrue result ↔ Any (λ w. UrlWordMatches w path.now) rule.now.urls }
{
    rule.urls
        .as_slice()
        .iter()
        .any(|word| url_word_matches(word.as_bytes(), path.as_bytes()))
}

/// Whether the rule allows this verb on this target (rbac/v1 evaluation helpers, RuleAllows).
/// Doesn't allocate.
pub fn rule_allows(rule: &Rule, verb: &Word, target: &Target) -> bool
    ensures { IsTrue result ↔ RuleAllows rule.now verb.now target.now }
{
    verb_matches(rule, verb) && target_matches(rule, target)
}

/// Whether the rule matches this target, whatever the verb: a resource by API group, resource text
/// and object name, a URL by its path (rbac/v1 evaluation helpers, RuleAllows). Doesn't allocate.
pub fn target_matches(rule: &Rule, target: &Target) -> bool
    ensures { IsTrue result ↔ TargetOk rule.now target.now }
{
    if target.is_url() {
        url_matches(rule, target.text())
    } else {
        parts_match(rule, target.group(), target.text(), target.name())
    }
}

fn parts_match(rule: &Rule, group: &Word, text: &Word, name: &Word) -> bool
    ensures { IsTrue result ↔ TargetOk rule.now (Resource group.now text.now name.now) }
{
    group_matches(rule, group) && resource_matches(rule, text) && name_matches(rule, name)
}

fn some_word_matches(words: &Words, text: &Word) -> bool
    ensures { IsTrue result ↔ Any (λ w. WordMatches w text.now) words.now }
{
    words
        .as_slice()
        .iter()
        .any(|word| word_matches(word.as_bytes(), text.as_bytes()))
}

fn word_matches(word: &[u8], text: &[u8]) -> bool
    ensures { IsTrue result ↔ WordMatches word.now text.now }
{
    word == b"*".as_slice() || word == text
}

fn resource_word_matches(word: &[u8], text: &[u8]) -> bool
    ensures { IsTrue result ↔ ResourceWordMatches word.now text.now }
{
    if word_matches(word, text) {
        return true;
    }
    match word.strip_prefix(b"*/".as_slice()) {
        Some(subresource) => !subresource.is_empty() && follows_first_slash(text, subresource),
        None => false,
    }
}

// Whether `rest` is what follows the first slash of the text.
fn follows_first_slash(text: &[u8], rest: &[u8]) -> bool
    ensures { IsTrue result ↔ FollowsFirstSlash text.now rest.now }
{
    match cut_at_first(text, b'/') {
        Some((_, found)) => found == rest,
        None => false,
    }
}

fn url_word_matches(word: &[u8], path: &[u8]) -> bool
    ensures { IsTrue result ↔ UrlWordMatches word.now path.now }
{
    if word == path {
        return true;
    }
    let Some(prefix) = before_stars(word) else {
        return false;
    };
    path.starts_with(prefix)
}

/// The part of a word before all stars at its end; `None` if the word doesn't end in a star. A URL
/// word that ends in stars matches the paths that begin with this part (rbac/v1 evaluation helpers,
/// NonResourceURLMatches; more than one star: own). Doesn't allocate.
pub fn before_stars(word: &[u8]) -> Option<&[u8]>
    ensures { MatchOption result (¬ EndsInStar word.now)
        (λ before. IsBeforeStars word.now before.now) }
{
    let mut before = without_star(word)?;
    while let Some(shorter) = without_star(before) {
        before = shorter;
    }
    Some(before)
}

// The text without the star at its end.
fn without_star(text: &[u8]) -> Option<&[u8]>
    ensures { MatchOption result (¬ EndsInStar text.now)
        (λ before. text.now ≡ before.now ++ star ∷ []) }
{
    text.strip_suffix(b"*".as_slice())
}
