//! What a grant lacks, if its binding names who asks.

ghost use Rattle.std.specs.Prelude.{◌≡◌, ◌≢◌, ◌↔◌, [], ◌∷◌, Any, IsTrue, Some};
ghost use Rattle.rbac_terms.specs.Matching.{ResourceWordMatches};
ghost use Rattle.rbac_terms.specs.Targets.{Resource};
ghost use Rattle.rbac_terms.specs.Text.{star};
ghost use Rattle.rbac_model.specs.Sources.{grant_of};
ghost use Rattle.rbac_near.specs.Lacking.{LacksOfTarget};
ghost use Rattle.rbac_near.specs.Near.{CountsElsewhere, IsBeforeSubresource, IsOfResource, LacksGroup};
ghost use Rattle.rbac_near.specs.Near.{LacksName, LacksPart, LacksSubresource, request_of};
ghost use Rattle.rbac_near.specs.declared.near.Missing.{Missing};
ghost use Rattle.rbac_near.specs.declared.near.Missing.TheVariants.{Namespace};

use crate::near::{Missing, Request};
use rbac_model::{Grant, is_live, is_live_in};
use rbac_terms::{
    Rule, Scope, Target, Word, cut_at_first, group_matches, name_matches, resource_matches,
    rule_allows, target_matches, verb_matches,
};

// The one thing that the grant lacks to allow the request to whom its binding names; `None` if it
// lacks nothing, or more.
pub(crate) fn missing_in(request: Request<'_>, grant: Grant<'_>) -> Option<Missing>
    ensures { (m : Missing) → (result ≡ Some m)
        ↔ LacksPart (request_of request.entry) m (grant_of grant.entry) }
{
    if !is_live(grant.binding, request.namespace, request.target) {
        return lacks_namespace(request, grant).then_some(Missing::Namespace);
    }
    if !verb_matches(grant.rule, request.verb) {
        return target_matches(grant.rule, request.target).then_some(Missing::Verb);
    }
    missing_of_target(grant.rule, request.target)
}

// Whether the grant lacks only that its binding counts where the request is made.
fn lacks_namespace(request: Request<'_>, grant: Grant<'_>) -> bool
    ensures { IsTrue result
        ↔ LacksPart (request_of request.entry) Namespace (grant_of grant.entry) }
{
    counts_elsewhere(request, grant) && rule_allows(grant.rule, request.verb, request.target)
}

// Whether the grant's binding doesn't count where the request is made, but in another namespace.
fn counts_elsewhere(request: Request<'_>, grant: Grant<'_>) -> bool
    ensures { IsTrue result ↔ CountsElsewhere (request_of request.entry) (grant_of grant.entry) }
{
    request.is_namespaced
        && !is_live(grant.binding, request.namespace, request.target)
        && is_live_in(&Scope::Anywhere, grant.binding, request.target)
}

// The one thing that the rule lacks to match the target.
fn missing_of_target(rule: &Rule, target: &Target) -> Option<Missing>
    ensures { (m : Missing) → (result ≡ Some m) ↔ LacksOfTarget m rule.now target.now }
{
    if target.is_url() {
        return None;
    }
    missing_of_parts(rule, target.group(), target.text(), target.name())
}

// The one thing that the rule lacks to match a resource by these parts.
fn missing_of_parts(rule: &Rule, group: &Word, text: &Word, name: &Word) -> Option<Missing>
    ensures { (m : Missing) → (result ≡ Some m)
        ↔ LacksOfTarget m rule.now (Resource group.now text.now name.now) }
{
    if lacks_group(rule, group, text, name) {
        return Some(Missing::Group);
    }
    if lacks_subresource(rule, group, text, name) {
        return Some(Missing::Subresource);
    }
    lacks_name(rule, group, text, name).then_some(Missing::Name)
}

// Whether the rule lacks only an API group that matches.
fn lacks_group(rule: &Rule, group: &Word, text: &Word, name: &Word) -> bool
    ensures { IsTrue result ↔ LacksGroup rule.now (Resource group.now text.now name.now) }
{
    !group_matches(rule, group) && resource_matches(rule, text) && name_matches(rule, name)
}

// Whether the rule lacks only the subresource.
fn lacks_subresource(rule: &Rule, group: &Word, text: &Word, name: &Word) -> bool
    ensures { IsTrue result ↔ LacksSubresource rule.now (Resource group.now text.now name.now) }
{
    group_matches(rule, group) && has_other_subresource(rule, text) && name_matches(rule, name)
}

// Whether the rule lacks only the object name.
fn lacks_name(rule: &Rule, group: &Word, text: &Word, name: &Word) -> bool
    ensures { IsTrue result ↔ LacksName rule.now (Resource group.now text.now name.now) }
{
    group_matches(rule, group) && resource_matches(rule, text) && !name_matches(rule, name)
}

// Whether no resource word of the rule matches this text, but one is for the same resource.
fn has_other_subresource(rule: &Rule, text: &Word) -> bool
    ensures { IsTrue result ↔ ((¬ Any (λ w. ResourceWordMatches w text.now) rule.now.resources)
        × Any (IsOfResource text.now) rule.now.resources) }
{
    !resource_matches(rule, text) && has_word_of(rule, text)
}

// Whether a resource word of the rule is for the resource of this text, or for a subresource of it.
fn has_word_of(rule: &Rule, text: &Word) -> bool
    ensures { IsTrue result ↔ Any (IsOfResource text.now) rule.now.resources }
{
    rule.resources
        .as_slice()
        .iter()
        .any(|word| is_of_resource(text.as_bytes(), word.as_bytes()))
}

// Whether the word is for the resource of this text, or for a subresource of it.
fn is_of_resource(text: &[u8], word: &[u8]) -> bool
    ensures { IsTrue result ↔ IsOfResource text.now word.now }
{
    let part = before_subresource(text);
    is_one_resource(part) && part == before_subresource(word)
}

// Whether the part before a subresource is of one resource, and neither missing nor a star.
fn is_one_resource(part: &[u8]) -> bool
    ensures { IsTrue result ↔ ((part.now ≢ []) × (part.now ≢ star ∷ [])) }
{
    !part.is_empty() && part != b"*".as_slice()
}

// What stands before the first slash of a resource text, or all of it.
fn before_subresource(text: &[u8]) -> &[u8]
    ensures { IsBeforeSubresource text.now result.now }
{
    match cut_at_first(text, b'/') {
        Some((part, _)) => part,
        None => text,
    }
}
