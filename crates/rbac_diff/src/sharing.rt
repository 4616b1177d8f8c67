//! Rules of the other policy that share words with a rule: only these can cover a permission of the
//! rule.

ghost use Rattle.std.specs.Prelude.{◌↔◌, Any, IfOk, IsTrue};
ghost use Rattle.rbac_model.specs.OwnWords.{AllowsUrlWord};
ghost use Rattle.rbac_covering.specs.Covering.{AllowsGroup, AllowsVerb};
ghost use Rattle.rbac_diff.specs.Sharing.{AllowsResourceWord, AreSharing, SharesResource};
ghost use Rattle.rbac_diff.specs.Sharing.{SharesWords};

use rbac_model::allows_url_word;
use rbac_terms::{Rule, Word, group_matches, resource_matches, verb_matches};
use std::alloc::{AllocError, Global};

// The given rules that share words with the rule.
pub(crate) fn sharing<'a>(
    alloc: Global,
    rules: &[&'a Rule],
    rule: &Rule,
) -> Result<Vec<&'a Rule>, AllocError>
    ensures { IfOk result (λ near. AreSharing rules.now rule.now near.items) }
{
    let mut near = Vec::new(alloc);
    for held in rules {
        if shares_words(held, rule) {
            near.push(*held)?;
        }
    }
    Ok(near)
}

// Whether the held rule allows a verb of the rule, and a resource or a URL of it.
fn shares_words(held: &Rule, rule: &Rule) -> bool
    ensures { IsTrue result ↔ SharesWords held.now rule.now }
{
    shares_verb(held, rule) && (shares_resource(held, rule) || shares_url(held, rule))
}

fn shares_verb(held: &Rule, rule: &Rule) -> bool
    ensures { IsTrue result ↔ Any (AllowsVerb held.now) rule.now.verbs }
{
    rule.verbs
        .as_slice()
        .iter()
        .any(|verb| allows_verb(held, verb))
}

#[tactic(auto, unfolding(rbac_covering::specs::Covering::AllowsVerb))]
fn allows_verb(held: &Rule, verb: &Word) -> bool
    ensures { IsTrue result ↔ AllowsVerb held.now verb.now }
{
    verb_matches(held, verb)
}

fn shares_resource(held: &Rule, rule: &Rule) -> bool
    ensures { IsTrue result ↔ SharesResource held.now rule.now }
{
    shares_text(held, rule) && shares_group(held, rule)
}

fn shares_text(held: &Rule, rule: &Rule) -> bool
    ensures { IsTrue result ↔ Any (AllowsResourceWord held.now) rule.now.resources }
{
    rule.resources
        .as_slice()
        .iter()
        .any(|text| allows_resource(held, text))
}

#[tactic(auto, unfolding(crate::specs::Sharing::AllowsResourceWord))]
fn allows_resource(held: &Rule, text: &Word) -> bool
    ensures { IsTrue result ↔ AllowsResourceWord held.now text.now }
{
    resource_matches(held, text)
}

fn shares_group(held: &Rule, rule: &Rule) -> bool
    ensures { IsTrue result ↔ Any (AllowsGroup held.now) rule.now.groups }
{
    rule.groups
        .as_slice()
        .iter()
        .any(|group| allows_group(held, group))
}

#[tactic(auto, unfolding(rbac_covering::specs::Covering::AllowsGroup))]
fn allows_group(held: &Rule, group: &Word) -> bool
    ensures { IsTrue result ↔ AllowsGroup held.now group.now }
{
    group_matches(held, group)
}

fn shares_url(held: &Rule, rule: &Rule) -> bool
    ensures { IsTrue result ↔ Any (AllowsUrlWord held.now) rule.now.urls }
{
    rule.urls
        .as_slice()
        .iter()
        .any(|word| allows_url_word(held, word))
}
