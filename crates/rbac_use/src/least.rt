//! The least policy of one user: rules that allow what the user needs, and nothing else.

ghost use Rattle.std.specs.Prelude.{◌≡◌, ◌≢◌, ◌⊎◌, ◌↔◌, ◌++◌, ◌∷◌, [], Any, Contains, IfOk};
ghost use Rattle.std.specs.Prelude.{IsTrue, List, OnOk};
ghost use Rattle.rbac_use.specs.Grouping.{AreInOrder};
ghost use Rattle.rbac_use.specs.Least.{AllowsNeeded};
ghost use Rattle.rbac_use.specs.LeastRules.{ArePartsOf, HasRulesOf, IsLeastOf, IsTurned, key_of};
ghost use Rattle.rbac_use.specs.LeastRules.{kind_for, name_rule, pair_of, part_of, rule_of};
ghost use Rattle.rbac_use.specs.Requests.{request_of};
ghost use Rattle.rbac_use.specs.declared.grouping.Group.{Group};
ghost use Rattle.rbac_use.specs.declared.grouping.Pair.{Pair};

use crate::grouping::{Group, Kind, Pair, RuleKey, grouped, with_words};
use crate::log::Log;
use crate::needs::needed;
use crate::request::Request;
use rbac_model::Policy;
use rbac_terms::{Rule, Rules, Word, Words};
use std::alloc::{AllocError, Global};

/// The rules of a namespace.
#[derive(Drop)]
pub struct NamespaceRules {
    /// The namespace; never empty.
    pub namespace: Word,
    /// The rules, none of which has URLs.
    pub rules: Rules,
}

/// What one user may do, as rules that are bound to it.
#[derive(Drop)]
pub struct Least {
    /// The rules for the whole cluster: those for resources, then those for URLs.
    pub everywhere: Rules,
    /// The rules of each namespace, in order of namespaces.
    pub namespaces: Vec<NamespaceRules>,
}

/// The least policy of the user (own): it allows what this user needs, which are the requests of
/// the log that the user makes, that the policy allows, and that a rule can be written for. With
/// `names`, rules keep the object names; otherwise they allow any. A rule has the resources of one
/// API group, or the URLs, that were asked for with the same verbs; with `names`, one resource and
/// the object names that were asked for with the same verbs. Requests without a name have rules
/// without names, which allow any. The verbs, resources, object names and URLs of a rule are in byte
/// order. So are namespaces; and rules are in order of their kind, which is any name, names,
/// resources and URLs, then of the API group, the resource with `names`, and the verbs. Fails only
/// if it runs out of memory.
pub fn least_of(
    alloc: Global,
    policy: &Policy,
    log: &Log,
    user: &Word,
    names: bool,
) -> Result<Least, AllocError>
    ensures least { IfOk result (λ least. IsLeastOf policy.now log.now user.now names least) }
    ensures needed { IfOk result (λ least. AllowsNeeded policy.now log.now user.now names least) }
{
    let requests = needed(alloc, policy, log, user)?;
    let verbs = grouped(alloc, asked_pairs(alloc, requests.as_slice(), names)?)?;
    let rules = grouped(alloc, turned(alloc, verbs.as_slice())?)?;
    least_from(alloc, rules.as_slice())
}

// The verb of each request, under the words of its target.
fn asked_pairs(
    alloc: Global,
    requests: &[Request<'_>],
    names: bool,
) -> Result<Vec<Pair>, AllocError>
    ensures { IfOk result (λ pairs. (x : Pair) → Contains pairs.items x
        ↔ Any (λ q. pair_of names (request_of q) ≡ x) requests.now) }
{
    let mut pairs = Vec::with_capacity(alloc, requests.len())?;
    for request in requests {
        pairs.push(pair_of(alloc, *request, names)?)?;
    }
    Ok(pairs)
}

// The verb of the request, under the words of its target.
fn pair_of(alloc: Global, request: Request<'_>, names: bool) -> Result<Pair, AllocError>
    ensures { IfOk result (λ pair. pair ≡ pair_of names (request_of request.entry)) }
{
    Ok(Pair {
        key: key_of(alloc, request, names)?,
        word: request.verb.clone()?,
    })
}

// The words of the request's target.
fn key_of(alloc: Global, request: Request<'_>, names: bool) -> Result<RuleKey, AllocError>
    ensures { IfOk result (λ key. key ≡ key_of names (request_of request.entry)) }
{
    let target = request.target;
    if target.is_url() {
        return Ok(RuleKey {
            namespace: Word::new(alloc),
            kind: Kind::Urls,
            group: Word::new(alloc),
            resource: Word::new(alloc),
            words: one(alloc, target.text())?,
        });
    }
    if names {
        return Ok(RuleKey {
            namespace: request.namespace.clone()?,
            kind: kind_for(target.name()),
            group: target.group().clone()?,
            resource: target.text().clone()?,
            words: one(alloc, target.name())?,
        });
    }
    Ok(RuleKey {
        namespace: request.namespace.clone()?,
        kind: Kind::Resources,
        group: target.group().clone()?,
        resource: Word::new(alloc),
        words: one(alloc, target.text())?,
    })
}

// Whether a rule with this object name has names.
fn kind_for(name: &Word) -> Kind
    ensures { result ≡ kind_for name.now }
{
    if name.is_empty() {
        Kind::AnyName
    } else {
        Kind::Names
    }
}

// A list of this word alone.
fn one(alloc: Global, word: &Word) -> Result<Words, AllocError>
    ensures { IfOk result (λ words. words ≡ word.now ∷ []) }
{
    let mut words = Words::new(alloc);
    words.push(word.clone()?)?;
    Ok(words)
}

// The words of the groups' keys, under the same keys with the words of the groups.
fn turned(alloc: Global, groups: &[Group]) -> Result<Vec<Pair>, AllocError>
    ensures { IfOk result (λ pairs. (x : Pair) → Contains pairs.items x
        ↔ Any (λ g. IsTurned g x) groups.now) }
{
    let mut pairs = Vec::new(alloc);
    for group in groups {
        add_turned(group, &mut pairs)?;
    }
    Ok(pairs)
}

// Adds the words of the group's key, under the same key with the words of the group.
fn add_turned(group: &Group, pairs: &mut Vec<Pair>) -> Result<(), AllocError>
    ensures { OnOk result ((x : Pair) → Contains pairs.new.items x
        ↔ (Contains pairs.old.items x ⊎ IsTurned group.now x)) }
{
    for word in group.key.words.as_slice() {
        pairs.push(Pair {
            key: with_words(&group.key, &group.words)?,
            word: word.clone()?,
        })?;
    }
    Ok(())
}

// The rules of these groups of words under verbs.
fn least_from(alloc: Global, groups: &[Group]) -> Result<Least, AllocError>
    requires { AreInOrder groups.now }
    ensures { IfOk result (HasRulesOf groups.now) }
{
    let mut least = Least {
        everywhere: Rules::new(alloc),
        namespaces: Vec::new(alloc),
    };
    for group in groups {
        add_rule(alloc, group, &mut least)?;
    }
    Ok(least)
}

// The rule for these words with the verbs of their key.
fn rule_of(alloc: Global, group: &Group) -> Result<Rule, AllocError>
    ensures { IfOk result (λ rule. rule ≡ rule_of group.now) }
{
    let verbs = group.key.words.clone()?;
    let words = group.words.clone()?;
    match group.key.kind {
        Kind::Urls => Ok(Rule {
            verbs,
            groups: Words::new(alloc),
            resources: Words::new(alloc),
            resource_names: Words::new(alloc),
            urls: words,
        }),
        Kind::Resources => Ok(Rule {
            verbs,
            groups: one(alloc, &group.key.group)?,
            resources: words,
            resource_names: Words::new(alloc),
            urls: Words::new(alloc),
        }),
        Kind::Names => on_resource(alloc, &group.key, verbs, words),
        Kind::AnyName => on_resource(alloc, &group.key, verbs, Words::new(alloc)),
    }
}

// The rule for these verbs on the key's resource with these object names.
fn on_resource(alloc: Global, key: &RuleKey, verbs: Words, names: Words) -> Result<Rule, AllocError>
    requires { verbs ≡ key.now.words }
    ensures { IfOk result (λ rule. rule ≡ name_rule key.now names) }
{
    Ok(Rule {
        verbs,
        groups: one(alloc, &key.group)?,
        resources: one(alloc, &key.resource)?,
        resource_names: names,
        urls: Words::new(alloc),
    })
}

// Adds the rule of a group that comes after all others: to its namespace, or to the whole cluster
// if it has none.
fn add_rule(alloc: Global, group: &Group, least: &mut Least) -> Result<(), AllocError>
    ensures { (done : List Group) → HasRulesOf done least.old
        → AreInOrder (done ++ group.now ∷ [])
        → OnOk result (HasRulesOf (done ++ group.now ∷ []) least.new) }
{
    let rule = rule_of(alloc, group)?;
    if group.key.namespace.is_empty() {
        least.everywhere.push(rule)?;
        return Ok(());
    }
    add_to_part(alloc, &group.key.namespace, rule, &mut least.namespaces)
}

// Adds a rule of a namespace: to the last one, if it is that, and otherwise to a new one.
fn add_to_part(
    alloc: Global,
    namespace: &Word,
    rule: Rule,
    parts: &mut Vec<NamespaceRules>,
) -> Result<(), AllocError>
    requires { namespace.now ≢ [] }
    ensures { (done : List Group) (group : Group) → group.key.namespace ≡ namespace.now
        → rule_of group ≡ rule → ArePartsOf done parts.old.items
        → AreInOrder (done ++ group ∷ [])
        → OnOk result (ArePartsOf (done ++ group ∷ []) parts.new.items) }
{
    let count = parts.as_slice().len();
    if count == 0 {
        return add_part(alloc, namespace, rule, parts);
    }
    if is_same(&parts[count - 1].namespace, namespace) {
        parts[count - 1].rules.push(rule)?;
        return Ok(());
    }
    add_part(alloc, namespace, rule, parts)
}

// Adds a namespace with one rule.
fn add_part(
    alloc: Global,
    namespace: &Word,
    rule: Rule,
    parts: &mut Vec<NamespaceRules>,
) -> Result<(), AllocError>
    ensures { OnOk result (parts.new.items
        ≡ parts.old.items ++ part_of namespace.now (rule ∷ []) ∷ []) }
{
    let mut rules = Rules::new(alloc);
    rules.push(rule)?;
    parts.push(NamespaceRules {
        namespace: namespace.clone()?,
        rules,
    })?;
    Ok(())
}

// Whether two words are the same.
fn is_same(word: &Word, other: &Word) -> bool
    ensures { IsTrue result ↔ (word.now ≡ other.now) }
{
    word == other
}
