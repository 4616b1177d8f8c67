//! The rules that nodes have.

ghost use Rattle.std.specs.Prelude.{◌≡◌, ◌<◌, ◌≤◌, ◌++◌, ◌∷◌, ◌↔◌, ℕ, [], Contains, IfOk, IsSomeAnd, IsTrue};
ghost use Rattle.std.specs.Prelude.{MatchOption, OnOk, Some, codes, length, map, slice_get};
ghost use Rattle.std.specs.Option.{option_copied};
ghost use Rattle.rbac_terms.specs.declared.granting.ClusterRole.{ClusterRole};
ghost use Rattle.rbac_model.specs.Lists.{IsAscendingBy};
ghost use Rattle.rbac_model.specs.Policies.{AreGathered, cluster_role_name};
ghost use Rattle.rbac_model.specs.Sources.{grant_of};
ghost use Rattle.rbac_paths.specs.Having.{AreHoldings, rule_of_all};
ghost use Rattle.rbac_paths.specs.Nodes.{ClusterRoleIn, Somebody, node_of};
ghost use Rattle.rbac_paths.specs.Told.{AddsGiven, AreSourceRoles, HasItsRole, IsSourceAt};
ghost use Rattle.rbac_paths.specs.Told.{grant_holding, holdings_at};

use crate::node::Node;
use rbac_model::{Grant, Named, Policy};
use rbac_subjects::SubjectIndex;
use rbac_terms::{ClusterRole, Principal, Rule, Rules, Word, Words};
use std::alloc::{AllocError, Global};
use std::marker::Model;

/// A rule that a node has, and where the rule counts: in the namespace `home`, or in the whole
/// cluster if `home` is `None`.
#[derive(Drop)]
pub(crate) struct Holding<'p> {
    pub(crate) home: Option<&'p Word>,
    pub(crate) rule: &'p Rule,
}

impl<'p> Model for Holding<'p> {
    ghost use Rattle.std.specs.Option.{option_copied};
    ghost use Rattle.rbac_paths.specs.Having.{HoldingView};

    ghost Value = { HoldingView };

    ghost view = { λ h. record { home = option_copied h.home; rule = h.rule.now } };
}

impl<'p> Holding<'p> {
    // The holding that a grant gives to each principal that its binding names.
    pub(crate) fn by(grant: Grant<'p>) -> Self
        ensures { result ≡ grant_holding (grant_of grant.entry) }
    {
        Holding {
            home: grant.binding.namespace.as_ref(),
            rule: grant.rule,
        }
    }
}

// The word that matches every verb, API group, resource and URL.
const STAR: &[u8] = b"*";

/// The rule that allows every request.
pub(crate) fn rule_of_all(alloc: Global) -> Result<Rule, AllocError>
    ensures { IfOk result (λ rule. rule ≡ rule_of_all) }
{
    Ok(Rule {
        verbs: star(alloc)?,
        groups: star(alloc)?,
        resources: star(alloc)?,
        resource_names: Words::new(alloc),
        urls: star(alloc)?,
    })
}

// A list with the one word `*`.
fn star(alloc: Global) -> Result<Words, AllocError>
    ensures { IfOk result (λ words. words ≡ codes "*" ∷ []) }
{
    let mut words = Words::new(alloc);
    words.push(Word::from_slice(alloc, STAR)?)?;
    Ok(words)
}

/// The rules that a node has. A user or a group has the rules of the grants whose bindings name it.
/// A role has its written rules, or, if it is aggregated, the rules that it gathers. Everything in
/// a scope has the rule that allows every request.
pub(crate) fn holdings_of<'p>(
    alloc: Global,
    policy: &'p Policy,
    index: &SubjectIndex<'p>,
    all: &'p Rule,
    node: Node<'p>,
) -> Result<Vec<Holding<'p>>, AllocError>
    requires index { index.now ≡ policy.now }
    requires all { all.now ≡ rule_of_all }
    requires role { HasItsRole policy.now.held (node_of node) }
    ensures { IfOk result (λ hs. AreHoldings policy.now (node_of node.entry) hs.items) }
{
    match node {
        Node::Somebody(who) => of_somebody(alloc, policy, index, who),
        Node::ClusterRole(role, scope) => of_cluster_role(alloc, policy, role, scope),
        Node::Role(role) => with_rules(alloc, Some(&role.namespace), &role.rules),
        Node::Everything(scope) => with_rule(alloc, scope, all),
    }
}

// The rules of the grants whose bindings name this principal.
fn of_somebody<'p>(
    alloc: Global,
    policy: &'p Policy,
    index: &SubjectIndex<'p>,
    who: &Principal,
) -> Result<Vec<Holding<'p>>, AllocError>
    requires { index.now ≡ policy.now }
    ensures { IfOk result (λ hs. AreHoldings policy.now (Somebody who.now) hs.items) }
{
    let mut holdings = Vec::new(alloc);
    let mut from = 0;
    while let Some((start, end)) = index.next_named(who, from) {
        push_grants(policy, start, end, &mut holdings)?;
        from = end;
    }
    Ok(holdings)
}

// Adds the holdings that the grants `start..end` give.
fn push_grants<'p>(
    policy: &'p Policy,
    start: u32,
    end: u32,
    holdings: &mut Vec<Holding<'p>>,
) -> Result<(), AllocError>
    requires ordered { start ≤ end }
    requires within { end ≤ length policy.now.grants }
    ensures { OnOk result (AddsGiven policy.now start end holdings.old.items holdings.new.items) }
{
    for no in start..end {
        holdings.push(Holding::by(policy.grant(no)))?;
    }
    Ok(())
}

// The rules of a cluster role that is bound in a scope.
fn of_cluster_role<'p>(
    alloc: Global,
    policy: &'p Policy,
    role: &'p ClusterRole,
    scope: Option<&'p Word>,
) -> Result<Vec<Holding<'p>>, AllocError>
    requires { Contains policy.now.held.cluster_roles role.now }
    ensures { IfOk result (λ hs. AreHoldings policy.now
        (ClusterRoleIn role.now (option_copied scope.entry)) hs.items) }
{
    let sources = sources_of(alloc, policy, role)?;
    let mut holdings = Vec::new(alloc);
    for source in sources.as_slice() {
        push_rules(scope, &source.rules, &mut holdings)?;
    }
    Ok(holdings)
}

// The cluster roles whose written rules a cluster role has: the role itself if it is plain,
// otherwise the plain roles that it gathers from.
pub(crate) fn sources_of<'p>(
    alloc: Global,
    policy: &'p Policy,
    role: &'p ClusterRole,
) -> Result<Vec<&'p ClusterRole>, AllocError>
    requires { Contains policy.now.held.cluster_roles role.now }
    ensures { IfOk result
        (λ ss. AreSourceRoles policy.now.held role.now (map (λ s. s.now) ss.items)) }
{
    if role.aggregation.is_some() {
        return gathered_by(alloc, policy, role);
    }
    let mut own = Vec::new(alloc);
    own.push(role)?;
    Ok(own)
}

// The plain cluster roles that a cluster role reaches by selection steps.
fn gathered_by<'p>(
    alloc: Global,
    policy: &'p Policy,
    role: &ClusterRole,
) -> Result<Vec<&'p ClusterRole>, AllocError>
    requires { Contains policy.now.held.cluster_roles role.now }
    ensures { IfOk result (λ ss. AreGathered policy.now.held role.now (map (λ s. s.now) ss.items)) }
{
    let mut gathered = Vec::new(alloc);
    let roles = policy.objects().cluster_roles();
    let Some(at) = place_of(roles, role) else {
        return Ok(gathered);
    };
    for (to, source) in roles.iter().enumerate() {
        if is_source(policy, at, to) {
            gathered.push(source)?;
        }
    }
    Ok(gathered)
}

// The place of a cluster role in a list that contains it.
fn place_of(roles: &[ClusterRole], role: &ClusterRole) -> Option<usize>
    requires ascending { IsAscendingBy cluster_role_name roles.now }
    requires among { Contains roles.now role.now }
    ensures { IsSomeAnd result (λ at. slice_get roles.now at ≡ Some role.now) }
{
    roles.binary_search_by(|held| held.cmp_name(role)).ok()
}

// Whether the cluster role at place `at` reaches the one at place `to`, and the latter is plain.
fn is_source(policy: &Policy, at: usize, to: usize) -> bool
    requires at { at < length policy.now.held.cluster_roles }
    requires to { to < length policy.now.held.cluster_roles }
    ensures { (role : ClusterRole) → slice_get policy.now.held.cluster_roles at ≡ Some role
        → IsTrue result ↔ IsSourceAt policy.now.held role to }
{
    policy.reaches(at, to) && policy.objects().cluster_roles()[to].aggregation.is_none()
}

// A holding for each of these rules, which count in `home`.
fn with_rules<'p>(
    alloc: Global,
    home: Option<&'p Word>,
    rules: &'p Rules,
) -> Result<Vec<Holding<'p>>, AllocError>
    ensures { IfOk result (λ hs. hs.items ≡ holdings_at (option_copied home.entry) rules.now) }
{
    let mut holdings = Vec::new(alloc);
    push_rules(home, rules, &mut holdings)?;
    Ok(holdings)
}

// The one holding of this rule, which counts in `home`.
fn with_rule<'p>(
    alloc: Global,
    home: Option<&'p Word>,
    rule: &'p Rule,
) -> Result<Vec<Holding<'p>>, AllocError>
    ensures { IfOk result
        (λ hs. hs.items ≡ holdings_at (option_copied home.entry) (rule.now ∷ [])) }
{
    let mut holdings = Vec::new(alloc);
    holdings.push(Holding { home, rule })?;
    Ok(holdings)
}

// Adds a holding for each of these rules, which count in `home`.
fn push_rules<'p>(
    home: Option<&'p Word>,
    rules: &'p Rules,
    holdings: &mut Vec<Holding<'p>>,
) -> Result<(), AllocError>
    ensures { OnOk result (holdings.new.items
        ≡ holdings.old.items ++ holdings_at (option_copied home.entry) rules.now) }
{
    for rule in rules.as_slice() {
        holdings.push(Holding { home, rule })?;
    }
    Ok(())
}
