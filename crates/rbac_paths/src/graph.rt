//! The graph of nodes: an edge leads from each node to each that it takes over.

ghost use Rattle.std.specs.Prelude.{◌≡◌, ◌↔◌, ◌≤◌, [], ℕ, All, Contains, IfOk, IsTrue, List, length, map};
ghost use Rattle.rbac_terms.specs.Principals.{Who};
ghost use Rattle.rbac_model.specs.Policies.{IsPolicy, PolicyView};
ghost use Rattle.rbac_paths.specs.Deciding.{AreGrantsByBinding, ArePlaces, ArePlacesOf, AreTakingGrants};
ghost use Rattle.rbac_paths.specs.Deciding.{IsAnyNode};
ghost use Rattle.rbac_paths.specs.Having.{rule_of_all};
ghost use Rattle.rbac_paths.specs.Joints.{AreFewGrants, AreHad, DecideOn, IsHadBy, IsNobody, TakesByWords};
ghost use Rattle.rbac_paths.specs.Nodes.{NodeView, Somebody, node_of};
ghost use Rattle.rbac_paths.specs.Paths.{IsGraphOf};
ghost use Rattle.rbac_paths.specs.SharedLists.{list_of};
ghost use Rattle.rbac_paths.specs.Takeovers.{HaveTakeovers};
ghost use Rattle.rbac_paths.specs.TakingOver.{MayGoOn};
ghost use Rattle.rbac_paths.specs.Told.{HasItsRole};
ghost use Rattle.rbac_steps.specs.declared.steps.Step.{Step};

use crate::binding_words::words_of_bindings;
use crate::deciding::{given_by, places_of_lists, taking_grants};
use crate::holding::{Holding, holdings_of, rule_of_all};
use crate::listed::{list_of, listed_at};
use crate::node::Node;
use crate::other_nodes::{Others, over_others, over_others_among};
use crate::rule_takeovers::RuleTakeovers;
use crate::same_others::OthersTaken;
use crate::told::{StepRows, rows_of_steps};
use crate::words::{taken_words, words_of_whom};
use rbac_model::Policy;
use rbac_steps::Step;
use rbac_subjects::SubjectIndex;
use rbac_terms::{Items, Rule, Words};
use rbac_ways::{Graph, listed_in};
use std::alloc::{AllocError, Global};

/// The graph of some nodes, and the grants that decide what each node takes over.
pub(crate) struct NodeGraph {
    /// The graph.
    pub(crate) graph: Graph,
    /// For each binding, the numbers of these grants.
    pub(crate) grants: Vec<Items<u32>>,
    /// For each node, the places of the bindings whose grants it has.
    pub(crate) places: Vec<Items<usize>>,
}

impl Drop for NodeGraph {
    fn drop(self) {
        let Self {
            graph,
            grants,
            places,
        } = self;
    }
}

/// The graph of these nodes by these steps, and the grants that decide what each node takes over.
/// Fails only if it runs out of memory.
pub(crate) fn graph_of<'p>(
    alloc: Global,
    policy: &'p Policy,
    index: &SubjectIndex<'p>,
    steps: &[StepRows],
    nodes: &[Node<'p>],
) -> Result<NodeGraph, AllocError>
    requires policy { IsPolicy policy.now }
    requires index { index.now ≡ policy.now }
    requires held { All (HasItsRole policy.now.held) (map node_of nodes.now) }
    ensures graph { IfOk result
        (λ made. IsGraphOf policy.now steps.now (map node_of nodes.now) made.graph) }
    ensures grants { IfOk result (λ made.
        AreTakingGrants policy.now steps.now made.grants.items) }
    ensures places { IfOk result (λ made. ArePlaces policy.now made.grants.items
        (map node_of nodes.now) (length nodes.now) made.places.items) }
{
    let takeovers = RuleTakeovers::of_roles(alloc, policy.objects(), steps)?;
    let grants = taking_grants(alloc, policy, &takeovers)?;
    let places = places_of_lists(alloc, index, grants.as_slice(), nodes)?;
    let graph = joined(
        alloc,
        policy,
        index,
        steps,
        &takeovers,
        nodes,
        grants.as_slice(),
        places.as_slice(),
    )?;
    Ok(NodeGraph {
        graph,
        grants,
        places,
    })
}

// The graph. A node has an edge to a user or a group if it takes a word by which that can be had.
// So a set of many users that many nodes take over is written once. The words that a binding's
// grants take are made once for all subjects of the binding, and for all bindings that grant the
// same. Roles, and everything in a scope, are checked one by one, once for all nodes that have the
// same rules there.
fn joined<'p>(
    alloc: Global,
    policy: &'p Policy,
    index: &SubjectIndex<'p>,
    steps: &[StepRows],
    takeovers: &RuleTakeovers,
    nodes: &[Node<'p>],
    grants: &[Items<u32>],
    places: &[Items<usize>],
) -> Result<Graph, AllocError>
    requires policy { IsPolicy policy.now }
    requires index { index.now ≡ policy.now }
    requires takeovers { HaveTakeovers policy.now.held steps.now takeovers.now }
    requires held { All (HasItsRole policy.now.held) (map node_of nodes.now) }
    requires grants { AreTakingGrants policy.now steps.now grants.now }
    requires places { ArePlaces policy.now grants.now (map node_of nodes.now) (length nodes.now) places.now }
    ensures { IfOk result (λ g. IsGraphOf policy.now steps.now (map node_of nodes.now) g) }
{
    let all = rule_of_all(alloc)?;
    let rows = rows_of_steps(alloc, &[Step::Bind, Step::Escalate])?;
    let writing = rows.as_slice();
    let among = Others::of(alloc, nodes)?;
    let few = few_of_bindings(alloc, policy, takeovers, grants)?;
    let few = few.as_slice();
    let mut words = words_of_bindings(alloc, policy, takeovers, grants)?;
    let takes = lists_taken(alloc, words.places.as_slice(), places)?;
    let mut others = OthersTaken::none(alloc);
    for (place, node) in nodes.iter().enumerate() {
        let own = listed_at(places, place);
        let holdings = rules_held(alloc, policy, index, &all, *node)?;
        let held = holdings.as_slice();
        words.lists.push(words_held(alloc, steps, held, *node)?)?;
        let over = few_taken(alloc, policy, steps, few, held, own, *node)?;
        others.add(alloc, steps, writing, over, *node, nodes, &among)?;
    }
    let had_by = words_of_nodes(alloc, nodes)?;
    Graph::joined(
        alloc,
        words.lists.as_slice(),
        takes.as_slice(),
        had_by.as_slice(),
        others.lists.as_slice(),
        others.places.as_slice(),
    )
}

// For each of these nodes, the places of its lists of words, where `lists` has the place of the list
// of each binding.
fn lists_taken(
    alloc: Global,
    lists: &[usize],
    places: &[Items<usize>],
) -> Result<Vec<Items<usize>>, AllocError>
    ensures { IfOk result (λ takes. takes.items ≡ map (map (list_of lists.now)) places.now) }
{
    let mut takes = Vec::with_capacity(alloc, places.len())?;
    for own in places {
        takes.push(lists_at(alloc, lists, own.as_slice())?)?;
    }
    Ok(takes)
}

// The places of the lists of words for these places of bindings.
fn lists_at(alloc: Global, lists: &[usize], places: &[usize]) -> Result<Items<usize>, AllocError>
    ensures { IfOk result (λ found. found ≡ map (list_of lists.now) places.now) }
{
    let mut found = Vec::with_capacity(alloc, places.len())?;
    for place in places {
        found.push(list_of(lists, *place))?;
    }
    Ok(Items::from_vec(found))
}

// The rules of a role, or of everything in a scope. A user or a group has none here: grants decide
// what it takes over.
fn rules_held<'p>(
    alloc: Global,
    policy: &'p Policy,
    index: &SubjectIndex<'p>,
    all: &'p Rule,
    node: Node<'p>,
) -> Result<Vec<Holding<'p>>, AllocError>
    requires policy { IsPolicy policy.now }
    requires index { index.now ≡ policy.now }
    requires all { all.now ≡ rule_of_all }
    requires role { HasItsRole policy.now.held (node_of node) }
    ensures { (steps : List Step) → IsNobody (node_of node.entry)
        → IfOk result (λ hs. DecideOn policy.now steps (node_of node.entry) hs.items IsAnyNode) }
{
    match node {
        Node::Somebody(_) => Ok(Vec::new(alloc)),
        _ => holdings_of(alloc, policy, index, all, node),
    }
}

// The words that a node takes by these holdings; none if it doesn't go on to users and groups.
fn words_held(
    alloc: Global,
    steps: &[StepRows],
    holdings: &[Holding<'_>],
    node: Node<'_>,
) -> Result<Words, AllocError>
    ensures { (p : PolicyView)
        → DecideOn p steps.now (node_of node.entry) holdings.now IsAnyNode
        → IfOk result (λ ws. TakesByWords p steps.now (node_of node.entry) (λ w. Contains ws w)) }
{
    if goes_further(node) {
        taken_words(alloc, steps, holdings)
    } else {
        Ok(Words::new(alloc))
    }
}

// Whether a node goes on to users and groups. Everything in the whole cluster goes on to nothing.
fn goes_further(node: Node<'_>) -> bool
    ensures { (who : Who) → IsTrue result ↔ MayGoOn (node_of node.entry) (Somebody who) }
{
    !matches!(node, Node::Everything(None))
}

// For each binding, its few grants that may take over other nodes. Most bindings have none.
fn few_of_bindings(
    alloc: Global,
    policy: &Policy,
    takeovers: &RuleTakeovers,
    grants: &[Items<u32>],
) -> Result<Vec<Items<u32>>, AllocError>
    requires { AreGrantsByBinding policy.now grants.now }
    ensures { (steps : List Step) → HaveTakeovers policy.now.held steps takeovers.now
        → IfOk result (λ few. AreFewGrants policy.now steps grants.now few.items) }
{
    let mut few = Vec::with_capacity(alloc, grants.len())?;
    for numbers in grants {
        few.push(over_others_among(alloc, policy, takeovers, numbers.as_slice())?)?;
    }
    Ok(few)
}

// The holdings that decide which other nodes a node takes over. A user or a group has them by the
// `few` grants of the bindings at its places; any other node has them among its own holdings.
fn few_taken<'p>(
    alloc: Global,
    policy: &'p Policy,
    steps: &[StepRows],
    few: &[Items<u32>],
    holdings: &[Holding<'p>],
    places: &[usize],
    node: Node<'_>,
) -> Result<Vec<Holding<'p>>, AllocError>
    requires policy { IsPolicy policy.now }
    requires few { AreGrantsByBinding policy.now few.now }
    ensures { (grants : List (List ℕ)) (own : ℕ) → length grants ≤ own
        → AreTakingGrants policy.now steps.now grants
        → AreFewGrants policy.now steps.now grants few.now
        → ArePlacesOf policy.now grants own (node_of node.entry) places.now
        → (IsNobody (node_of node.entry)
        → DecideOn policy.now steps.now (node_of node.entry) holdings.now IsAnyNode)
        → IfOk result (λ few. DecideOn policy.now steps.now (node_of node.entry) few.items IsNobody) }
{
    match node {
        Node::Somebody(_) => {
            let numbers = listed_in(alloc, few, places)?;
            given_by(alloc, policy, numbers.as_slice())
        }
        _ => over_others(alloc, steps, holdings),
    }
}

// For each of these nodes, the words by which it can be had.
fn words_of_nodes(alloc: Global, nodes: &[Node<'_>]) -> Result<Vec<Words>, AllocError>
    ensures { IfOk result (λ had. AreHad (map node_of nodes.now) (length nodes.now) had.items) }
{
    let mut all = Vec::with_capacity(alloc, nodes.len())?;
    for node in nodes {
        all.push(words_of_node(alloc, *node)?)?;
    }
    Ok(all)
}

// The words by which a node can be had; none for a role or for everything.
fn words_of_node(alloc: Global, node: Node<'_>) -> Result<Words, AllocError>
    ensures { IfOk result (IsHadBy (node_of node.entry)) }
{
    match node {
        Node::Somebody(who) => words_of_whom(alloc, who),
        _ => Ok(Words::new(alloc)),
    }
}
