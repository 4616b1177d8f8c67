//! Which rules decide what a node takes over: those that match a row of the table of steps. Most
//! rules of an export match none.

ghost use Rattle.std.specs.Prelude.{◌≡◌, ◌<◌, ◌≤◌, ◌∷◌, [], ℕ, All, IfOk, List, length, map, replicate};
ghost use Rattle.std.specs.Prelude.{slice_index_or};
ghost use Rattle.rbac_model.specs.Policies.{IsPolicy};
ghost use Rattle.rbac_paths.specs.Deciding.{AreGrantingPlaces, AreGrantsByBinding, AreNumbersOf, ArePlaces};
ghost use Rattle.rbac_paths.specs.Deciding.{ArePlacesOf, AreTakingGrants, GiveHoldings, IsAnyNode};
ghost use Rattle.rbac_paths.specs.Having.{rule_of_all};
ghost use Rattle.rbac_paths.specs.Joints.{DecideOn, DecidesOf};
ghost use Rattle.rbac_paths.specs.Nodes.{node_of};
ghost use Rattle.rbac_paths.specs.Takeovers.{HaveTakeovers};
ghost use Rattle.rbac_paths.specs.Told.{HasItsRole};
ghost use Rattle.rbac_steps.specs.declared.steps.Step.{Step};

use crate::graph::NodeGraph;
use crate::holding::{Holding, holdings_of};
use crate::listed::listed_at;
use crate::node::Node;
use crate::rule_takeovers::RuleTakeovers;
use rbac_model::Policy;
use rbac_subjects::SubjectIndex;
use rbac_terms::{Items, Principal, Rule};
use rbac_ways::listed_in;
use std::alloc::{AllocError, Global};
use std::marker::Model;

/// For each binding, the numbers of its taking grants: those whose rules take over something by
/// some steps. `takeovers` lists what each rule of each role takes over by these steps.
pub(crate) fn taking_grants(
    alloc: Global,
    policy: &Policy,
    takeovers: &RuleTakeovers,
) -> Result<Vec<Items<u32>>, AllocError>
    requires { IsPolicy policy.now }
    ensures { (steps : List Step) → HaveTakeovers policy.now.held steps takeovers.now
        → IfOk result (λ lists. AreTakingGrants policy.now steps lists.items) }
{
    let mut lists = no_numbers(alloc, policy.bindings().len())?;
    for no in 0..policy.len() {
        let at = policy.place(no);
        if !takeovers.of_grant(at).is_empty() {
            lists[at.binding].push(no)?;
        }
    }
    Ok(lists)
}

// This many empty lists.
fn no_numbers(alloc: Global, count: usize) -> Result<Vec<Items<u32>>, AllocError>
    ensures { IfOk result (λ lists. lists.items ≡ replicate count []) }
{
    vec![in alloc; Items::new(alloc); count]
}

/// For each of these nodes, the places of its lists of words. A user or a group has the lists of
/// the bindings that name it and have taking grants. Each other node has one list of its own,
/// behind the lists of all bindings.
pub(crate) fn places_of_lists(
    alloc: Global,
    index: &SubjectIndex<'_>,
    grants: &[Items<u32>],
    nodes: &[Node<'_>],
) -> Result<Vec<Items<usize>>, AllocError>
    requires { AreGrantsByBinding index.now grants.now }
    ensures { IfOk result (λ all.
        ArePlaces index.now grants.now (map node_of nodes.now) (length nodes.now) all.items) }
{
    let mut all = Vec::with_capacity(alloc, nodes.len())?;
    for (place, node) in nodes.iter().enumerate() {
        let own = grants.len() + place;
        all.push(places_of_node(alloc, index, grants, own, *node)?)?;
    }
    Ok(all)
}

// The places of the lists of one node. `own` is the place of its own list, if it has one.
fn places_of_node(
    alloc: Global,
    index: &SubjectIndex<'_>,
    grants: &[Items<u32>],
    own: usize,
    node: Node<'_>,
) -> Result<Items<usize>, AllocError>
    requires { AreGrantsByBinding index.now grants.now }
    ensures { IfOk result (λ places. ArePlacesOf index.now grants.now own (node_of node.entry) places) }
{
    match node {
        Node::Somebody(who) => granting_places(alloc, index, grants, who),
        _ => only_place(alloc, own),
    }
}

// A list of this place alone.
fn only_place(alloc: Global, place: usize) -> Result<Items<usize>, AllocError>
    ensures { IfOk result (λ places. places ≡ place ∷ []) }
{
    let mut places = Items::new(alloc);
    places.push(place)?;
    Ok(places)
}

// The places of the bindings that name this user or group and have taking grants.
fn granting_places(
    alloc: Global,
    index: &SubjectIndex<'_>,
    grants: &[Items<u32>],
    who: &Principal,
) -> Result<Items<usize>, AllocError>
    requires { AreGrantsByBinding index.now grants.now }
    ensures { IfOk result (λ places. AreGrantingPlaces index.now grants.now who.now places) }
{
    let named = index.named_places(alloc, who)?;
    let mut places = Vec::with_capacity(alloc, named.len())?;
    for place in named.as_slice() {
        if !listed_at(grants, *place).is_empty() {
            places.push(*place)?;
        }
    }
    Ok(Items::from_vec(places))
}

/// What decides which nodes a node takes over: the numbers of its taking grants, which only a user
/// or a group has, and its rules.
pub(crate) struct Deciding<'p> {
    /// The place of the node.
    pub(crate) place: usize,
    /// The numbers of its taking grants, in order.
    pub(crate) numbers: Vec<u32>,
    /// Its rules. A user or a group has those of its taking grants.
    pub(crate) holdings: Vec<Holding<'p>>,
}

impl Drop for Deciding<'_> {
    fn drop(self) {
        let Self {
            place,
            numbers,
            holdings,
        } = self;
    }
}

impl<'p> Model for Deciding<'p> {
    ghost use Rattle.rbac_paths.specs.Joints.{DecidingView};

    ghost Value = { DecidingView };

    ghost view = { λ d. record {
      place = d.place;
      numbers = d.numbers.items;
      holdings = d.holdings.items;
    } };
}

impl Deciding<'_> {
    /// Without grants and rules, for a place past the last node. Doesn't allocate.
    pub(crate) fn none(alloc: Global, place: usize) -> Self
        ensures { result.place ≡ place }
    {
        Deciding {
            place,
            numbers: Vec::new(alloc),
            holdings: Vec::new(alloc),
        }
    }
}

/// What decides which nodes the node at this place takes over. The numbers are sorted: a reason is
/// the first grant that takes over a node, so the search for it skips those after a hit.
pub(crate) fn deciding_at<'p>(
    alloc: Global,
    policy: &'p Policy,
    index: &SubjectIndex<'p>,
    all: &'p Rule,
    made: &NodeGraph,
    place: usize,
    node: Node<'p>,
) -> Result<Deciding<'p>, AllocError>
    requires policy { IsPolicy policy.now }
    requires index { index.now ≡ policy.now }
    requires all { all.now ≡ rule_of_all }
    requires role { HasItsRole policy.now.held (node_of node) }
    requires grants { AreGrantsByBinding policy.now made.now.grants.items }
    ensures place { IfOk result (λ d. d.place ≡ place) }
    ensures deciding { (steps : List Step) (own : ℕ)
        → AreTakingGrants policy.now steps made.now.grants.items
        → length made.now.grants.items ≤ own
        → ArePlacesOf policy.now made.now.grants.items own (node_of node.entry)
        (slice_index_or made.now.places.items place [])
        → IfOk result (DecidesOf policy.now steps (node_of node.entry)) }
{
    let own = listed_at(made.places.as_slice(), place);
    let mut numbers = listed_in(alloc, made.grants.as_slice(), own)?;
    numbers.sort_unstable();
    let holdings = deciding_holdings(alloc, policy, index, all, node, numbers.as_slice())?;
    Ok(Deciding {
        place,
        numbers,
        holdings,
    })
}

// The rules of a node. A user or a group has those of the grants with these numbers.
fn deciding_holdings<'p>(
    alloc: Global,
    policy: &'p Policy,
    index: &SubjectIndex<'p>,
    all: &'p Rule,
    node: Node<'p>,
    numbers: &[u32],
) -> Result<Vec<Holding<'p>>, AllocError>
    requires policy { IsPolicy policy.now }
    requires index { index.now ≡ policy.now }
    requires all { all.now ≡ rule_of_all }
    requires role { HasItsRole policy.now.held (node_of node) }
    requires within { All (λ n. n < length policy.now.grants) numbers.now }
    ensures { (steps : List Step) → AreNumbersOf policy.now steps (node_of node.entry) numbers.now
        → IfOk result (λ hs.
        DecideOn policy.now steps (node_of node.entry) hs.items IsAnyNode) }
{
    match node {
        Node::Somebody(_) => given_by(alloc, policy, numbers),
        _ => holdings_of(alloc, policy, index, all, node),
    }
}

/// The holdings that the grants with these numbers give.
pub(crate) fn given_by<'p>(
    alloc: Global,
    policy: &'p Policy,
    numbers: &[u32],
) -> Result<Vec<Holding<'p>>, AllocError>
    requires { All (λ n. n < length policy.now.grants) numbers.now }
    ensures { IfOk result (λ hs. GiveHoldings policy.now numbers.now hs.items) }
{
    let mut holdings = Vec::with_capacity(alloc, numbers.len())?;
    for no in numbers {
        holdings.push(Holding::by(policy.grant(*no)))?;
    }
    Ok(holdings)
}
