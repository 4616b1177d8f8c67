//! Traces searches through the graph of nodes: lists the nodes that they reach, each with a step of
//! a shortest way.

ghost use Rattle.std.specs.Prelude.{◌≡◌, ◌⊎◌, All, IfOk, IsSome, MatchOption, None, Some, map};
ghost use Rattle.std.specs.Prelude.{slice_index_or};
ghost use Rattle.rbac_model.specs.Policies.{IsPolicy};
ghost use Rattle.rbac_ways.specs.Ways.{AreInOrder};
ghost use Rattle.rbac_paths.specs.Joints.{DecidesOf, IsDeciding};
ghost use Rattle.rbac_paths.specs.Nodes.{node_of};
ghost use Rattle.rbac_paths.specs.Reasons.{reason_view};
ghost use Rattle.rbac_paths.specs.Searching.{AreJoined};
ghost use Rattle.rbac_paths.specs.Seeking.{IsSought};
ghost use Rattle.rbac_paths.specs.TakingOver.{TakesOver};
ghost use Rattle.rbac_paths.specs.Told.{HasItsRole};
ghost use Rattle.rbac_paths.specs.Tracing.{AreLinked, AreTraced, IsFrom, IsLineOf, IsLinkedAt, IsTold};
ghost use Rattle.rbac_paths.specs.Tracing.{IsUnlisted, taker};

use crate::access::Access;
use crate::aim::Aim;
use crate::all_ways::{Next, Way};
use crate::deciding::{Deciding, deciding_at};
use crate::graph::NodeGraph;
use crate::holding::rule_of_all;
use crate::node::Node;
use crate::reason::{Reason, reason_by, reason_of};
use crate::searching::NodeSearch;
use crate::seeking::{Sought, places_of};
use crate::told::{StepRows, first_told};
use rbac_model::Policy;
use rbac_steps::Step;
use rbac_subjects::{SubjectIndex, SubjectPlaces};
use rbac_ways::{Reached, Stop, shortest_ways};
use std::alloc::{AllocError, Global};

/// In which direction a search follows steps.
#[derive(Clone, Copy)]
pub(crate) enum Direction<'a> {
    /// On from where it begins, which isn't listed.
    On,
    /// Back from the nodes that allow this request.
    Back(Access<'a>),
}

impl Direction<'_> {
    // Of a node and the one before it on a way, the one that takes over the other.
    fn taker<T: Copy>(self, before: T, here: T) -> T
        ensures { result ≡ taker self.entry before here }
    {
        match self {
            Direction::On => before,
            Direction::Back(_) => here,
        }
    }
}

/// The nodes that are reached from those that are looked for.
pub(crate) fn reached_from(
    alloc: Global,
    search: &NodeSearch<'_>,
    sought: Sought<'_>,
) -> Result<Reached, AllocError>
    ensures { IfOk result (λ reached. IsFrom (IsSought sought.entry)
        (map node_of search.now.nodes.items) search.now.joined.graph reached.stops.items
        reached.order.items) }
{
    let starts = places_of(alloc, search.nodes.as_slice(), sought)?;
    let reached = shortest_ways(alloc, &search.joined.graph, starts.as_slice())?;
    Ok(reached)
}

/// The nodes that were reached, in order, each with a step of a shortest way. A node to which
/// `come` has no way is left out. Most lines of a search from one node have the same node before as
/// the line above them, so what decides which nodes that takes over is kept from line to line.
pub(crate) fn traced<'p>(
    alloc: Global,
    policy: &'p Policy,
    index: &SubjectIndex<'p>,
    steps: &[StepRows],
    nodes: &[Node<'p>],
    made: &NodeGraph,
    direction: Direction<'_>,
    come: &[Option<Stop>],
    reached: &Reached,
) -> Result<Vec<Way<'p>>, AllocError>
    requires policy { IsPolicy policy.now }
    requires index { index.now ≡ policy.now }
    requires joined { AreJoined policy.now steps.now nodes.now made.now.grants.items
        made.now.places.items }
    requires linked { AreLinked direction policy.now steps.now (map node_of nodes.now)
        reached.now.stops.items }
    requires order { AreInOrder reached.now.stops.items reached.now.order.items }
    ensures { IfOk result (λ found. AreTraced direction.entry policy.now steps.now
        (map node_of nodes.now) come.now reached.now.stops.items reached.now.order.items
        found.items) }
{
    let all = rule_of_all(alloc)?;
    let subjects = SubjectPlaces::of(alloc, policy)?;
    let stops = reached.stops.as_slice();
    let mut known = Deciding::none(alloc, nodes.len());
    let mut lines = Vec::new(alloc);
    for place in reached.order.as_slice() {
        let Some(stop) = stop_at(come, stops, *place) else {
            continue;
        };
        let from = direction.taker(stop.before, *place);
        let taker = nodes[from];
        if known.place != from {
            // (policy and index are lent anew, for as long as `all` lives)
            known = deciding_at(alloc, &*policy, &*index, &all, made, from, taker)?;
        }
        let line = line_at(
            alloc, policy, index, &subjects, steps, nodes, &known, direction, *place, *stop,
        )?;
        if let Some(line) = line {
            lines.push(line)?;
        }
    }
    Ok(lines)
}

// The stop of the node at this place, if it and `come` have one.
fn stop_at<'a>(come: &[Option<Stop>], stops: &'a [Option<Stop>], place: usize) -> Option<&'a Stop>
    ensures { MatchOption result
        ((slice_index_or come.now place None ≡ None) ⊎ (slice_index_or stops.now place None ≡ None))
        (λ stop. IsSome (slice_index_or come.now place None)
        × (slice_index_or stops.now place None ≡ Some stop.now)) }
{
    let Some(Some(_)) = come.get(place) else {
        return None;
    };
    let Some(Some(stop)) = stops.get(place) else {
        return None;
    };
    Some(stop)
}

// The line of the node at this place, which has this stop, if it is listed. `known` decides which
// nodes are taken over by the one that takes the step.
fn line_at<'p>(
    alloc: Global,
    policy: &'p Policy,
    index: &SubjectIndex<'p>,
    subjects: &SubjectPlaces<'p>,
    steps: &[StepRows],
    nodes: &[Node<'p>],
    known: &Deciding<'_>,
    direction: Direction<'_>,
    place: usize,
    stop: Stop,
) -> Result<Option<Way<'p>>, AllocError>
    requires policy { IsPolicy policy.now }
    requires index { index.now ≡ policy.now }
    requires subjects { subjects.now ≡ policy.now }
    requires held { All (HasItsRole policy.now.held) (map node_of nodes.now) }
    requires known { IsDeciding policy.now steps.now (map node_of nodes.now) known.now }
    requires place { known.now.place ≡ taker direction stop.before place }
    requires linked { IsLinkedAt direction policy.now steps.now (map node_of nodes.now) place stop }
    ensures { IfOk result (λ line. MatchOption line (IsUnlisted direction.entry stop)
        (IsLineOf direction.entry policy.now steps.now (map node_of nodes.now) stop place)) }
{
    let node = nodes[place];
    if stop.edges == 0 {
        let Direction::Back(access) = direction else {
            return Ok(None);
        };
        let Some(reason) = reason_of(alloc, policy, index, subjects, node, Aim::Access(access))?
        else {
            return Ok(None);
        };
        return Ok(Some(Way {
            count: 0,
            node,
            next: None,
            reason,
        }));
    }
    let before = nodes[stop.before];
    let from = direction.taker(before, node);
    let to = direction.taker(node, before);
    let Some((step, reason)) = first_step(alloc, policy, index, subjects, steps, from, known, to)?
    else {
        return Ok(None);
    };
    let next = Some(Next { node: before, step });
    let count = stop.edges;
    Ok(Some(Way {
        count,
        node,
        next,
        reason,
    }))
}

// The first of these steps by which the node `from` takes over the node `to`, and why it can;
// `None` if there is none. `known` decides which nodes `from` takes over.
fn first_step<'p>(
    alloc: Global,
    policy: &'p Policy,
    index: &SubjectIndex<'p>,
    subjects: &SubjectPlaces<'p>,
    steps: &[StepRows],
    from: Node<'p>,
    known: &Deciding<'_>,
    to: Node<'_>,
) -> Result<Option<(Step, Reason<'p>)>, AllocError>
    requires policy { IsPolicy policy.now }
    requires index { index.now ≡ policy.now }
    requires subjects { subjects.now ≡ policy.now }
    requires role { HasItsRole policy.now.held (node_of from) }
    requires known { DecidesOf policy.now steps.now (node_of from) known.now }
    ensures { IfOk result (λ told. MatchOption told
        (¬ TakesOver policy.now steps.now (node_of from.entry) (node_of to.entry))
        (λ t. IsTold policy.now steps.now t.0 (reason_view t.1) (node_of from.entry)
        (node_of to.entry))) }
{
    let holdings = known.holdings.as_slice();
    let Some(rows) = first_told(steps, holdings, from, to) else {
        return Ok(None);
    };
    let numbers = known.numbers.as_slice();
    let Some(reason) = reason_by(alloc, policy, index, subjects, from, numbers, rows, to)? else {
        return Ok(None);
    };
    Ok(Some((rows.step(), reason)))
}
