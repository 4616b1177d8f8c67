//! The nodes that come to a request, and the ways there.

ghost use Rattle.std.specs.Prelude.{◌≡◌, IfOk, map};
ghost use Rattle.rbac_model.specs.Lists.{IsAscendingBy};
ghost use Rattle.rbac_model.specs.Unions.{who_texts};
ghost use Rattle.rbac_paths.specs.Access.{access_of};
ghost use Rattle.rbac_paths.specs.WaysTo.{AreWaysTo};

use crate::access::Access;
use crate::allowed::places_of_allowing;
use crate::node::Node;
use crate::reason::Reason;
use crate::searching::search_of;
use crate::seeking::Sought;
use crate::tracing::{Direction, reached_from, traced};
use rbac_model::Policy;
use rbac_steps::Step;
use rbac_subjects::SubjectIndex;
use rbac_terms::Principal;
use rbac_ways::shortest_ways;
use std::alloc::{AllocError, Global};
use std::marker::Model;

/// A node from which steps lead to one that allows the request, and the first step of a shortest
/// way there. Contracts see its nodes by what they refer to.
pub struct Way<'p> {
    /// The number of steps of a shortest way; 0 if the node itself allows the request.
    pub count: usize,
    /// The node.
    pub node: Node<'p>,
    /// The first step, if there is one.
    pub next: Option<Next<'p>>,
    /// Why the node can take the first step; if there is none, why it allows the request itself.
    pub reason: Reason<'p>,
}

impl Drop for Way<'_> {
    fn drop(self) {
        let Self {
            count,
            node,
            next,
            reason,
        } = self;
    }
}

/// The first step of a way.
#[derive(Clone, Copy)]
pub struct Next<'p> {
    /// The node that it leads to. Of several, it is the first in the order of their printed texts.
    pub node: Node<'p>,
    /// The first of the steps by which that node is taken over.
    pub step: Step,
}

impl<'p> Model for Way<'p> {
    ghost use Rattle.std.specs.Prelude.{option_map};
    ghost use Rattle.rbac_paths.specs.Nodes.{node_of};
    ghost use Rattle.rbac_paths.specs.Reasons.{reason_view};
    ghost use Rattle.rbac_paths.specs.WaysTo.{WayView};

    ghost Value = { WayView };

    ghost view = { λ x. record {
      count = x.count;
      node = node_of x.node;
      next = option_map (λ n. record { node = node_of n.node; step = n.step }) x.next;
      reason = reason_view x.reason;
    } };
}

/// The nodes from which steps, or none, lead to a node that allows the request, each once, with the
/// first step of a shortest way there. Only users and groups are listed, and nodes that one of
/// these comes to. They are sorted by the number of steps, and then by their printed texts (own).
/// Nodes are the users and groups given; the roles, where they can be bound; and everything in a
/// scope. Fails only if it runs out of memory.
pub fn ways_to<'p>(
    alloc: Global,
    policy: &'p Policy,
    index: &SubjectIndex<'p>,
    principals: &'p [Principal],
    steps: &[Step],
    access: Access<'_>,
) -> Result<Vec<Way<'p>>, AllocError>
    requires index { index.now ≡ policy.now }
    requires ordered { IsAscendingBy who_texts principals.now }
    ensures { IfOk result (λ found.
        AreWaysTo policy.now principals.now steps.now (access_of access.entry) found.items) }
{
    let all = each_of(alloc, principals)?;
    let search = search_of(alloc, policy, index, all.as_slice(), steps)?;
    let rows = search.rows.as_slice();
    let nodes = search.nodes.as_slice();
    let come = reached_from(alloc, &search, Sought::Somebody)?;
    let ends = places_of_allowing(alloc, policy, index, nodes, access)?;
    let turned = search.joined.graph.turned(alloc)?;
    let reached = shortest_ways(alloc, &turned, ends.as_slice())?;
    let stops = come.stops.as_slice();
    let made = &search.joined;
    let back = Direction::Back(access);
    traced(
        alloc, policy, index, rows, nodes, made, back, stops, &reached,
    )
}

// These users and groups, each by reference.
fn each_of<'p>(alloc: Global, principals: &'p [Principal]) -> Result<Vec<&'p Principal>, AllocError>
    ensures { IfOk result (λ all. map (λ each. each.now) all.items ≡ principals.now) }
{
    principals.iter().collect(alloc)
}
