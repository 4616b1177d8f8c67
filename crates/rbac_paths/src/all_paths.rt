//! The nodes that a user or a group comes to.

ghost use Rattle.std.specs.Prelude.{◌≡◌, IfOk};
ghost use Rattle.std.specs.List.{filter_map};
ghost use Rattle.rbac_model.specs.Lists.{IsAscendingBy};
ghost use Rattle.rbac_model.specs.Unions.{who_texts};
ghost use Rattle.rbac_paths.specs.Paths.{ArePathsOf};
ghost use Rattle.rbac_paths.specs.Tracing.{path_by};

use crate::all_ways::Way;
use crate::node::Node;
use crate::principals::principals_with;
use crate::reason::Reason;
use crate::searching::search_of;
use crate::seeking::Sought;
use crate::tracing::{Direction, reached_from, traced};
use rbac_model::Policy;
use rbac_steps::Step;
use rbac_subjects::SubjectIndex;
use rbac_terms::Principal;
use std::alloc::{AllocError, Global};
use std::marker::Model;

/// A node that a user or a group comes to, and the last step of a shortest path there. Contracts
/// see its nodes by what they refer to.
pub struct Path<'p> {
    /// The number of steps of a shortest path.
    pub count: usize,
    /// The node.
    pub node: Node<'p>,
    /// The node before it on the path. Of several, it is the first in the order of their printed
    /// texts.
    pub before: Node<'p>,
    /// The first of the steps by which the node before takes it over.
    pub step: Step,
    /// Why the node before can take this step.
    pub reason: Reason<'p>,
}

impl Drop for Path<'_> {
    fn drop(self) {
        let Self {
            count,
            node,
            before,
            step,
            reason,
        } = self;
    }
}

impl<'p> Model for Path<'p> {
    ghost use Rattle.rbac_paths.specs.Nodes.{node_of};
    ghost use Rattle.rbac_paths.specs.Paths.{PathView};
    ghost use Rattle.rbac_paths.specs.Reasons.{reason_view};

    ghost Value = { PathView };

    ghost view = { λ x. record {
      count = x.count;
      node = node_of x.node;
      before = node_of x.before;
      step = x.step;
      reason = reason_view x.reason;
    } };
}

/// The nodes that `who` comes to by these steps, except itself, each once, with the last step of a
/// shortest path there. They are sorted by the number of steps, and then by their printed texts
/// (own). Nodes are the users and groups given, with `who` in the place of the one with its key;
/// the roles, where they can be bound; and everything in a scope. Fails only if it runs out of
/// memory.
pub fn paths<'p>(
    alloc: Global,
    policy: &'p Policy,
    index: &SubjectIndex<'p>,
    principals: &'p [Principal],
    who: &'p Principal,
    steps: &[Step],
) -> Result<Vec<Path<'p>>, AllocError>
    requires index { index.now ≡ policy.now }
    requires ordered { IsAscendingBy who_texts principals.now }
    ensures { IfOk result (λ found.
        ArePathsOf policy.now principals.now steps.now who.now found.items) }
{
    let all = principals_with(alloc, principals, who)?;
    let search = search_of(alloc, policy, index, all.as_slice(), steps)?;
    let rows = search.rows.as_slice();
    let nodes = search.nodes.as_slice();
    let reached = reached_from(alloc, &search, Sought::KeyOf(who))?;
    let stops = reached.stops.as_slice();
    let made = &search.joined;
    let on = Direction::On;
    let lines = traced(alloc, policy, index, rows, nodes, made, on, stops, &reached)?;
    paths_by(alloc, lines.as_slice())
}

// The paths whose last steps these lines have.
fn paths_by<'p>(alloc: Global, lines: &[Way<'p>]) -> Result<Vec<Path<'p>>, AllocError>
    ensures { IfOk result (λ paths. paths.items ≡ filter_map path_by lines.now) }
{
    lines.iter().filter_map(|line| path_by(line)).collect(alloc)
}

// The path whose last step a line has, if it has one.
fn path_by<'p>(line: &Way<'p>) -> Option<Path<'p>>
    ensures { result ≡ path_by line.now }
{
    let next = line.next?;
    Some(Path {
        count: line.count,
        node: line.node,
        before: next.node,
        step: next.step,
        reason: line.reason,
    })
}
