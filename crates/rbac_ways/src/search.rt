//! The search, level by level: first the starts, then the nodes that one edge leads to, and so on.

ghost use Rattle.std.specs.Prelude.{◌≡◌, IfOk};
ghost use Rattle.rbac_ways.specs.Ways.{AreInOrder, AreStops};

use crate::graph::{Graph, Reached};
use crate::meeting::{first_level, next_level, nothing_passed};
use std::alloc::{AllocError, Global};

/// Searches for shortest ways from these starts. Returns where each node of the graph is on a
/// shortest way, if a way leads to it, and the nodes that ways lead to, in order of how many edges
/// the ways have, and then of their own numbers (own). If several nodes can be before a node, its
/// stop has the one with the least number. The search goes through each list and each set at most
/// once. Fails only if it runs out of memory.
pub fn shortest_ways(alloc: Global, graph: &Graph, starts: &[usize]) -> Result<Reached, AllocError>
    ensures stops { IfOk result (λ reached. AreStops graph.now starts.now reached.stops.items) }
    ensures order { IfOk result (λ reached. AreInOrder reached.stops.items reached.order.items) }
{
    let mut passed = nothing_passed(alloc, graph)?;
    let mut stops = vec![in alloc; None; graph.takes.as_slice().len()]?;
    let mut level = first_level(alloc, starts, &mut stops)?;
    let mut order = Vec::new(alloc);
    let mut edges = 0;
    while !level.is_empty() {
        order.extend_from_slice(level.as_slice())?;
        edges += 1;
        level = next_level(
            alloc,
            graph,
            level.as_slice(),
            edges,
            &mut passed,
            &mut stops,
        )?;
    }
    Ok(Reached { stops, order })
}
