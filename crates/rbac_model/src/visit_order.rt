//! The order in which the vertices of a graph are closed. Nothing is proved about this order,
//! because it decides only how long closing takes.

use crate::place_set::PlaceSet;
use crate::turned::turned;
use std::alloc::{AllocError, Global};

// The vertices that have edges, in Kosaraju's order. A vertex comes after those that it leads to,
// except within a cycle: there, each vertex but the first has an edge to an earlier one. A
// depth-first search follows edges backwards; the later it leaves a vertex, the earlier the vertex
// comes.
pub(crate) fn order_of(alloc: Global, graph: &[PlaceSet]) -> Result<Vec<usize>, AllocError> {
    let waiting = with_edges(alloc, graph)?;
    let turned = turned(alloc, graph, &waiting)?;
    let mut met = PlaceSet::new(alloc);
    let mut path = Vec::new(alloc);
    let mut left = Vec::new(alloc);
    for _step in 0..graph.len().saturating_mul(2) {
        walk(turned.as_slice(), &waiting, &mut met, &mut path, &mut left)?;
    }
    left.reverse();
    Ok(left)
}

// The vertices that have edges.
fn with_edges(alloc: Global, graph: &[PlaceSet]) -> Result<PlaceSet, AllocError> {
    let mut vertices = PlaceSet::new(alloc);
    for (at, row) in graph.iter().enumerate() {
        if !row.is_empty() {
            vertices.insert(at)?;
        }
    }
    Ok(vertices)
}

// Takes one step of the search: to a vertex that isn't met yet and has an edge to the end of the
// path, or back. An empty path begins with the first waiting vertex that isn't met yet.
fn walk(
    turned: &[PlaceSet],
    waiting: &PlaceSet,
    met: &mut PlaceSet,
    path: &mut Vec<usize>,
    left: &mut Vec<usize>,
) -> Result<(), AllocError> {
    let Some(end) = path.pop() else {
        if let Some(first) = waiting.first_outside(met, turned.len()) {
            met.insert(first)?;
            path.push(first)?;
        }
        return Ok(());
    };
    match before(turned, met, end) {
        Some(from) => {
            met.insert(from)?;
            path.push(end)?;
            path.push(from)?;
        }
        None => left.push(end)?,
    }
    Ok(())
}

// A vertex that isn't met yet and has an edge to this one.
fn before(turned: &[PlaceSet], met: &PlaceSet, to: usize) -> Option<usize> {
    turned.get(to)?.first_outside(met, turned.len())
}
