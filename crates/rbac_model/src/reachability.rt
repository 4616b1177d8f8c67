//! Which vertices of a graph are reached by one or more edges.

ghost use Rattle.std.specs.Prelude.{◌≡◌, ◌<◌, ◌⊎◌, ◌↔◌, ℕ, IfOk, OnOk, MatchOption, length};
ghost use Rattle.std.specs.Prelude.{vec_len};
ghost use Rattle.rbac_model.specs.Graphs.{IsGraph, HasEdge, HasWay, HasPlace, LeadsAlike, AreFull};
ghost use Rattle.rbac_model.specs.Graphs.{AreEnds};

use crate::place_set::PlaceSet;
use crate::visit_order::order_of;
use std::alloc::{AllocError, Global};

// Replaces the edges of each vertex with edges to all vertices that it leads to.
pub(crate) fn close(alloc: Global, graph: &mut Vec<PlaceSet>) -> Result<(), AllocError>
    requires { IsGraph graph.old.items }
    ensures len { vec_len graph.new ≡ vec_len graph.old }
    ensures exact { OnOk result
        ((a b : ℕ) → HasEdge graph.new.items a b ↔ HasWay graph.old.items a b) }
{
    let ends = ends_of(alloc, graph.as_slice())?;
    let order = order_of(alloc, graph.as_slice())?;
    let mut closed = PlaceSet::new(alloc);
    close_each(graph, &mut closed, &ends, order.as_slice())?;
    for at in 0..graph.len() {
        close_at(graph, &mut closed, &ends, at)?;
    }
    Ok(())
}

// The vertices that have no edges.
fn ends_of(alloc: Global, graph: &[PlaceSet]) -> Result<PlaceSet, AllocError>
    ensures { IfOk result (AreEnds graph.now) }
{
    let mut ends = PlaceSet::new(alloc);
    for (at, row) in graph.iter().enumerate() {
        if row.is_empty() {
            ends.insert(at)?;
        }
    }
    Ok(ends)
}

// Closes these vertices, one after the other.
fn close_each(
    graph: &mut Vec<PlaceSet>,
    closed: &mut PlaceSet,
    ends: &PlaceSet,
    order: &[usize],
) -> Result<(), AllocError>
    requires graph { IsGraph graph.old.items }
    requires ends { AreEnds graph.old.items ends.now }
    requires full { AreFull graph.old.items closed.old }
    ensures len { vec_len graph.new ≡ vec_len graph.old }
    ensures alike { OnOk result (LeadsAlike graph.old.items graph.new.items) }
    ensures full { OnOk result (AreFull graph.new.items closed.new) }
{
    for at in order {
        close_at(graph, closed, ends, *at)?;
    }
    Ok(())
}

// Gives a vertex an edge to each vertex that it leads to, if the vertex exists and isn't closed.
fn close_at(
    graph: &mut Vec<PlaceSet>,
    closed: &mut PlaceSet,
    ends: &PlaceSet,
    at: usize,
) -> Result<(), AllocError>
    requires graph { IsGraph graph.old.items }
    requires ends { AreEnds graph.old.items ends.now }
    requires full { AreFull graph.old.items closed.old }
    ensures len { vec_len graph.new ≡ vec_len graph.old }
    ensures alike { OnOk result (LeadsAlike graph.old.items graph.new.items) }
    ensures full { OnOk result (AreFull graph.new.items closed.new) }
    ensures kept { OnOk result ((k : ℕ) → HasPlace closed.old k → HasPlace closed.new k) }
    ensures closed { OnOk result (at < vec_len graph.old → HasPlace closed.new at) }
{
    if at >= graph.len() || closed.has(at) {
        return Ok(());
    }
    let row = reach(graph.as_slice(), closed, ends, at)?;
    graph[at] = row;
    closed.insert(at)
}

// All vertices that a vertex leads to. The search takes the edges of each vertex that it visits. It
// needn't visit the vertices to which a closed vertex has edges.
fn reach(
    graph: &[PlaceSet],
    closed: &PlaceSet,
    ends: &PlaceSet,
    from: usize,
) -> Result<PlaceSet, AllocError>
    requires graph { IsGraph graph.now }
    requires ends { AreEnds graph.now ends.now }
    requires full { AreFull graph.now closed.now }
    requires from { from < length graph.now }
    ensures { IfOk result (λ row. (k : ℕ) → HasPlace row k ↔ HasWay graph.now from k) }
{
    let mut seen = graph[from].clone()?;
    let mut done = ends.clone()?;
    let mut near = from;
    while let Some(at) = next(&seen, &done, closed, near, graph.len()) {
        take(graph, closed, at, &mut seen, &mut done)?;
        near = at;
    }
    Ok(seen)
}

// The next vertex to visit: the first closed one from the word of `near` on, otherwise the first.
fn next(
    seen: &PlaceSet,
    done: &PlaceSet,
    closed: &PlaceSet,
    near: usize,
    count: usize,
) -> Option<usize>
    ensures { MatchOption result
        ((k : ℕ) → k < count → HasPlace seen.now k → HasPlace done.now k)
        (λ at. HasPlace seen.now at × (¬ HasPlace done.now at)) }
{
    match seen.shared_outside(closed, done, near) {
        Some(at) => Some(at),
        None => seen.first_outside(done, count),
    }
}

// Takes the edges of a vertex, which is then done. If the vertex is closed, all vertices to which
// it has edges are done too.
fn take(
    graph: &[PlaceSet],
    closed: &PlaceSet,
    at: usize,
    seen: &mut PlaceSet,
    done: &mut PlaceSet,
) -> Result<(), AllocError>
    requires { at < length graph.now }
    ensures seen { OnOk result
        ((k : ℕ) → HasPlace seen.new k ↔ (HasPlace seen.old k ⊎ HasEdge graph.now at k)) }
    ensures done { OnOk result
        ((k : ℕ) → HasPlace done.new k
        ↔ ((HasPlace done.old k ⊎ (k ≡ at)) ⊎ (HasPlace closed.now at × HasEdge graph.now at k))) }
{
    let row = &graph[at];
    seen.add(row)?;
    done.insert(at)?;
    if closed.has(at) {
        return done.add(row);
    }
    Ok(())
}
