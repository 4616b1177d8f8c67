//! Meets the nodes of the search, level by level.

ghost use Rattle.std.specs.Prelude.{◌≡◌, ◌≤◌, ◌↔◌, ℕ, List, Option, OnOk, IfOk, Contains, []};
ghost use Rattle.std.specs.Prelude.{length};
ghost use Rattle.std.specs.List.Sorted.{IsStrictlyIncreasing};
ghost use Rattle.rbac_ways.specs.Ways.{IsEdge};
ghost use Rattle.rbac_ways.specs.Meeting.{AreMet, ArePassed, IsAfterLeast, IsFirstStop, IsNext};
ghost use Rattle.rbac_ways.specs.Meeting.{IsNextTo, IsOneOf, ListHas, MeetsNodes, SetHas, SomeHas};

use crate::graph::{Graph, Stop};
use std::alloc::{AllocError, Global};

// Which lists and which sets the search has passed.
#[derive(Drop)]
pub(crate) struct Passed {
    lists: Vec<bool>,
    sets: Vec<bool>,
}

// Nothing is passed yet.
pub(crate) fn nothing_passed(alloc: Global, graph: &Graph) -> Result<Passed, AllocError>
    ensures { IfOk result (λ passed. (stops : List (Option Stop))
        → ArePassed graph.now passed.lists.items passed.sets.items stops) }
{
    let lists = vec![in alloc; false; graph.lists.as_slice().len()]?;
    let sets = vec![in alloc; false; graph.sets.as_slice().len()]?;
    Ok(Passed { lists, sets })
}

// Meets the starts, with no node before them, and returns them in order.
pub(crate) fn first_level(
    alloc: Global,
    starts: &[usize],
    stops: &mut Vec<Option<Stop>>,
) -> Result<Vec<usize>, AllocError>
    ensures meets { IfOk result (λ level. MeetsNodes (Contains starts.now) (IsFirstStop starts.now)
        stops.old.items stops.new.items [] level.items) }
    ensures ordered { IfOk result (λ level. IsStrictlyIncreasing level.items) }
{
    let mut level = Vec::new(alloc);
    for start in starts {
        let stop = Stop {
            edges: 0,
            before: *start,
        };
        meet(*start, stop, stops, &mut level)?;
    }
    Ok(in_order(level))
}

// Meets the nodes to which nodes of this level have edges, and returns, in order, those that
// weren't met before.
pub(crate) fn next_level(
    alloc: Global,
    graph: &Graph,
    level: &[usize],
    edges: usize,
    passed: &mut Passed,
    stops: &mut Vec<Option<Stop>>,
) -> Result<Vec<usize>, AllocError>
    requires ordered { IsStrictlyIncreasing level.now }
    requires nodes { length stops.old.items ≡ length graph.now.takes }
    requires passed { ArePassed graph.now
        passed.old.lists.items passed.old.sets.items stops.old.items }
    ensures meets { IfOk result (λ next.
        MeetsNodes (IsNextTo graph.now level.now) (IsAfterLeast graph.now level.now edges)
        stops.old.items stops.new.items [] next.items) }
    ensures ordered { IfOk result (λ next. IsStrictlyIncreasing next.items) }
    ensures passed { IfOk result (λ _.
        ArePassed graph.now passed.new.lists.items passed.new.sets.items stops.new.items) }
{
    let mut next = Vec::new(alloc);
    for node in level {
        meet_next(graph, *node, edges, passed, stops, &mut next)?;
    }
    Ok(in_order(next))
}

// The numbers, each once, in order.
fn in_order(mut numbers: Vec<usize>) -> Vec<usize>
    ensures same { (n : ℕ) → Contains result.items n ↔ Contains numbers.items n }
    ensures ordered { IsStrictlyIncreasing result.items }
    ensures len { length result.items ≤ length numbers.items }
{
    numbers.sort_unstable();
    numbers.dedup();
    numbers
}

// Meets the nodes to which this node has an edge, and marks its lists as passed.
fn meet_next(
    graph: &Graph,
    node: usize,
    edges: usize,
    passed: &mut Passed,
    stops: &mut Vec<Option<Stop>>,
    level: &mut Vec<usize>,
) -> Result<(), AllocError>
    requires nodes { length stops.old.items ≡ length graph.now.takes }
    requires passed { ArePassed graph.now
        passed.old.lists.items passed.old.sets.items stops.old.items }
    ensures meets { OnOk result (MeetsNodes (IsEdge graph.now node) (IsNext graph.now edges node)
        stops.old.items stops.new.items level.old.items level.new.items) }
    ensures passed { OnOk result
        (ArePassed graph.now passed.new.lists.items passed.new.sets.items stops.new.items) }
{
    let Some(lists) = graph.takes.as_slice().get(node) else {
        return Ok(());
    };
    for list in lists.as_slice() {
        let stop = Stop {
            edges,
            before: node,
        };
        meet_list(graph, *list, stop, passed, stops, level)?;
    }
    Ok(())
}

// Meets the nodes of the sets of a list and marks the list as passed, unless it was passed before.
fn meet_list(
    graph: &Graph,
    list: usize,
    stop: Stop,
    passed: &mut Passed,
    stops: &mut Vec<Option<Stop>>,
    level: &mut Vec<usize>,
) -> Result<(), AllocError>
    requires { ArePassed graph.now
        passed.old.lists.items passed.old.sets.items stops.old.items }
    ensures meets { OnOk result (MeetsNodes (ListHas graph.now list)
        (IsOneOf (ListHas graph.now list) stop)
        stops.old.items stops.new.items level.old.items level.new.items) }
    ensures passed { OnOk result
        (ArePassed graph.now passed.new.lists.items passed.new.sets.items stops.new.items) }
{
    if let Some(false) = passed.lists.as_slice().get(list) {
        passed.lists[list] = true;
        let sets = graph.lists[list].as_slice();
        return meet_sets(graph, sets, stop, &mut passed.sets, stops, level);
    }
    Ok(())
}

// Meets the nodes of these sets and marks the sets as passed.
fn meet_sets(
    graph: &Graph,
    sets: &[usize],
    stop: Stop,
    passed: &mut Vec<bool>,
    stops: &mut Vec<Option<Stop>>,
    level: &mut Vec<usize>,
) -> Result<(), AllocError>
    requires sets { length passed.old.items ≡ length graph.now.sets }
    requires met { AreMet (SetHas graph.now) passed.old.items stops.old.items }
    ensures meets { OnOk result (MeetsNodes (SomeHas (SetHas graph.now) sets.now)
        (IsOneOf (SomeHas (SetHas graph.now) sets.now) stop)
        stops.old.items stops.new.items level.old.items level.new.items) }
    ensures sets { length passed.new.items ≡ length passed.old.items }
    ensures met { OnOk result (AreMet (SetHas graph.now) passed.new.items stops.new.items) }
{
    for set in sets {
        meet_set(graph, *set, stop, passed, stops, level)?;
    }
    Ok(())
}

// Meets the nodes of a set and marks the set as passed, unless it was passed before.
fn meet_set(
    graph: &Graph,
    set: usize,
    stop: Stop,
    passed: &mut Vec<bool>,
    stops: &mut Vec<Option<Stop>>,
    level: &mut Vec<usize>,
) -> Result<(), AllocError>
    requires sets { length passed.old.items ≡ length graph.now.sets }
    requires met { AreMet (SetHas graph.now) passed.old.items stops.old.items }
    ensures meets { OnOk result (MeetsNodes (SetHas graph.now set)
        (IsOneOf (SetHas graph.now set) stop)
        stops.old.items stops.new.items level.old.items level.new.items) }
    ensures sets { length passed.new.items ≡ length passed.old.items }
    ensures met { OnOk result (AreMet (SetHas graph.now) passed.new.items stops.new.items) }
{
    if let Some(false) = passed.as_slice().get(set) {
        passed[set] = true;
        return meet_each(graph.sets[set].as_slice(), stop, stops, level);
    }
    Ok(())
}

// Meets these nodes.
fn meet_each(
    nodes: &[usize],
    stop: Stop,
    stops: &mut Vec<Option<Stop>>,
    level: &mut Vec<usize>,
) -> Result<(), AllocError>
    ensures { OnOk result (MeetsNodes (Contains nodes.now) (IsOneOf (Contains nodes.now) stop)
        stops.old.items stops.new.items level.old.items level.new.items) }
{
    for node in nodes {
        meet(*node, stop, stops, level)?;
    }
    Ok(())
}

// Gives a node this stop and adds the node to the level, if it exists and wasn't met before.
fn meet(
    node: usize,
    stop: Stop,
    stops: &mut Vec<Option<Stop>>,
    level: &mut Vec<usize>,
) -> Result<(), AllocError>
    ensures { OnOk result (MeetsNodes (λ j. j ≡ node) (IsOneOf (λ j. j ≡ node) stop)
        stops.old.items stops.new.items level.old.items level.new.items) }
{
    if let Some(None) = stops.as_slice().get(node) {
        stops[node] = Some(stop);
        level.push(node)?;
    }
    Ok(())
}
