//! Graphs whose edges go through lists of sets, and where nodes are on shortest ways.

use rbac_terms::Items;
use std::marker::Model;

/// A graph whose edges go through lists of sets of nodes: an edge leads from each node that takes a
/// list to each node of a set of that list. So a list or a set that many nodes take is kept once.
/// Nodes, lists and sets are numbered from 0; a number past the last one is ignored (own).
pub struct Graph {
    /// The lists that each node takes.
    pub takes: Vec<Items<usize>>,
    /// The sets of each list.
    pub lists: Vec<Items<usize>>,
    /// The nodes of each set.
    pub sets: Vec<Items<usize>>,
}

impl Drop for Graph {
    fn drop(self) {
        let Self { takes, lists, sets } = self;
    }
}

impl Model for Graph {
    ghost use Rattle.rbac_ways.specs.Ways.{GraphView};

    ghost Value = { GraphView };

    ghost view = { λ g. record {
      takes = g.takes.items;
      lists = g.lists.items;
      sets = g.sets.items;
    } };
}

/// Where a node is on a shortest way.
#[derive(Clone, Copy, PartialEq, Eq, Debug, Drop)]
pub struct Stop {
    /// How many edges the way to the node has.
    pub edges: usize,
    /// The node before it on the way; the node itself if the way has no edges.
    pub before: usize,
}

/// The nodes that ways lead to.
pub struct Reached {
    /// For each node of the graph, where it is on a shortest way; `None` if no way leads to it.
    pub stops: Vec<Option<Stop>>,
    /// The nodes that ways lead to, in order of how many edges the ways have, and then of their own
    /// numbers.
    pub order: Vec<usize>,
}

impl Drop for Reached {
    fn drop(self) {
        let Self { stops, order } = self;
    }
}
