//! The nodes among which paths and ways are searched, and their graph.

ghost use Rattle.std.specs.Prelude.{◌≡◌, ◌≢◌, AllPairs, IfOk, OnOk, map};
ghost use Rattle.rbac_terms.specs.Principals.{who_key};
ghost use Rattle.rbac_model.specs.Policies.{IsPolicy};
ghost use Rattle.rbac_paths.specs.Nodes.{node_of};
ghost use Rattle.rbac_paths.specs.Paths.{IsGraphOf};
ghost use Rattle.rbac_paths.specs.Searching.{AreEnough, AreJoined};

use crate::bound_names::bound_names;
use crate::graph::{NodeGraph, graph_of};
use crate::node::Node;
use crate::nodes::nodes_of;
use crate::told::{StepRows, rows_of_steps};
use rbac_model::Policy;
use rbac_steps::Step;
use rbac_subjects::SubjectIndex;
use rbac_terms::Principal;
use std::alloc::{AllocError, Global};

/// The nodes of a policy, and their graph by some steps.
pub(crate) struct NodeSearch<'p> {
    /// The steps, each with its rows.
    pub(crate) rows: Vec<StepRows>,
    /// The nodes, in order of their printed texts.
    pub(crate) nodes: Vec<Node<'p>>,
    /// Their graph.
    pub(crate) joined: NodeGraph,
}

impl Drop for NodeSearch<'_> {
    fn drop(self) {
        let Self {
            rows,
            nodes,
            joined,
        } = self;
    }
}

/// The nodes of a policy: these users and groups, no two of which may have the same key; the roles
/// that can be taken over, where they can be bound; and everything in a scope. Also their graph by
/// these steps. Fails only if it runs out of memory.
pub(crate) fn search_of<'p>(
    alloc: Global,
    policy: &'p Policy,
    index: &SubjectIndex<'p>,
    all: &[&'p Principal],
    steps: &[Step],
) -> Result<NodeSearch<'p>, AllocError>
    requires index { index.now ≡ policy.now }
    requires keys { AllPairs (λ a b. who_key a.now ≢ who_key b.now) all.now }
    ensures policy { OnOk result (IsPolicy policy.now) }
    ensures rows { IfOk result (λ search. search.rows.items ≡ steps.now) }
    ensures enough { IfOk result (λ search. AreEnough policy.now (map (λ who. who.now) all.now)
        steps.now (map node_of search.nodes.items)) }
    ensures graph { IfOk result (λ search. IsGraphOf policy.now steps.now
        (map node_of search.nodes.items) search.joined.graph) }
    ensures joined { IfOk result (λ search. AreJoined policy.now steps.now search.nodes.items
        search.joined.grants.items search.joined.places.items) }
{
    let names = bound_names(alloc, policy, steps)?;
    let listed = names.listed.as_slice();
    let named = names.all.as_slice();
    let nodes = nodes_of(alloc, policy, all, listed, named)?;
    let rows = rows_of_steps(alloc, steps)?;
    let joined = graph_of(alloc, policy, index, rows.as_slice(), nodes.as_slice())?;
    Ok(NodeSearch {
        rows,
        nodes,
        joined,
    })
}
