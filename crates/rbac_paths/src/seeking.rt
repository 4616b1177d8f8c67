//! The places of some nodes in a list.

ghost use Rattle.std.specs.Prelude.{◌↔◌, ℕ, Contains, IfOk, IsTrue, map};
ghost use Rattle.rbac_paths.specs.Joints.{IsNobody};
ghost use Rattle.rbac_paths.specs.Nodes.{node_of};
ghost use Rattle.rbac_paths.specs.Seeking.{HasKeyOf, IsSomebody, IsSought};
ghost use Rattle.rbac_paths.specs.Tracing.{IsAt};

use crate::node::Node;
use rbac_terms::Principal;
use std::alloc::{AllocError, Global};

/// Which nodes are looked for.
#[derive(Clone, Copy)]
pub(crate) enum Sought<'a> {
    /// The user or group with the key of this principal.
    KeyOf(&'a Principal),
    /// All users and groups.
    Somebody,
    /// The other nodes: roles, and everything in a scope.
    Nobody,
}

/// The places, from 0, of the nodes among these that are looked for.
pub(crate) fn places_of(
    alloc: Global,
    nodes: &[Node<'_>],
    sought: Sought<'_>,
) -> Result<Vec<usize>, AllocError>
    ensures { IfOk result (λ places. (j : ℕ)
        → Contains places.items j ↔ IsAt (IsSought sought.entry) (map node_of nodes.now) j) }
{
    let mut places = Vec::new(alloc);
    for (place, node) in nodes.iter().enumerate() {
        if is_sought(*node, sought) {
            places.push(place)?;
        }
    }
    Ok(places)
}

// Whether a node is looked for.
fn is_sought(node: Node<'_>, sought: Sought<'_>) -> bool
    ensures { IsTrue result ↔ IsSought sought.entry (node_of node.entry) }
{
    match sought {
        Sought::KeyOf(who) => has_key_of(node, who),
        Sought::Somebody => is_somebody(node),
        Sought::Nobody => is_nobody(node),
    }
}

// Whether a node is a user or a group with the key of `who`.
fn has_key_of(node: Node<'_>, who: &Principal) -> bool
    ensures { IsTrue result ↔ HasKeyOf who.now (node_of node.entry) }
{
    match node {
        Node::Somebody(other) => other.key() == who.key(),
        _ => false,
    }
}

// Whether a node is a user or a group.
fn is_somebody(node: Node<'_>) -> bool
    ensures { IsTrue result ↔ IsSomebody (node_of node.entry) }
{
    matches!(node, Node::Somebody(_))
}

/// Whether a node is one of the other nodes: a role, or everything in a scope.
pub(crate) fn is_nobody(node: Node<'_>) -> bool
    ensures { IsTrue result ↔ IsNobody (node_of node.entry) }
{
    !matches!(node, Node::Somebody(_))
}
