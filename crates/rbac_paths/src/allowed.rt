//! Which nodes allow a request. Each grant is checked once, and not again for each node that has
//! it.

ghost use Rattle.std.specs.Prelude.{◌≡◌, ◌↔◌, All, Any, Contains, IfOk, IsTrue, false, map, ℕ};
ghost use Rattle.std.specs.Prelude.{slice_index_or};
ghost use Rattle.rbac_model.specs.Policies.{IsPolicy};
ghost use Rattle.rbac_paths.specs.Access.{AccessView, AllowsAccess, access_of};
ghost use Rattle.rbac_paths.specs.Aims.{Serves, ToBeAllowed};
ghost use Rattle.rbac_paths.specs.Allowed.{MarkAllowing};
ghost use Rattle.rbac_paths.specs.Having.{rule_of_all};
ghost use Rattle.rbac_paths.specs.Nodes.{Somebody, node_of};
ghost use Rattle.rbac_paths.specs.Told.{HasItsRole};
ghost use Rattle.rbac_paths.specs.Tracing.{IsAt};

use crate::access::Access;
use crate::holding::{Holding, holdings_of, rule_of_all};
use crate::listed::is_marked;
use crate::node::Node;
use rbac_model::Policy;
use rbac_subjects::SubjectIndex;
use rbac_terms::{Principal, Rule};
use std::alloc::{AllocError, Global};

/// The places, from 0, of the nodes among these that allow the request.
pub(crate) fn places_of_allowing(
    alloc: Global,
    policy: &Policy,
    index: &SubjectIndex<'_>,
    nodes: &[Node<'_>],
    access: Access<'_>,
) -> Result<Vec<usize>, AllocError>
    requires policy { IsPolicy policy.now }
    requires index { index.now ≡ policy.now }
    requires held { All (HasItsRole policy.now.held) (map node_of nodes.now) }
    ensures { IfOk result (λ places. (j : ℕ) → Contains places.items j
        ↔ IsAt (AllowsAccess policy.now (access_of access.entry)) (map node_of nodes.now) j) }
{
    let all = rule_of_all(alloc)?;
    let marks = allowing_bindings(alloc, policy, access)?;
    let marks = marks.as_slice();
    let mut places = Vec::new(alloc);
    for (place, node) in nodes.iter().enumerate() {
        if allows(alloc, policy, index, &all, marks, *node, access)? {
            places.push(place)?;
        }
    }
    Ok(places)
}

// Whether a node allows the request. `marks` marks the bindings that have a grant which allows it.
fn allows(
    alloc: Global,
    policy: &Policy,
    index: &SubjectIndex<'_>,
    all: &Rule,
    marks: &[bool],
    node: Node<'_>,
    access: Access<'_>,
) -> Result<bool, AllocError>
    requires policy { IsPolicy policy.now }
    requires index { index.now ≡ policy.now }
    requires all { all.now ≡ rule_of_all }
    requires marks { MarkAllowing policy.now (access_of access) marks.now }
    requires role { HasItsRole policy.now.held (node_of node) }
    ensures { IfOk result (λ does. IsTrue does
        ↔ AllowsAccess policy.now (access_of access.entry) (node_of node.entry)) }
{
    match node {
        Node::Somebody(who) => is_allowed(alloc, index, marks, who),
        _ => rules_allow(alloc, policy, index, all, node, access),
    }
}

// Whether the request is allowed to a principal: whether a binding that names it is marked.
fn is_allowed(
    alloc: Global,
    index: &SubjectIndex<'_>,
    marks: &[bool],
    who: &Principal,
) -> Result<bool, AllocError>
    requires { IsPolicy index.now }
    ensures { (asked : AccessView) → MarkAllowing index.now asked marks.now
        → IfOk result (λ is. IsTrue is ↔ AllowsAccess index.now asked (Somebody who.now)) }
{
    let places = index.named_places(alloc, who)?;
    Ok(some_is_marked(marks, places.as_slice()))
}

// Whether one of these places is marked.
fn some_is_marked(marks: &[bool], places: &[usize]) -> bool
    ensures { IsTrue result
        ↔ Any (λ place. IsTrue (slice_index_or marks.now place false)) places.now }
{
    places.iter().any(|place| is_marked(marks, *place))
}

// Whether one of the rules that a node has allows the request.
fn rules_allow(
    alloc: Global,
    policy: &Policy,
    index: &SubjectIndex<'_>,
    all: &Rule,
    node: Node<'_>,
    access: Access<'_>,
) -> Result<bool, AllocError>
    requires policy { IsPolicy policy.now }
    requires index { index.now ≡ policy.now }
    requires all { all.now ≡ rule_of_all }
    requires role { HasItsRole policy.now.held (node_of node) }
    ensures { IfOk result (λ does. IsTrue does
        ↔ AllowsAccess policy.now (access_of access.entry) (node_of node.entry)) }
{
    let holdings = holdings_of(alloc, policy, index, all, node)?;
    Ok(some_gives(holdings.as_slice(), access))
}

// Whether one of these holdings allows the request.
fn some_gives(holdings: &[Holding<'_>], access: Access<'_>) -> bool
    ensures { IsTrue result ↔ Any
        (λ h. Serves (ToBeAllowed (access_of access.entry)) h.home h.rule) holdings.now }
{
    holdings.iter().any(|held| access.is_given_by(held))
}

// For each binding, whether one of its grants allows the request.
fn allowing_bindings(
    alloc: Global,
    policy: &Policy,
    access: Access<'_>,
) -> Result<Vec<bool>, AllocError>
    requires { IsPolicy policy.now }
    ensures { IfOk result
        (λ marks. MarkAllowing policy.now (access_of access.entry) marks.items) }
{
    let mut marks = vec![in alloc; false; policy.bindings().len()]?;
    for no in 0..policy.len() {
        let grant = policy.grant(no);
        if access.is_given_by(&Holding::by(grant)) {
            marks[grant.binding_place] = true;
        }
    }
    Ok(marks)
}
