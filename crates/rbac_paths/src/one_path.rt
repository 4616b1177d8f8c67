//! The one path to a node that is asked for, among all paths from a start.

ghost use Rattle.std.specs.Prelude.{◌≡◌, ◌↔◌, IfOk, IsTrue, List, reverse};
ghost use Rattle.std.specs.Option.{option_copied};
ghost use Rattle.rbac_terms.specs.Principals.{Who};
ghost use Rattle.rbac_model.specs.Policies.{PolicyView};
ghost use Rattle.rbac_steps.specs.declared.steps.Step.{Step};
ghost use Rattle.rbac_paths.specs.Nodes.{Somebody, node_of};
ghost use Rattle.rbac_paths.specs.OnePath.{IsIn, IsPathTo, IsPrintedBefore, IsTo};
ghost use Rattle.rbac_paths.specs.OnePath.{IsWantedNext};
ghost use Rattle.rbac_paths.specs.Paths.{ArePathsOf};

use crate::all_paths::Path;
use crate::node::{Node, what_of};
use crate::nodes::text_of;
use rbac_terms::Word;
use std::alloc::{AllocError, Global};

/// The one path from the start to a node, step by step, if `found` are the paths from this start.
/// `to` is who or what the node is, as `paths` prints it, but without escapes: a key,
/// `ClusterRole/NAME`, `Role/NAMESPACE/NAME`, or `*` for everything. A cluster role or everything
/// is meant in `scope`, which is a namespace, or the whole cluster if there is none. If no path
/// leads there, the result is empty (own). Fails only if it runs out of memory.
pub fn path_to<'p>(
    alloc: Global,
    found: &[Path<'p>],
    to: &Word,
    scope: Option<&Word>,
) -> Result<Vec<Path<'p>>, AllocError>
    ensures { IfOk result (λ chain. (p : PolicyView) (principals : List Who) (steps : List Step)
        (who : Who) → ArePathsOf p principals steps who found.now
        → IsPathTo (Somebody who) to.now (option_copied scope.entry) found.now chain.items) }
{
    let mut chain = Vec::new(alloc);
    for path in found.iter().rev() {
        if is_wanted(alloc, path, chain.as_slice(), to, scope)? {
            chain.push(copy_of(path))?;
        }
    }
    chain.reverse();
    Ok(chain)
}

// Whether a path is wanted next: the path to TO if none is taken yet, and otherwise the path to the
// node before the last one that was taken.
fn is_wanted(
    alloc: Global,
    path: &Path<'_>,
    taken: &[Path<'_>],
    to: &Word,
    scope: Option<&Word>,
) -> Result<bool, AllocError>
    ensures { IfOk result (λ is. IsTrue is
        ↔ IsWantedNext to.now (option_copied scope.entry) (reverse taken.now) path.now) }
{
    match taken.last() {
        Some(last) => is_before(alloc, path, last),
        None => is_to(alloc, path.node, to, scope),
    }
}

// Whether a path has one step less than another one, and its node is printed as the node before
// that one.
fn is_before(alloc: Global, path: &Path<'_>, after: &Path<'_>) -> Result<bool, AllocError>
    ensures { IfOk result (λ is. IsTrue is ↔ IsPrintedBefore after.now path.now) }
{
    if after.count <= path.count || after.count - path.count != 1 {
        return Ok(false);
    }
    Ok(text_of(alloc, path.node)? == text_of(alloc, after.before)?)
}

// Whether a node is TO.
fn is_to(alloc: Global, node: Node<'_>, to: &Word, scope: Option<&Word>) -> Result<bool, AllocError>
    ensures { IfOk result
        (λ is. IsTrue is ↔ IsTo to.now (option_copied scope.entry) (node_of node.entry)) }
{
    if !is_in(node, scope) {
        return Ok(false);
    }
    Ok(what_of(alloc, node)? == *to)
}

// Whether a cluster role or everything is in this scope; true for any other node.
fn is_in(node: Node<'_>, scope: Option<&Word>) -> bool
    ensures { IsTrue result ↔ IsIn (option_copied scope.entry) (node_of node.entry) }
{
    match node {
        Node::Somebody(_) => true,
        Node::ClusterRole(_, there) => is_same_scope(there, scope),
        Node::Role(_) => true,
        Node::Everything(there) => is_same_scope(there, scope),
    }
}

// Whether both are the same namespace, or both the whole cluster.
pub(crate) fn is_same_scope(scope: Option<&Word>, other: Option<&Word>) -> bool
    ensures { IsTrue result ↔ (option_copied scope.entry ≡ option_copied other.entry) }
{
    match (scope, other) {
        (None, None) => true,
        (Some(scope), Some(other)) => scope == other,
        _ => false,
    }
}

// A path that is the same.
fn copy_of<'p>(path: &Path<'p>) -> Path<'p>
    ensures { result ≡ path.now }
{
    Path {
        count: path.count,
        node: path.node,
        before: path.before,
        step: path.step,
        reason: path.reason,
    }
}
