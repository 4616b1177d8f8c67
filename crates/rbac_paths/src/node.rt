//! Nodes: whom and what one can take over.

ghost use Rattle.std.specs.Prelude.{◌≡◌, ◌++◌, IfOk, OnOk, codes};
ghost use Rattle.rbac_text.specs.Row.{field_and_tab};
ghost use Rattle.rbac_paths.specs.NodeLists.{node_text, where_text, who_or_what};
ghost use Rattle.rbac_paths.specs.Nodes.{node_of};

use rbac_terms::{CLUSTER_ROLE, ClusterRole, Principal, Role, Word};
use rbac_text::{put_choice_and_tab, put_field_and_tab, put_role};
use std::alloc::{AllocError, Global};

/// Whom or what a step can take over: a user or a group, a role where it can be bound, or
/// everything in a scope (own).
#[derive(Clone, Copy)]
pub enum Node<'p> {
    /// A user or a group.
    Somebody(&'p Principal),
    /// A cluster role, bound in this namespace, or in the whole cluster if there is none.
    ClusterRole(&'p ClusterRole, Option<&'p Word>),
    /// A Role, bound in its own namespace.
    Role(&'p Role),
    /// Everything in this namespace, or in the whole cluster if there is none.
    Everything(Option<&'p Word>),
}

/// Adds who or what a node is, and where, as two fields with a tab after each (own). A user or a
/// group is printed as its key and `-`. Any other node is printed as `ClusterRole/NAME`,
/// `Role/NAMESPACE/NAME` or, for everything, `*`, and its namespace, or `*` for the whole cluster.
/// If it runs out of memory, a prefix of both may have been added.
pub(crate) fn put_node(line: &mut Vec<u8>, node: Node<'_>) -> Result<(), AllocError>
    ensures { OnOk result (line.new.items ≡ line.old.items ++ node_text (node_of node.entry)) }
{
    put_what(line, node)?;
    put_where(line, node)
}

// Adds who or what a node is, and a tab.
pub(crate) fn put_what(line: &mut Vec<u8>, node: Node<'_>) -> Result<(), AllocError>
    ensures { OnOk result
        (line.new.items ≡ line.old.items ++ field_and_tab (who_or_what (node_of node.entry))) }
{
    match node {
        Node::Somebody(who) => put_field_and_tab(line, who.key().as_bytes()),
        Node::ClusterRole(role, _) => put_cluster_role(line, role),
        Node::Role(role) => put_own_role(line, role),
        Node::Everything(_) => put_field_and_tab(line, b"*"),
    }
}

// Adds where a node is, and a tab. A user or a group is nowhere, which is printed as `-`.
fn put_where(line: &mut Vec<u8>, node: Node<'_>) -> Result<(), AllocError>
    ensures { OnOk result (line.new.items ≡ line.old.items ++ where_text (node_of node.entry)) }
{
    match node {
        Node::Somebody(_) => put_field_and_tab(line, b""),
        Node::ClusterRole(_, scope) => put_choice_and_tab(line, scope),
        Node::Role(role) => put_choice_and_tab(line, Some(&role.namespace)),
        Node::Everything(scope) => put_choice_and_tab(line, scope),
    }
}

// Adds `ClusterRole/NAME` as one field, and a tab.
pub(crate) fn put_cluster_role(line: &mut Vec<u8>, role: &ClusterRole) -> Result<(), AllocError>
    ensures { OnOk result (line.new.items
        ≡ line.old.items ++ field_and_tab (codes "ClusterRole/" ++ role.now.name)) }
{
    let name = cluster_role_word(*line.allocator(), role)?;
    put_field_and_tab(line, name.as_bytes())
}

// `ClusterRole/NAME`.
fn cluster_role_word(alloc: Global, role: &ClusterRole) -> Result<Word, AllocError>
    ensures { IfOk result (λ word. word ≡ codes "ClusterRole/" ++ role.now.name) }
{
    let mut word = Word::from_slice(alloc, CLUSTER_ROLE.as_bytes())?;
    word.push(b'/')?;
    word.push_slice(role.name.as_bytes())?;
    Ok(word)
}

// `Role/NAMESPACE/NAME`.
fn own_role_word(alloc: Global, role: &Role) -> Result<Word, AllocError>
    ensures { IfOk result
        (λ word. word ≡ codes "Role/" ++ role.now.namespace ++ codes "/" ++ role.now.name) }
{
    let mut word = Word::from_slice(alloc, b"Role/".as_slice())?;
    word.push_slice(role.namespace.as_bytes())?;
    word.push(b'/')?;
    word.push_slice(role.name.as_bytes())?;
    Ok(word)
}

/// Who or what a node is, without the escapes of a printed field.
pub(crate) fn what_of(alloc: Global, node: Node<'_>) -> Result<Word, AllocError>
    ensures { IfOk result (λ word. word ≡ who_or_what (node_of node.entry)) }
{
    match node {
        Node::Somebody(who) => who.key().clone(),
        Node::ClusterRole(role, _) => cluster_role_word(alloc, role),
        Node::Role(role) => own_role_word(alloc, role),
        Node::Everything(_) => Word::from_slice(alloc, b"*".as_slice()),
    }
}

// Adds `Role/NAMESPACE/NAME` as one field, and a tab.
pub(crate) fn put_own_role(line: &mut Vec<u8>, role: &Role) -> Result<(), AllocError>
    ensures { OnOk result (line.new.items ≡ line.old.items
        ++ field_and_tab (codes "Role/" ++ role.now.namespace ++ codes "/" ++ role.now.name)) }
{
    put_role(line, &role.namespace, &role.name)?;
    line.push(b'\t')?;
    Ok(())
}
