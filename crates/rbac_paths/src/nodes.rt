//! The nodes of a policy, in order of their printed texts.

ghost use Rattle.std.specs.Prelude.{◌≡◌, ◌≢◌, ◌↔◌, AllPairs, Any, Contains, IfOk, OnOk, Option, map};
ghost use Rattle.std.specs.BTreeMap.{IsOrdered, values};
ghost use Rattle.std.specs.List.Sorted.{IsSorted};
ghost use Rattle.std.specs.Option.{option_copied};
ghost use Rattle.rbac_terms.specs.Text.{Text, text_cmp};
ghost use Rattle.rbac_terms.specs.Principals.{who_key};
ghost use Rattle.rbac_terms.specs.declared.granting.ClusterRole.{ClusterRole};
ghost use Rattle.rbac_model.specs.Policies.{IsPolicy};
ghost use Rattle.rbac_paths.specs.AddingNodes.{AddsNodes, IsInScope, IsInSomeScope, IsNamedRole};
ghost use Rattle.rbac_paths.specs.AddingNodes.{IsRoleThere, IsSomeBoundRole, ScopesAreThere};
ghost use Rattle.rbac_paths.specs.AddingNodes.{filled_namespace};
ghost use Rattle.rbac_paths.specs.NodeLists.{AreNodes, IsScope, node_text};
ghost use Rattle.rbac_paths.specs.Nodes.{Somebody, node_of};

use crate::node::{Node, put_node};
use rbac_model::Policy;
use rbac_terms::{Binding, ClusterRole, Principal, Role, Word, is_among};
use std::alloc::{AllocError, Global};
use std::collections::BTreeMap;

// Nodes. The key of each is its printed text: who or what, and where.
type Printed<'p> = BTreeMap<Word, Node<'p>>;

/// The nodes of a policy (own): these users and groups; the cluster roles with one of the listed
/// names, and the Roles with one of `names`, in each scope where they can be bound; and everything
/// in each scope. Nodes are in order of who and where, byte by byte as printed. No two of the users
/// and groups may have the same key, and the names are in byte order. Fails only if it runs out of
/// memory.
pub(crate) fn nodes_of<'p>(
    alloc: Global,
    policy: &'p Policy,
    principals: &[&'p Principal],
    listed: &[Word],
    names: &[Word],
) -> Result<Vec<Node<'p>>, AllocError>
    requires keys { AllPairs (λ a b. who_key a.now ≢ who_key b.now) principals.now }
    requires listed { IsSorted text_cmp listed.now }
    requires names { IsSorted text_cmp names.now }
    ensures { IfOk result (λ nodes. AreNodes policy.now (map (λ who. who.now) principals.now)
        listed.now names.now (map node_of nodes.items)) }
{
    let mut nodes = BTreeMap::new(alloc);
    add_principals(alloc, principals, &mut nodes)?;
    add_scopes(alloc, policy, listed, &mut nodes)?;
    add_roles(alloc, policy, names, &mut nodes)?;
    in_order(alloc, &nodes)
}

// The nodes of the map, in order of their printed texts.
fn in_order<'p>(alloc: Global, nodes: &Printed<'p>) -> Result<Vec<Node<'p>>, AllocError>
    ensures items { IfOk result (λ list. list.items ≡ values nodes.now) }
    ensures ordered { IsOrdered text_cmp nodes.now }
{
    nodes.values().copied().collect(alloc)
}

// Adds these users and groups.
fn add_principals<'p>(
    alloc: Global,
    principals: &[&'p Principal],
    nodes: &mut Printed<'p>,
) -> Result<(), AllocError>
    ensures { OnOk result (AddsNodes
        (λ y. Any (λ who. y ≡ Somebody who.now) principals.now) nodes.old nodes.new) }
{
    for who in principals {
        add_node(alloc, Node::Somebody(*who), nodes)?;
    }
    Ok(())
}

// Adds, for each scope, everything there, and the cluster roles with one of these names.
fn add_scopes<'p>(
    alloc: Global,
    policy: &'p Policy,
    names: &[Word],
    nodes: &mut Printed<'p>,
) -> Result<(), AllocError>
    requires { IsSorted text_cmp names.now }
    ensures { OnOk result (AddsNodes (IsInSomeScope policy.now names.now) nodes.old nodes.new) }
{
    let roles = named_cluster_roles(alloc, policy, names)?;
    let scopes = scopes_of(alloc, policy)?;
    for scope in &scopes {
        add_in_scope(alloc, roles.as_slice(), *scope, nodes)?;
    }
    Ok(())
}

// The cluster roles with one of these names.
fn named_cluster_roles<'p>(
    alloc: Global,
    policy: &'p Policy,
    names: &[Word],
) -> Result<Vec<&'p ClusterRole>, AllocError>
    requires { IsSorted text_cmp names.now }
    ensures { IfOk result (λ roles. (role : ClusterRole)
        → Contains (map (λ each. each.now) roles.items) role
        ↔ IsNamedRole policy.now.held.cluster_roles names.now role) }
{
    let mut named = Vec::new(alloc);
    for role in policy.objects().cluster_roles() {
        let name = role.name.as_bytes();
        if is_among(names, name) {
            named.push(role)?;
        }
    }
    Ok(named)
}

// The scopes: the whole cluster, and each namespace that has a RoleBinding, except the empty one.
// Bindings are in order of their namespaces, so each scope is listed once.
fn scopes_of<'p>(alloc: Global, policy: &'p Policy) -> Result<Vec<Option<&'p Word>>, AllocError>
    ensures { IfOk result (λ scopes. (scope : Option Text)
        → Contains (map (λ s. option_copied s) scopes.items) scope ↔ IsScope policy.now scope) }
{
    let mut last = None;
    let mut scopes = vec![in alloc; last]?;
    for binding in policy.bindings() {
        let scope = scope_of(binding);
        if scope != last {
            scopes.push(scope)?;
            last = scope;
        }
    }
    Ok(scopes)
}

// The namespace of a binding as a scope: `None`, which means the whole cluster, for a
// ClusterRoleBinding. Also `None` for a binding in the empty namespace, which is no scope, because
// no binding is live there.
fn scope_of(binding: &Binding) -> Option<&Word>
    ensures { option_copied result ≡ filled_namespace binding.now.namespace }
{
    match &binding.namespace {
        Some(namespace) if !namespace.is_empty() => Some(namespace),
        _ => None,
    }
}

// Adds everything in a scope, and these cluster roles there.
fn add_in_scope<'p>(
    alloc: Global,
    roles: &[&'p ClusterRole],
    scope: Option<&'p Word>,
    nodes: &mut Printed<'p>,
) -> Result<(), AllocError>
    ensures { OnOk result
        (AddsNodes (IsInScope roles.now (option_copied scope.entry)) nodes.old nodes.new) }
{
    add_node(alloc, Node::Everything(scope), nodes)?;
    for role in roles {
        add_node(alloc, Node::ClusterRole(*role, scope), nodes)?;
    }
    Ok(())
}

// Adds the Roles that have one of these names and whose namespace is a scope. The scopes were added
// before.
fn add_roles<'p>(
    alloc: Global,
    policy: &'p Policy,
    names: &[Word],
    nodes: &mut Printed<'p>,
) -> Result<(), AllocError>
    requires names { IsSorted text_cmp names.now }
    requires scopes { ScopesAreThere policy.now nodes.old }
    ensures added { OnOk result
        (AddsNodes (IsSomeBoundRole policy.now names.now) nodes.old nodes.new) }
    ensures policy { OnOk result (IsPolicy policy.now) }
{
    for role in policy.objects().roles() {
        if is_among(names, role.name.as_bytes()) {
            add_role(alloc, role, nodes)?;
        }
    }
    Ok(())
}

// Adds a Role if its namespace is a scope, that is, if everything in this namespace was added
// before.
fn add_role<'p>(alloc: Global, role: &'p Role, nodes: &mut Printed<'p>) -> Result<(), AllocError>
    ensures { OnOk result (AddsNodes (IsRoleThere nodes.old role.now) nodes.old nodes.new) }
{
    let scope = text_of(alloc, Node::Everything(Some(&role.namespace)))?;
    if nodes.contains_key(&scope) {
        add_node(alloc, Node::Role(role), nodes)?;
    }
    Ok(())
}

// Adds a node under its printed text.
fn add_node<'p>(alloc: Global, node: Node<'p>, nodes: &mut Printed<'p>) -> Result<(), AllocError>
    ensures { OnOk result (AddsNodes (λ y. y ≡ node_of node.entry) nodes.old nodes.new) }
{
    nodes.insert(text_of(alloc, node)?, node)?;
    Ok(())
}

/// The printed text of a node: who or what it is, and where, each with a tab after it.
pub(crate) fn text_of(alloc: Global, node: Node<'_>) -> Result<Word, AllocError>
    ensures { IfOk result (λ text. text ≡ node_text (node_of node.entry)) }
{
    let mut text = Vec::new(alloc);
    put_node(&mut text, node)?;
    Word::from_slice(alloc, text.as_slice())
}
