//! The namespace and the name in requests that take over a node, by what a row takes over.

ghost use Rattle.std.specs.Prelude.{◌≡◌, ◌↔◌, IsTrue, MatchOption};
ghost use Rattle.std.specs.Option.{option_copied};
ghost use Rattle.rbac_terms.specs.Text.{BeginsWith, Text};
ghost use Rattle.rbac_paths.specs.Asked.{Asks, IsAnyUser, IsBootstrapperGroup};
ghost use Rattle.rbac_paths.specs.Nodes.{IsAccountNamed, Somebody, node_of};
ghost use Rattle.rbac_paths.specs.Steps.{kube_system};
ghost use Rattle.rbac_paths.specs.Taking.{IsBootstrapper, IsOver, scope_namespace};
ghost use Rattle.rbac_paths.specs.declared.table.Counts.{Counts};
ghost use Rattle.rbac_paths.specs.declared.table.Over.TheVariants as over;

use crate::node::Node;
use crate::table::Counts;
use rbac_terms::{Principal, Word};

// The namespace and the name in requests that take over a node: where they are made, in the empty
// namespace if that is the whole cluster, and the node's own name.
#[derive(Clone, Copy)]
pub(crate) struct Asked<'p> {
    pub(crate) namespace: &'p [u8],
    pub(crate) own: &'p [u8],
}

// The namespace and the name for a user who is no service account; `None` for any other node.
pub(crate) fn for_user(node: Node<'_>) -> Option<Asked<'_>>
    ensures { (counts : Counts) → Asks (IsOver over.Users counts (node_of node.entry)) result }
{
    match node {
        Node::Somebody(who) => for_plain_user(who),
        _ => None,
    }
}

// The namespace and the name for this principal, if it is a user and no service account.
fn for_plain_user(who: &Principal) -> Option<Asked<'_>>
    ensures { (counts : Counts) → Asks (IsOver over.Users counts (Somebody who.now)) result }
{
    if is_user(who) && account_parts(who).is_none() {
        Some(Asked {
            namespace: b"",
            own: who.name(),
        })
    } else {
        None
    }
}

// The namespace and the name for a group; `None` for any other node.
pub(crate) fn for_group(node: Node<'_>) -> Option<Asked<'_>>
    ensures { (counts : Counts) → Asks (IsOver over.Groups counts (node_of node.entry)) result }
{
    match node {
        Node::Somebody(who) if !is_user(who) => Some(Asked {
            namespace: b"",
            own: who.name(),
        }),
        _ => None,
    }
}

// The namespace and the name for a group that bootstrap tokens can have; `None` for any other node.
pub(crate) fn for_bootstrapper(node: Node<'_>) -> Option<Asked<'_>>
    ensures { (counts : Counts)
        → Asks (IsOver over.Bootstrappers counts (node_of node.entry)) result }
{
    match node {
        Node::Somebody(who) if is_bootstrapper(who) => Some(Asked {
            namespace: KUBE_SYSTEM,
            own: who.name(),
        }),
        _ => None,
    }
}

// The namespace and the name for a service account; `None` for any other node.
pub(crate) fn for_account(node: Node<'_>) -> Option<Asked<'_>>
    ensures { (counts : Counts) → Asks (IsOver over.Accounts counts (node_of node.entry)) result }
{
    match node {
        Node::Somebody(who) => {
            let (namespace, own) = account_parts(who)?;
            Some(Asked { namespace, own })
        }
        _ => None,
    }
}

// The namespace and the name for everything in a scope, which has no name; `None` for any other
// node. A row that counts only in the whole cluster takes over nothing in a namespace.
pub(crate) fn for_everything(counts: Counts, node: Node<'_>) -> Option<Asked<'_>>
    ensures { Asks (IsOver over.Everything counts (node_of node.entry)) result }
{
    match node {
        Node::Everything(scope) if counts == Counts::InNamespaces || scope.is_none() => {
            Some(Asked {
                namespace: scope_namespace(scope),
                own: b"",
            })
        }
        _ => None,
    }
}

// The namespace and the name for everything in a namespace, which has no name; `None` for any other
// node.
pub(crate) fn for_everything_in_namespace(node: Node<'_>) -> Option<Asked<'_>>
    ensures { (counts : Counts)
        → Asks (IsOver over.EverythingInNamespace counts (node_of node.entry)) result }
{
    match node {
        Node::Everything(Some(namespace)) => Some(Asked {
            namespace: namespace.as_bytes(),
            own: b"",
        }),
        _ => None,
    }
}

// The namespace and the name for a cluster role in a scope; `None` for any other node.
pub(crate) fn for_cluster_role(node: Node<'_>) -> Option<Asked<'_>>
    ensures { (counts : Counts)
        → Asks (IsOver over.ClusterRoles counts (node_of node.entry)) result }
{
    match node {
        Node::ClusterRole(role, scope) => Some(Asked {
            namespace: scope_namespace(scope),
            own: role.name.as_bytes(),
        }),
        _ => None,
    }
}

// The namespace and the name for a Role in its namespace; `None` for any other node.
pub(crate) fn for_role(node: Node<'_>) -> Option<Asked<'_>>
    ensures { (counts : Counts) → Asks (IsOver over.Roles counts (node_of node.entry)) result }
{
    match node {
        Node::Role(role) => Some(Asked {
            namespace: role.namespace.as_bytes(),
            own: role.name.as_bytes(),
        }),
        _ => None,
    }
}

// The namespace of a scope; empty for the whole cluster.
pub(crate) fn scope_namespace(scope: Option<&Word>) -> &[u8]
    ensures { result.now ≡ scope_namespace (option_copied scope.entry) }
{
    match scope {
        Some(namespace) => namespace.as_bytes(),
        None => b"",
    }
}

// Whether this is a user, and not a member of a group.
pub(crate) fn is_user(who: &Principal) -> bool
    ensures { IsTrue result ↔ IsAnyUser who.now }
{
    who.key().as_bytes().first() == Some(&b'u')
}

// Whether this is a group that bootstrap tokens can have.
pub(crate) fn is_bootstrapper(who: &Principal) -> bool
    ensures { IsTrue result ↔ IsBootstrapperGroup who.now }
{
    !is_user(who) && is_bootstrap_group(who.name())
}

// Whether bootstrap tokens can have the group with this name.
fn is_bootstrap_group(group: &[u8]) -> bool
    ensures { IsTrue result ↔ IsBootstrapper group.now }
{
    group == BOOTSTRAPPERS || begins_with(group, BOOTSTRAPPERS_OF)
}

// Whether the text begins with the prefix.
fn begins_with(text: &[u8], prefix: &[u8]) -> bool
    ensures { IsTrue result ↔ BeginsWith text.now prefix.now }
{
    text.starts_with(prefix)
}

// The namespace and the name of a service account; `None` if this is no service account.
pub(crate) fn account_parts(who: &Principal) -> Option<(&[u8], &[u8])>
    ensures { MatchOption result
        ((n m : Text) → ¬ IsAccountNamed who.now n m)
        (λ parts. (n m : Text) → IsAccountNamed who.now n m
        ↔ ((n ≡ parts.0.now) × (m ≡ parts.1.now))) }
{
    let namespace = who.account_namespace()?;
    let parts = who.name().get(ACCOUNT + namespace.len() + 1..)?;
    Some((namespace, parts))
}

// The group that each bootstrap token has, and what the names of its other groups begin with.
const BOOTSTRAPPERS: &[u8] = b"system:bootstrappers";

const BOOTSTRAPPERS_OF: &[u8] = b"system:bootstrappers:";

// The namespace of bootstrap tokens.
pub(crate) const KUBE_SYSTEM: &[u8] = b"kube-system";

// The length of the prefix of a service account's user name, in bytes.
const ACCOUNT: usize = b"system:serviceaccount:".len();
