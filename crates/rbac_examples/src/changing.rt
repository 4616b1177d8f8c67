//! The objects after a change, and the policy of objects.

use crate::objects::{Kind, Row, binds, has_verb, object};
use crate::policies::{RuleRow, binding, cluster_role, rule};
use crate::words::{built, check, is, is_of};
use rbac_manifest::{At, Cause, LoadFault, changed, load_objects, load_policy};
use rbac_model::Object;
use rbac_streams::{Input, Source, read_slice};
use rbac_terms::Rules;
use std::alloc::Global;
use std::process::Abort;

fn objects(rt: &impl Abort, alloc: Global, rows: &[Row<'_>]) -> Vec<Object> {
    let mut all = Vec::new(alloc);
    for row in rows {
        built(rt, all.push(object(rt, alloc, row)));
    }
    all
}

// Whether this is the wanted object.
fn is_row(object: &Object, row: &Row<'_>) -> bool {
    let (kind, namespace, name, word) = *row;
    match (kind, object) {
        (Kind::Role, Object::Role(role)) => {
            is(&role.namespace, namespace) && is(&role.name, name) && has_verb(&role.rules, word)
        }
        (Kind::ClusterRole, Object::ClusterRole(role)) => {
            is(&role.name, name) && has_verb(&role.rules, word)
        }
        (Kind::RoleBinding, Object::Binding(binding)) => {
            is_of(binding.namespace.as_ref(), Some(namespace))
                && is(&binding.name, name)
                && binds(&binding.role, word)
        }
        (Kind::ClusterRoleBinding, Object::Binding(binding)) => {
            binding.namespace.is_none() && is(&binding.name, name) && binds(&binding.role, word)
        }
        _ => false,
    }
}

// Objects named `a`, of which two are the same Role, and one named `b`.
const BEFORE: &[Row<'static>] = &[
    (Kind::Role, "dev", "a", "get"),
    (Kind::Role, "Prod", "a", "get"),
    (Kind::ClusterRole, "", "a", "get"),
    (Kind::Role, "dev", "a", "list"),
    (Kind::RoleBinding, "dev", "a", "first"),
    (Kind::ClusterRoleBinding, "", "a", "first"),
    (Kind::Role, "dev", "b", "get"),
];

// What is tried, the objects that are taken away, those that are put over, and those after the
// change.
type Change<'a> = (&'a str, &'a [Row<'a>], &'a [Row<'a>], &'a [Row<'a>]);

const CHANGES: &[Change<'static>] = &[
    (
        "a Role in one namespace, given twice, whatever its rules",
        &[(Kind::Role, "dev", "a", "watch")],
        &[],
        &[
            (Kind::Role, "Prod", "a", "get"),
            (Kind::ClusterRole, "", "a", "get"),
            (Kind::RoleBinding, "dev", "a", "first"),
            (Kind::ClusterRoleBinding, "", "a", "first"),
            (Kind::Role, "dev", "b", "get"),
        ],
    ),
    (
        "a ClusterRole and a ClusterRoleBinding",
        &[
            (Kind::ClusterRoleBinding, "", "a", "first"),
            (Kind::ClusterRole, "", "a", "get"),
        ],
        &[],
        &[
            (Kind::Role, "dev", "a", "get"),
            (Kind::Role, "Prod", "a", "get"),
            (Kind::Role, "dev", "a", "list"),
            (Kind::RoleBinding, "dev", "a", "first"),
            (Kind::Role, "dev", "b", "get"),
        ],
    ),
    (
        "put over what was taken away, in the order given",
        &[
            (Kind::Role, "dev", "b", "get"),
            (Kind::Role, "Prod", "a", "get"),
            (Kind::RoleBinding, "dev", "a", "first"),
            (Kind::Role, "dev", "a", "get"),
        ],
        &[
            (Kind::Role, "dev", "b", "list"),
            (Kind::Role, "dev", "a", "watch"),
        ],
        &[
            (Kind::ClusterRole, "", "a", "get"),
            (Kind::ClusterRoleBinding, "", "a", "first"),
            (Kind::Role, "dev", "b", "list"),
            (Kind::Role, "dev", "a", "watch"),
        ],
    ),
    (
        "none of these names is given",
        &[
            (Kind::Role, "prod", "a", "get"),
            (Kind::RoleBinding, "", "a", "first"),
            (Kind::ClusterRole, "", "b", "get"),
            (Kind::RoleBinding, "dev", "b", "first"),
        ],
        &[],
        BEFORE,
    ),
];

fn are_rows(objects: &[Object], rows: &[Row<'_>]) -> bool {
    objects.len() == rows.len()
        && objects
            .iter()
            .zip(rows)
            .all(|(object, row)| is_row(object, row))
}

// Whether the change makes the wanted objects of those before it.
fn makes(rt: &impl Abort, alloc: Global, before: &[Object], change: &Change<'_>) -> bool {
    let (_, without, over, after) = *change;
    let without = objects(rt, alloc, without);
    let over = objects(rt, alloc, over);
    let made = built(rt, changed(alloc, before, without.as_slice(), over));
    are_rows(made.as_slice(), after)
}

#[test]
fn a_change_takes_away_by_kind_namespace_and_name(rt: HostRuntime) {
    let alloc = rt.alloc();
    let before = objects(&rt, alloc, BEFORE);
    for change in CHANGES {
        check(&rt, change.0, makes(&rt, alloc, before.as_slice(), change));
    }
}

fn input(rt: &impl Abort, alloc: Global, text: &[u8]) -> Input {
    let mut source = Source::new(text);
    built(rt, read_slice(alloc, &mut source))
}

// Six objects, and a Namespace. The ClusterRole `readers` gathers the two rules of `pods`; the
// later Role `a` has two rules, and the earlier one has one.
const OBJECTS: &[u8] = br#"{"apiVersion": "v1", "kind": "List", "items": [
    {"apiVersion": "rbac.authorization.k8s.io/v1", "kind": "Role", "metadata": {"name": "a", "namespace": "dev"},
     "rules": [{"verbs": ["get"], "apiGroups": [""], "resources": ["pods"]}]},
    {"apiVersion": "rbac.authorization.k8s.io/v1", "kind": "ClusterRole", "metadata": {"name": "readers"},
     "aggregationRule": {"clusterRoleSelectors": [{"matchLabels": {"to": "readers"},
       "matchExpressions": [{"key": "tier", "operator": "In", "values": ["low", "high"]}]}]}},
    {"apiVersion": "rbac.authorization.k8s.io/v1", "kind": "ClusterRole",
     "metadata": {"name": "pods", "labels": {"to": "readers", "tier": "low"}},
     "rules": [{"verbs": ["get"], "apiGroups": [""], "resources": ["pods"], "resourceNames": ["one"]},
       {"verbs": ["get"], "nonResourceURLs": ["/healthz"]}]},
    {"apiVersion": "v1", "kind": "Namespace", "metadata": {"name": "dev"}},
    {"apiVersion": "rbac.authorization.k8s.io/v1", "kind": "RoleBinding", "metadata": {"name": "a", "namespace": "dev"},
     "roleRef": {"apiGroup": "rbac.authorization.k8s.io", "kind": "Role", "name": "a"},
     "subjects": [{"kind": "User", "name": "alice"}, {"kind": "Group", "name": "devs"}]},
    {"apiVersion": "rbac.authorization.k8s.io/v1", "kind": "ClusterRoleBinding", "metadata": {"name": "a"},
     "roleRef": {"apiGroup": "rbac.authorization.k8s.io", "kind": "ClusterRole", "name": "readers"},
     "subjects": [{"kind": "ServiceAccount", "namespace": "dev", "name": "bot"}]},
    {"apiVersion": "rbac.authorization.k8s.io/v1", "kind": "Role", "metadata": {"name": "a", "namespace": "dev"},
     "rules": [{"verbs": ["get"], "apiGroups": [""], "resources": ["pods"]},
       {"verbs": ["list"], "apiGroups": ["apps"], "resources": ["deployments"]}]}]}"#;

// Whether the policy of these objects has this many grants.
fn grants(rt: &impl Abort, alloc: Global, objects: Vec<Object>, wanted: u32) -> bool {
    built(rt, load_policy(alloc, objects)).len() == wanted
}

#[test]
fn copies_of_objects_make_the_same_policy(rt: HostRuntime) {
    let alloc = rt.alloc();
    let export = input(&rt, alloc, OBJECTS);
    let objects = built(&rt, load_objects(alloc, &[export]));
    assert!(rt; objects.len() == 6);
    let copies = built(
        &rt,
        changed(alloc, objects.as_slice(), &[], Vec::new(alloc)),
    );
    assert!(rt; copies.len() == 6);
    // Two rules for each of the two bindings.
    assert!(rt; grants(&rt, alloc, copies, 4));
    assert!(rt; grants(&rt, alloc, objects, 4));
}

const NAMELESS: &[u8] =
    br#"{"apiVersion": "v1", "kind": "List", "items": [{"apiVersion": "v1", "kind": "Pod"},
    {"apiVersion": "rbac.authorization.k8s.io/v1", "kind": "ClusterRole"}]}"#;

// The second file, the item that is refused in it, and why. The first file is accepted.
const REFUSED: &[(&[u8], Option<usize>, Cause)] = &[
    (b"{\"kind\": \"List\"", None, Cause::NotJson),
    (NAMELESS, Some(1), Cause::BadMetadata),
];

fn is_refused<T: Drop>(loaded: Result<T, LoadFault>, wanted: LoadFault) -> bool {
    match loaded {
        Ok(_) => false,
        Err(fault) => fault == wanted,
    }
}

// Whether the second file is refused for this.
fn refuses(rt: &impl Abort, alloc: Global, row: &(&[u8], Option<usize>, Cause)) -> bool {
    let (bytes, item, cause) = *row;
    let inputs = [input(rt, alloc, OBJECTS), input(rt, alloc, bytes)];
    let wanted = LoadFault {
        at: Some(At { file: 1, item }),
        cause,
    };
    is_refused(load_objects(alloc, &inputs), wanted)
}

#[test]
fn objects_of_a_bad_document_are_refused(rt: HostRuntime) {
    let alloc = rt.alloc();
    for row in REFUSED {
        assert!(rt; refuses(&rt, alloc, row));
    }
}

const GETS_PODS: RuleRow<'static> = [&["get"], &[""], &["pods"], &[]];

fn a_thousand_rules(rt: &impl Abort, alloc: Global) -> Rules {
    let mut all = Rules::new(alloc);
    for _ in 0..1_000u32 {
        built(rt, all.push(rule(rt, alloc, &GETS_PODS)));
    }
    all
}

// A role with a thousand rules, and this many bindings of it, each with a number as its name.
fn bindings_of_a_thousand_rules(rt: &impl Abort, alloc: Global, count: u32) -> Vec<Object> {
    let role = cluster_role(rt, alloc, "r", a_thousand_rules(rt, alloc));
    let mut objects = Vec::new(alloc);
    built(rt, objects.push(role));
    for number in 0..count {
        let name = built(rt, format!(in alloc; "{number}"));
        let row = (None, name.as_str(), "r", &["alice"] as &[&str]);
        built(rt, objects.push(binding(rt, alloc, &row)));
    }
    objects
}

#[test]
fn objects_may_give_a_million_grants(rt: HostRuntime) {
    let alloc = rt.alloc();
    let most = bindings_of_a_thousand_rules(&rt, alloc, 1_000);
    assert!(rt; grants(&rt, alloc, most, 1_000_000));
    let more = bindings_of_a_thousand_rules(&rt, alloc, 1_001);
    let wanted = LoadFault {
        at: None,
        cause: Cause::TooMany,
    };
    assert!(rt; is_refused(load_policy(alloc, more), wanted));
}
