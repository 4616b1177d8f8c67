//! Objects that are held, one for each kind, namespace and name.

use crate::policies::{binding, cluster_role, users};
use crate::universes::{Listed, universe};
use crate::words::{built, is, is_of, word, words};
use rbac_index::why_allowed;
use rbac_model::{Object, Objects, Policy};
use rbac_terms::{Binding, Principal, Role, RoleRef, Rule, Rules, Word, Words};
use rbac_universe::Universe;
use std::alloc::Global;
use std::process::Abort;

#[derive(Clone, Copy)]
pub(crate) enum Kind {
    Role,
    ClusterRole,
    RoleBinding,
    ClusterRoleBinding,
}

// An object's kind, namespace and name, and the name of the role that it binds or the verb of its
// rule.
pub(crate) type Row<'a> = (Kind, &'a str, &'a str, &'a str);

// Objects, and whether each replaces an earlier one.
const GIVEN: &[(Row<'static>, bool)] = &[
    ((Kind::Role, "dev", "a", "get"), false),
    ((Kind::ClusterRole, "", "a", "get"), false),
    ((Kind::ClusterRoleBinding, "", "a", "first"), false),
    ((Kind::RoleBinding, "dev", "a", "first"), false),
    ((Kind::RoleBinding, "Prod", "a", "first"), false),
    ((Kind::Role, "dev", "a", "list"), true),
    ((Kind::Role, "Prod", "a", "get"), false),
    ((Kind::ClusterRole, "", "a", "list"), true),
    ((Kind::ClusterRoleBinding, "", "a", "second"), true),
    ((Kind::RoleBinding, "dev", "a", "second"), true),
    ((Kind::ClusterRole, "", "B", "get"), false),
];

// One rule, which allows this verb on pods.
fn on_pods(rt: &impl Abort, alloc: Global, verb: &str) -> Rules {
    let mut one = Rules::new(alloc);
    let rule = Rule {
        verbs: words(rt, alloc, &[verb]),
        groups: words(rt, alloc, &[""]),
        resources: words(rt, alloc, &["pods"]),
        resource_names: Words::new(alloc),
        urls: Words::new(alloc),
    };
    built(rt, one.push(rule));
    one
}

fn role(rt: &impl Abort, alloc: Global, namespace: &str, name: &str, verb: &str) -> Object {
    Object::Role(Role {
        namespace: word(rt, alloc, namespace),
        name: word(rt, alloc, name),
        rules: on_pods(rt, alloc, verb),
    })
}

fn role_binding(rt: &impl Abort, alloc: Global, namespace: &str, name: &str, role: &str) -> Object {
    Object::Binding(Binding {
        namespace: Some(word(rt, alloc, namespace)),
        name: word(rt, alloc, name),
        role: RoleRef::Role(word(rt, alloc, role)),
        subjects: users(rt, alloc, &["alice"]),
    })
}

pub(crate) fn object(rt: &impl Abort, alloc: Global, row: &Row<'_>) -> Object {
    let (kind, namespace, name, word) = *row;
    match kind {
        Kind::Role => role(rt, alloc, namespace, name, word),
        Kind::ClusterRole => cluster_role(rt, alloc, name, on_pods(rt, alloc, word)),
        Kind::RoleBinding => role_binding(rt, alloc, namespace, name, word),
        Kind::ClusterRoleBinding => binding(rt, alloc, &(None, name, word, &["alice"])),
    }
}

// The given objects that are kept, in order of kinds, namespaces and names: an object's namespace
// or name, and the verb of its rule or the role that it binds.

const ROLES: &[(&str, &str)] = &[("Prod", "get"), ("dev", "list")];

const CLUSTER_ROLES: &[(&str, &str)] = &[("B", "get"), ("a", "list")];

// A binding without a namespace is a ClusterRoleBinding.
const BINDINGS: &[(Option<&str>, &str)] = &[
    (None, "second"),
    (Some("Prod"), "first"),
    (Some("dev"), "second"),
];

// Whether there is one rule, and this is its one verb.
pub(crate) fn has_verb(rules: &Rules, verb: &str) -> bool {
    let [rule] = rules.as_slice() else {
        return false;
    };
    rule.verbs.as_slice().iter().all(|word| is(word, verb))
}

fn has_last_roles(objects: &Objects) -> bool {
    let roles = objects.roles();
    roles.len() == ROLES.len()
        && roles.iter().zip(ROLES).all(|(role, (namespace, verb))| {
            is(&role.namespace, namespace) && has_verb(&role.rules, verb)
        })
}

fn has_last_cluster_roles(objects: &Objects) -> bool {
    let roles = objects.cluster_roles();
    roles.len() == CLUSTER_ROLES.len()
        && roles.iter().zip(CLUSTER_ROLES).all(|(role, (name, verb))| is(&role.name, name)
            && has_verb(&role.rules, verb))
}

pub(crate) fn binds(role: &RoleRef, wanted: &str) -> bool {
    let (RoleRef::Role(name) | RoleRef::ClusterRole(name)) = role;
    is(name, wanted)
}

fn has_last_bindings(objects: &Objects) -> bool {
    let bindings = objects.bindings();
    bindings.len() == BINDINGS.len()
        && bindings.iter().zip(BINDINGS).all(|(binding, (namespace, role))| {
            is_of(binding.namespace.as_ref(), *namespace) && binds(&binding.role, role)
        })
}

fn has_last_objects(objects: Objects) -> bool {
    has_last_roles(&objects) && has_last_cluster_roles(&objects) && has_last_bindings(&objects)
}

#[test]
fn a_later_object_replaces_the_earlier_of_its_name(rt: HostRuntime) {
    let alloc = rt.alloc();
    let mut objects = Objects::new(alloc);
    for (row, replaces) in GIVEN {
        let was = built(&rt, objects.put(object(&rt, alloc, row)));
        assert!(rt; was == *replaces);
    }
    assert!(rt; has_last_objects(objects));
}

#[test]
fn objects_given_at_once_are_those_put_in_turn(rt: HostRuntime) {
    let alloc = rt.alloc();
    let mut given = Vec::new(alloc);
    for (row, _) in GIVEN {
        built(&rt, given.push(object(&rt, alloc, row)));
    }
    let objects = built(&rt, Objects::from_given(alloc, given));
    assert!(rt; has_last_objects(objects));
}

const ALICE_GETS_PODS: &Listed<'static> = &Listed {
    users: &["alice"],
    groups: &[],
    namespaces: &["", "dev"],
    verbs: &["get"],
    resources: &[("", "pods", true)],
    names: &[""],
    urls: &[],
};

// In how many of the universe's namespaces the policy allows a request for a target of the
// universe.
fn counted(universe: &Universe, policy: &Policy, asker: &Principal, verb: &Word) -> u32 {
    let mut count = 0u32;
    for namespace in universe.namespaces() {
        for target in universe.targets() {
            let why = why_allowed(policy, asker, namespace, verb, target);
            count = count.saturating_add(u32::from(why.is_some()));
        }
    }
    count
}

// Whether the one grant of the policy allows the request in this many namespaces.
fn gets_in(universe: &Universe, policy: &Policy, wanted: u32) -> bool {
    let mut askers = universe.principals().iter().zip(universe.verbs());
    policy.len() == 1
        && askers.all(|(asker, verb)| counted(universe, policy, asker, verb) == wanted)
}

// Whether alice may get pods in `wanted` namespaces by a role and its binding, both in `namespace`.
fn lives_in(
    rt: &impl Abort,
    alloc: Global,
    universe: &Universe,
    namespace: &str,
    wanted: u32,
) -> bool {
    let mut objects = Objects::new(alloc);
    built(rt, objects.put(role(rt, alloc, namespace, "r", "get")));
    built(
        rt,
        objects.put(role_binding(rt, alloc, namespace, "b", "r")),
    );
    gets_in(
        universe,
        &built(rt, Policy::resolve(alloc, objects)),
        wanted,
    )
}

// The namespace of a role and its binding, and in how many namespaces alice may get pods by them.
const LIVES_IN: &[(&str, u32)] = &[("dev", 1), ("", 0)];

// No document makes a RoleBinding of the empty namespace: a missing one is read as `default`.
#[test]
fn a_role_binding_of_the_empty_namespace_never_lives(rt: HostRuntime) {
    let alloc = rt.alloc();
    let universe = universe(&rt, alloc, ALICE_GETS_PODS);
    for (namespace, wanted) in LIVES_IN {
        assert!(rt; lives_in(&rt, alloc, &universe, namespace, *wanted));
    }
}
