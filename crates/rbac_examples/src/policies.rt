//! Policies that other tests ask about: bindings of one role.

use crate::words::{built, word, words};
use rbac_model::{Object, Objects, Policy};
use rbac_terms::{Binding, ClusterRole, Labels, RoleRef, Rule, Rules, Subject, Subjects, Words};
use std::alloc::Global;
use std::process::Abort;

// Verbs, groups, resources and names of a rule.
pub(crate) type RuleRow<'a> = [&'a [&'a str]; 4];

pub(crate) fn rule(rt: &impl Abort, alloc: Global, row: &RuleRow<'_>) -> Rule {
    Rule {
        verbs: words(rt, alloc, row[0]),
        groups: words(rt, alloc, row[1]),
        resources: words(rt, alloc, row[2]),
        resource_names: words(rt, alloc, row[3]),
        urls: Words::new(alloc),
    }
}

pub(crate) fn rules(rt: &impl Abort, alloc: Global, rows: &[RuleRow<'_>]) -> Rules {
    let mut all = Rules::new(alloc);
    for row in rows {
        built(rt, all.push(rule(rt, alloc, row)));
    }
    all
}

pub(crate) fn cluster_role(rt: &impl Abort, alloc: Global, name: &str, rules: Rules) -> Object {
    Object::ClusterRole(ClusterRole {
        name: word(rt, alloc, name),
        labels: Labels::new(alloc),
        rules,
        aggregation: None,
    })
}

pub(crate) fn users(rt: &impl Abort, alloc: Global, names: &[&str]) -> Subjects {
    let mut all = Subjects::new(alloc);
    for name in names {
        built(rt, all.push(Subject::User(word(rt, alloc, name))));
    }
    all
}

// A binding's namespace and name, the cluster role that it binds, and its users.
pub(crate) type BindingRow<'a> = (Option<&'a str>, &'a str, &'a str, &'a [&'a str]);

// A binding of `r` to alice.
pub(crate) const TO_ALICE: &[BindingRow<'static>] = &[(None, "b", "r", &["alice"])];

pub(crate) fn binding(rt: &impl Abort, alloc: Global, row: &BindingRow<'_>) -> Object {
    let (namespace, name, role, names) = *row;
    Object::Binding(Binding {
        namespace: namespace.map(|text| word(rt, alloc, text)),
        name: word(rt, alloc, name),
        role: RoleRef::ClusterRole(word(rt, alloc, role)),
        subjects: users(rt, alloc, names),
    })
}

// The policy of the cluster role `r` and these bindings.
pub(crate) fn policy(
    rt: &impl Abort,
    alloc: Global,
    rows: &[RuleRow<'_>],
    bindings: &[BindingRow<'_>],
) -> Policy {
    let mut objects = Objects::new(alloc);
    let role = cluster_role(rt, alloc, "r", rules(rt, alloc, rows));
    built(rt, objects.put(role));
    for row in bindings {
        built(rt, objects.put(binding(rt, alloc, row)));
    }
    built(rt, Policy::resolve(alloc, objects))
}
