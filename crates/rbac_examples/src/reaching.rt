//! Which cluster roles an aggregated one reaches.

use crate::policies::{binding, rules};
use crate::words::{built, check, is, word};
use rbac_model::{Object, Objects, Policy};
use rbac_terms::{ClusterRole, Labels, Requirements, Rules, Selector, Selectors, Word, Words};
use std::alloc::Global;
use std::process::Abort;

// Whether these are the wanted texts, in this order.
fn are(got: &[Word], wanted: &[&str]) -> bool {
    got.len() == wanted.len() && got.iter().zip(wanted).all(|(word, text)| is(word, text))
}

fn reached(rt: &impl Abort, alloc: Global, policy: &Policy, name: &str) -> Words {
    built(rt, policy.reached(alloc, &word(rt, alloc, name)))
}

// The label `to` with this value.
fn labels(rt: &impl Abort, alloc: Global, value: &str) -> Labels {
    let mut one = Labels::new(alloc);
    built(
        rt,
        one.push((word(rt, alloc, "to"), word(rt, alloc, value))),
    );
    one
}

// Selectors for the roles with that label.
fn selectors(rt: &impl Abort, alloc: Global, value: &str) -> Selectors {
    let mut one = Selectors::new(alloc);
    let selector = Selector {
        labels: labels(rt, alloc, value),
        requirements: Requirements::new(alloc),
    };
    built(rt, one.push(selector));
    one
}

fn role(
    rt: &impl Abort,
    alloc: Global,
    name: &str,
    label: &str,
    aggregation: Option<Selectors>,
) -> ClusterRole {
    ClusterRole {
        name: word(rt, alloc, name),
        labels: labels(rt, alloc, label),
        rules: Rules::new(alloc),
        aggregation,
    }
}

// The roles `edit`, `view` and `admin` select one another in a ring, and `view` selects the plain
// role `q` too. The role `alone` selects only itself. A row has a role's name, its label, and the
// label of the roles that it selects.
const SMALL_RING: &[(&str, &str, &str)] = &[
    ("edit", "admin", "edit"),
    ("view", "edit", "view"),
    ("admin", "view", "admin"),
    ("alone", "alone", "alone"),
];

fn small_ring(rt: &impl Abort, alloc: Global) -> Policy {
    let mut objects = Objects::new(alloc);
    let plain = role(rt, alloc, "q", "view", None);
    built(rt, objects.put(Object::ClusterRole(plain)));
    for (name, label, selected) in SMALL_RING {
        let selected = selectors(rt, alloc, selected);
        let aggregated = role(rt, alloc, name, label, Some(selected));
        built(rt, objects.put(Object::ClusterRole(aggregated)));
    }
    built(rt, Policy::resolve(alloc, objects))
}

const RING_OF_THREE: &[&str] = &["admin", "edit", "q", "view"];

// The name of a role, and those of the roles that it reaches.
const REACHED: &[(&str, &[&str])] = &[
    ("admin", RING_OF_THREE),
    ("edit", RING_OF_THREE),
    ("view", RING_OF_THREE),
    ("q", &[]),
    ("alone", &[]),
    ("nobody", &[]),
];

#[test]
fn roles_that_select_one_another_reach_themselves(rt: HostRuntime) {
    let alloc = rt.alloc();
    let policy = small_ring(&rt, alloc);
    for (name, wanted) in REACHED {
        let got = reached(&rt, alloc, &policy, name);
        check(&rt, name, are(got.as_slice(), wanted));
    }
}

// How many roles are in the great ring.
const RING: u32 = 200;

// The name of the role with this number, which is its label too.
fn ring_name(rt: &impl Abort, alloc: Global, number: u32) -> String {
    built(rt, format!(in alloc; "r{number:03}"))
}

// The role with this number, which selects the next one by its label.
fn ring_role(rt: &impl Abort, alloc: Global, number: u32, next: u32) -> ClusterRole {
    let name = ring_name(rt, alloc, number);
    let next = selectors(rt, alloc, ring_name(rt, alloc, next).as_str());
    role(rt, alloc, name.as_str(), name.as_str(), Some(next))
}

// A plain role of one rule, with the label of the ring's first role.
fn plain_role(rt: &impl Abort, alloc: Global) -> ClusterRole {
    let mut plain = role(rt, alloc, "plain", "r000", None);
    plain.rules = rules(rt, alloc, &[[&["get"], &[""], &["pods"], &[]]]);
    plain
}

// A ring of roles whose last one selects the first, and a plain role that it selects too; each role
// of the ring is bound.
fn great_ring(rt: &impl Abort, alloc: Global) -> Policy {
    let mut objects = Objects::new(alloc);
    for number in 0..RING {
        let next = if number < RING - 1 { number + 1 } else { 0 };
        let aggregated = ring_role(rt, alloc, number, next);
        built(rt, objects.put(Object::ClusterRole(aggregated)));
        let name = ring_name(rt, alloc, number);
        let row = (None, name.as_str(), name.as_str(), ["alice"].as_slice());
        built(rt, objects.put(binding(rt, alloc, &row)));
    }
    built(rt, objects.put(Object::ClusterRole(plain_role(rt, alloc))));
    built(rt, Policy::resolve(alloc, objects))
}

// Whether these are the names of the plain role and of the ring's roles.
fn are_ring(rt: &impl Abort, alloc: Global, got: &[Word]) -> bool {
    let [first, others @ ..] = got else {
        return false;
    };
    for (number, word) in (0..RING).zip(others) {
        if !is(word, ring_name(rt, alloc, number).as_str()) {
            return false;
        }
    }
    got.len() == 201 && is(first, "plain")
}

#[test]
fn two_hundred_roles_in_a_ring_reach_all_of_them(rt: HostRuntime) {
    let alloc = rt.alloc();
    let policy = great_ring(&rt, alloc);
    assert!(rt; policy.len() == RING);
    for number in 0..RING {
        let name = ring_name(&rt, alloc, number);
        let got = reached(&rt, alloc, &policy, name.as_str());
        check(&rt, name.as_str(), are_ring(&rt, alloc, got.as_slice()));
    }
}
