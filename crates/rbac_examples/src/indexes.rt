//! The index at every request of a universe.

use crate::policies::{BindingRow, RuleRow, TO_ALICE, policy};
use crate::universes::{Listed, universe};
use crate::words::{built, is};
use rbac_index::Index;
use rbac_reaches::{Meter, Reach};
use rbac_terms::{Principal, Word};
use rbac_text::put_place;
use rbac_universe::Universe;
use std::alloc::Global;
use std::process::Abort;

const FOUR_RULES: &[RuleRow<'static>] = &[
    [&["get"], &[""], &["*"], &[]],
    [&["*"], &["*"], &["pods"], &[]],
    [&["list"], &[""], &["pods"], &[]],
    [&["get", "*", "get"], &[""], &["pods/log", "*/log"], &[]],
];

const FOUR_TARGETS: &Listed<'static> = &Listed {
    users: &["alice"],
    groups: &[],
    namespaces: &[""],
    verbs: &["get", "list"],
    resources: &[
        ("", "nodes", true),
        ("", "pods", true),
        ("", "pods/log", true),
    ],
    names: &[""],
    urls: &["/x"],
};

// Marks the end of the candidates of each request.
const END: u32 = 100;

// The numbers of the grants that allow get, then of those that allow list, on `/x`, nodes, pods and
// pods/log.
const CANDIDATES: &[u32] = &[
    END, 0, END, 0, 1, END, 0, 3, END, END, END, 1, 2, END, 3, END,
];

// Adds the candidates of all requests of the universe, verb by verb and target by target.
fn put_candidates(
    rt: &impl Abort,
    alloc: Global,
    index: &Index<'_>,
    universe: &Universe,
    all: &mut Vec<u32>,
) {
    for verb in universe.verbs() {
        for target in universe.targets() {
            let found = built(rt, index.candidates(alloc, verb, target));
            built(rt, all.extend_from_slice(found.as_slice()));
            built(rt, all.push(END));
        }
    }
}

// Whether the candidates are the wanted ones.
fn has_candidates(rt: &impl Abort, alloc: Global, index: &Index<'_>) -> bool {
    let universe = universe(rt, alloc, FOUR_TARGETS);
    let mut got = Vec::new(alloc);
    put_candidates(rt, alloc, index, &universe, &mut got);
    got.as_slice() == CANDIDATES
}

// Whether each grant is by the one binding and by the rule with the grant's number.
fn are_by_their_rules(index: &Index<'_>) -> bool {
    for no in 0..index.len() {
        let grant = index.grant(no);
        if grant.place != no as usize || !is(&grant.binding.name, "b") {
            return false;
        }
    }
    true
}

#[test]
fn candidates_are_the_grants_whose_rule_allows(rt: HostRuntime) {
    let alloc = rt.alloc();
    let policy = policy(&rt, alloc, FOUR_RULES, TO_ALICE);
    let index = built(&rt, Index::build(alloc, &policy));
    assert!(rt; index.len() == 4 && are_by_their_rules(&index));
    assert!(rt; has_candidates(&rt, alloc, &index));
}

// A rule that repeats its verb and names the resource besides `*`.
const REPEATED_WORDS: &[RuleRow<'static>] = &[[&["get", "*", "get"], &[""], &["pods", "*"], &[]]];

const PODS_ALONE: &Listed<'static> = &Listed {
    users: &["alice"],
    groups: &[],
    namespaces: &[""],
    verbs: &["get"],
    resources: &[("", "pods", true)],
    names: &[""],
    urls: &[],
};

// Whether the one grant is the one candidate of the universe's one request.
fn is_candidate_once(
    rt: &impl Abort,
    alloc: Global,
    index: &Index<'_>,
    universe: &Universe,
) -> bool {
    let mut got = Vec::new(alloc);
    put_candidates(rt, alloc, index, universe, &mut got);
    index.len() == 1 && got.as_slice() == [0, END].as_slice()
}

// Whether the reach of the first grant has one place, the first, which takes one read.
fn reaches_first_place(
    rt: &impl Abort,
    alloc: Global,
    index: &Index<'_>,
    universe: &Universe,
) -> bool {
    if index.len() == 0 {
        return false;
    }
    let reach = built(rt, Reach::of(alloc, index, 0, universe));
    let mut meter = Meter::new();
    reach.len() == 1 && reach.place(0, &mut meter) == 0 && meter.count() == 1
}

#[test]
fn words_that_repeat_or_hold_each_other_count_once(rt: HostRuntime) {
    let alloc = rt.alloc();
    let universe = universe(&rt, alloc, PODS_ALONE);
    let policy = policy(&rt, alloc, REPEATED_WORDS, TO_ALICE);
    let index = built(&rt, Index::build(alloc, &policy));
    assert!(rt; is_candidate_once(&rt, alloc, &index, &universe));
    assert!(rt; reaches_first_place(&rt, alloc, &index, &universe));
}

const GETS_PODS: &[RuleRow<'static>] = &[[&["get"], &[""], &["pods"], &[]]];

// The first binding's role isn't held; tests/rows.json has the matrix of these objects.
const AMONG_OTHERS: &[BindingRow<'static>] = &[
    (None, "a", "missing", &["bob"]),
    (None, "z", "r", &["alice"]),
    (Some("dev"), "a", "r", &["alice"]),
    (Some("qa"), "b", "r", &["alice", "bob"]),
];

const THREE_NAMESPACES: &Listed<'static> = &Listed {
    users: &["alice", "bob"],
    groups: &[],
    namespaces: &["", "dev", "qa"],
    verbs: &["get", "list"],
    resources: &[("", "pods", true), ("", "secrets", true)],
    names: &[""],
    urls: &["/healthz"],
};

// The first binding that allows each allowed request of the universe, in order: alice may get pods
// in each namespace, and bob in the last one.
const FIRST_BINDINGS: &[&str] = &["z", "z", "z", "b"];

// Adds the names of the bindings that allow the principal's requests in this namespace.
fn put_bindings<'p>(
    rt: &impl Abort,
    index: &Index<'p>,
    universe: &Universe,
    asker: &Principal,
    namespace: &Word,
    names: &mut Vec<&'p Word>,
) {
    for verb in universe.verbs() {
        for target in universe.targets() {
            if let Some(why) = index.can_i(asker, namespace, verb, target) {
                built(rt, names.push(&why.binding.name));
            }
        }
    }
}

fn put_all_bindings<'p>(
    rt: &impl Abort,
    index: &Index<'p>,
    universe: &Universe,
    names: &mut Vec<&'p Word>,
) {
    for asker in universe.principals() {
        for namespace in universe.namespaces() {
            put_bindings(rt, index, universe, asker, namespace, names);
        }
    }
}

fn are_first(names: &[&Word]) -> bool {
    for (name, wanted) in names.iter().zip(FIRST_BINDINGS) {
        if !is(name, wanted) {
            return false;
        }
    }
    names.len() == FIRST_BINDINGS.len()
}

// Whether the bindings that allow the requests of the universe are the wanted ones.
fn gives_first(rt: &impl Abort, alloc: Global, index: &Index<'_>) -> bool {
    let universe = universe(rt, alloc, THREE_NAMESPACES);
    let mut names = Vec::new(alloc);
    put_all_bindings(rt, index, &universe, &mut names);
    are_first(names.as_slice())
}

#[test]
fn the_first_binding_that_grants_is_given(rt: HostRuntime) {
    let alloc = rt.alloc();
    let policy = policy(&rt, alloc, GETS_PODS, AMONG_OTHERS);
    let index = built(&rt, Index::build(alloc, &policy));
    assert!(rt; gives_first(&rt, alloc, &index));
}

#[test]
fn the_last_place_is_printed_in_full(rt: HostRuntime) {
    let mut line = Vec::new(rt.alloc());
    built(&rt, put_place(&mut line, usize::MAX));
    assert!(rt; line.as_slice() == "18446744073709551616".as_bytes());
}
