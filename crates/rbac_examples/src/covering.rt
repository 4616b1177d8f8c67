//! Which rules cover which.

use crate::policies::rule;
use crate::words::{built, check, words};
use rbac_covering::{OrderedRule, covers};
use rbac_terms::Rule;
use std::alloc::Global;
use std::process::Abort;

// The verbs, groups, resources, names and URLs of a rule.
type Row<'a> = [&'a [&'a str]; 5];

fn rule_with_urls(rt: &impl Abort, alloc: Global, row: &Row<'_>) -> Rule {
    let [verbs, groups, resources, names, urls] = *row;
    let mut made = rule(rt, alloc, &[verbs, groups, resources, names]);
    made.urls = words(rt, alloc, urls);
    made
}

const PODS: Row<'static> = [&["get"], &[""], &["pods"], &[], &[]];

const POD_A: Row<'static> = [&["get"], &[""], &["pods"], &["a"], &[]];

const LOGS: Row<'static> = [&["get"], &[""], &["*/log"], &[], &[]];

const POD_LOGS: Row<'static> = [&["get"], &[""], &["pods/log"], &[], &[]];

// A list of names that is long enough to be put in order, and the same names backwards.
const NAMES: &[&str] = &[
    "a", "b", "c", "d", "e", "f", "g", "h", "i", "j", "k", "l", "m", "n", "o", "p", "q",
];

const NAMES_BACK: &[&str] = &[
    "q", "p", "o", "n", "m", "l", "k", "j", "i", "h", "g", "f", "e", "d", "c", "b", "a",
];

// What is tried, two rules, and whether the first covers the second.
const COVERS: &[(&str, Row<'static>, Row<'static>, bool)] = &[
    (
        "URLs by their prefix",
        [&["get"], &[], &[], &[], &["/a*"]],
        [&["get"], &[], &[], &[], &["/a*", "/ab"]],
        true,
    ),
    (
        "a URL by those below it",
        [&["get"], &[], &[], &[], &["/a/*"]],
        [&["get"], &[], &[], &[], &["/a"]],
        false,
    ),
    (
        "all URLs by all paths",
        [&["get"], &[], &[], &[], &["/*"]],
        [&["get"], &[], &[], &[], &["*"]],
        true,
    ),
    ("a subresource by each", LOGS, POD_LOGS, true),
    ("each subresource by one", POD_LOGS, LOGS, false),
    (
        "the text pods/* by */*",
        [&["get"], &[""], &["*/*"], &[], &[]],
        [&["get"], &[""], &["pods/*"], &[], &[]],
        true,
    ),
    (
        "all verbs by two",
        [&["get", "list"], &[""], &["pods"], &[], &[]],
        [&["*"], &[""], &["pods"], &[], &[]],
        false,
    ),
    ("a name by all", PODS, POD_A, true),
    ("all names by one", POD_A, PODS, false),
    (
        "many names in another order",
        [&["get"], &[""], &["pods"], NAMES, &[]],
        [&["get"], &[""], &["pods"], NAMES_BACK, &[]],
        true,
    ),
    (
        "a name that isn't among many",
        [&["get"], &[""], &["pods"], NAMES, &[]],
        [&["get"], &[""], &["pods"], &["b", "r"], &[]],
        false,
    ),
    (
        "nothing by anything",
        PODS,
        [&["get"], &[""], &[""], &[], &[]],
        true,
    ),
];

#[test]
fn a_rule_covers_what_its_words_reach(rt: HostRuntime) {
    let alloc = rt.alloc();
    for (name, first, second, wanted) in COVERS {
        let first = rule_with_urls(&rt, alloc, first);
        let second = rule_with_urls(&rt, alloc, second);
        let ordered = built(&rt, OrderedRule::new(&first));
        check(&rt, name, covers(&ordered, &second) == *wanted);
    }
}
