//! Who asks, and the keys of requests.

use crate::universes::{Listed, universe};
use crate::words::{built, check, is, word, words};
use rbac_terms::{Key, ModelFault, Principal, Target, Word};
use rbac_universe::Universe;
use std::alloc::Global;
use std::cmp::Ordering;
use std::process::Abort;

fn user(rt: &impl Abort, alloc: Global, name: &str) -> Result<Principal, ModelFault> {
    Principal::user(alloc, &word(rt, alloc, name), &words(rt, alloc, &["dev"]))
}

fn member(rt: &impl Abort, alloc: Global, name: &str) -> Result<Principal, ModelFault> {
    Principal::group(alloc, &word(rt, alloc, name))
}

// Whether the principal is refused for its empty name.
fn has_no_name(got: Result<Principal, ModelFault>) -> bool {
    got.err() == Some(ModelFault::EmptyName)
}

fn is_dev(got: Result<Principal, ModelFault>, key: &str) -> bool {
    match got {
        Ok(principal) => is(principal.key(), key) && principal.name() == "dev".as_bytes(),
        Err(_) => false,
    }
}

#[test]
fn a_principal_has_a_name_and_its_key_tells_a_user_from_a_group(rt: HostRuntime) {
    let alloc = rt.alloc();
    check(&rt, "no user", has_no_name(user(&rt, alloc, "")));
    check(&rt, "no group", has_no_name(member(&rt, alloc, "")));
    check(&rt, "a user", is_dev(user(&rt, alloc, "dev"), "u:dev"));
    check(&rt, "a group", is_dev(member(&rt, alloc, "dev"), "g:dev"));
}

fn url(rt: &impl Abort, alloc: Global, path: &str) -> Result<Target, ModelFault> {
    Target::url(alloc, word(rt, alloc, path))
}

fn resource(rt: &impl Abort, alloc: Global, text: &str) -> Result<Target, ModelFault> {
    Target::resource(
        word(rt, alloc, ""),
        word(rt, alloc, text),
        word(rt, alloc, "a"),
    )
}

// Whether the target is refused.
fn is_no_target(got: Result<Target, ModelFault>) -> bool {
    got.err() == Some(ModelFault::BadTarget)
}

const NO_URLS: &[&str] = &["", "x", "x/"];

const NO_RESOURCES: &[&str] = &["", "/", "/pods"];

#[test]
fn a_slash_tells_urls_from_resources(rt: HostRuntime) {
    let alloc = rt.alloc();
    for path in NO_URLS {
        check(&rt, path, is_no_target(url(&rt, alloc, path)));
    }
    for text in NO_RESOURCES {
        check(&rt, text, is_no_target(resource(&rt, alloc, text)));
    }
}

// Adds the keys of a principal's requests in a namespace, verb by verb and target by target.
fn add_keys(
    rt: &impl Abort,
    alloc: Global,
    keys: &mut Vec<Key>,
    universe: &Universe,
    asker: &Principal,
    namespace: &Word,
) {
    for verb in universe.verbs() {
        for target in universe.targets() {
            let key = built(rt, Key::of(alloc, asker, namespace, verb, target));
            built(rt, keys.push(key));
        }
    }
}

// The keys of all requests of the universe made of these lists.
pub(crate) fn keys_of(rt: &impl Abort, alloc: Global, listed: &Listed<'_>) -> Vec<Key> {
    let universe = universe(rt, alloc, listed);
    let mut keys = Vec::new(alloc);
    for asker in universe.principals() {
        for namespace in universe.namespaces() {
            add_keys(rt, alloc, &mut keys, &universe, asker, namespace);
        }
    }
    keys
}

fn has_fields(key: &Key, wanted: &[&str; 6]) -> bool {
    for place in 0..6usize {
        if !is(key.field(place), wanted[place]) {
            return false;
        }
    }
    true
}

const A_POD: Listed<'static> = Listed {
    users: &["alice"],
    groups: &[],
    namespaces: &["dev"],
    verbs: &["get"],
    resources: &[("", "pods", true)],
    names: &["a"],
    urls: &[],
};

const A_URL: Listed<'static> = Listed {
    users: &["alice"],
    groups: &[],
    namespaces: &["dev"],
    verbs: &["get"],
    resources: &[],
    names: &[],
    urls: &["/healthz"],
};

const ONE_REQUEST: &[(Listed<'static>, [&str; 6])] = &[
    (A_POD, ["u:alice", "dev", "get", "", "pods", "a"]),
    (A_URL, ["u:alice", "", "get", "", "/healthz", ""]),
];

// Whether there is one key, and it has the wanted fields.
fn is_one(keys: &[Key], wanted: &[&str; 6]) -> bool {
    keys.len() == 1 && has_fields(&keys[0], wanted)
}

#[test]
fn a_key_has_six_fields_of_which_a_url_fills_three(rt: HostRuntime) {
    for (listed, wanted) in ONE_REQUEST {
        let keys = keys_of(&rt, rt.alloc(), listed);
        assert!(rt; is_one(keys.as_slice(), wanted));
    }
}

// Two texts for each field, and more for the last; each list runs from its greatest text to its
// least.
const PAIRS: &Listed<'static> = &Listed {
    users: &["b", "a"],
    groups: &[],
    namespaces: &["b", "a"],
    verbs: &["b", "a"],
    resources: &[
        ("b", "b", true),
        ("b", "a", true),
        ("a", "b", true),
        ("a", "a", true),
    ],
    names: &["é", "b", "aa", "a", "Z"],
    urls: &[],
};

// The names in ascending order; the first keys differ in them alone.
const NAMES: &[&str] = &["Z", "a", "aa", "b", "é"];

fn is_less(key: &Key, next: &Key) -> bool {
    key.cmp(next) == Ordering::Less
        && next.cmp(key) == Ordering::Greater
        && key.cmp(key) == Ordering::Equal
}

fn are_ascending(keys: &[Key]) -> bool {
    keys.iter()
        .zip(keys.iter().skip(1))
        .all(|(key, next)| is_less(key, next))
}

fn begin_with_all_names(keys: &[Key]) -> bool {
    keys.iter().zip(NAMES).all(|(key, name)| has_fields(key, &["u:a", "a", "a", "a", "a", name]))
}

#[test]
fn keys_are_ordered_field_by_field(rt: HostRuntime) {
    let keys = keys_of(&rt, rt.alloc(), PAIRS);
    assert!(rt; keys.len() == 160);
    assert!(rt; are_ascending(keys.as_slice()));
    assert!(rt; begin_with_all_names(keys.as_slice()));
}
