//! Type words that no command passes on: one with a slash, and those with nothing before their dot.

use crate::words::{built, check, is, word};
use rbac_catalogue::{Catalogue, Entries, Entry};
use rbac_terms::{Word, Words};
use std::alloc::Global;
use std::process::Abort;

// A type word, and the group and the resource that it means.
const WORDS: &[(&str, &str, &str)] = &[
    ("pods/log", "", "pods/log"),
    (".apps", "apps", ""),
    ("", "", ""),
];

// An entry of the core group.
fn entry(rt: &impl Abort, alloc: Global, name: &str) -> Entry {
    Entry {
        group: Word::new(alloc),
        name: word(rt, alloc, name),
        singular: Word::new(alloc),
        short_names: Words::new(alloc),
        namespaced: true,
        verbs: Words::new(alloc),
    }
}

const RESOURCES: &[&str] = &["pods", "pods/log"];

fn pods_and_logs(rt: &impl Abort, alloc: Global) -> Catalogue {
    let mut entries = Entries::new(alloc);
    for name in RESOURCES {
        built(rt, entries.push(entry(rt, alloc, name)));
    }
    let mut catalogue = Catalogue::new(alloc);
    built(rt, catalogue.give(entries));
    catalogue
}

// Whether the word means the resource of this group and text.
fn means(rt: &impl Abort, alloc: Global, catalogue: &Catalogue, row: &(&str, &str, &str)) -> bool {
    let (typed, group, resource) = *row;
    let found = built(rt, catalogue.resolve_word(alloc, &word(rt, alloc, typed)));
    is(&found.group, group) && is(&found.resource, resource)
}

#[test]
fn a_word_that_names_nothing_stands_as_written(rt: HostRuntime) {
    let alloc = rt.alloc();
    let catalogue = pods_and_logs(&rt, alloc);
    for row in WORDS {
        assert!(rt; means(&rt, alloc, &catalogue, row));
    }
}

// The entries of `widgets` in two versions of a group, by whether each is namespaced.
fn widgets(rt: &impl Abort, alloc: Global, namespaced: &[bool]) -> Catalogue {
    let mut catalogue = Catalogue::new(alloc);
    for is_namespaced in namespaced {
        let mut entries = Entries::new(alloc);
        let mut widgets = entry(rt, alloc, "widgets");
        widgets.group = word(rt, alloc, "x.io");
        widgets.namespaced = *is_namespaced;
        built(rt, entries.push(widgets));
        built(rt, catalogue.give(entries));
    }
    catalogue
}

// A resource of the group, and whether it is cluster-scoped: if the second version alone is
// namespaced, and if neither is.
const CLUSTER_ONLY: &[(&str, bool, bool)] = &[
    ("widgets", false, true),
    ("widgets/scale", false, true),
    ("gadgets", false, false),
];

#[test]
fn a_resource_namespaced_in_one_version_is_namespaced(rt: HostRuntime) {
    let alloc = rt.alloc();
    let (mixed, neither) = (
        widgets(&rt, alloc, &[false, true]),
        widgets(&rt, alloc, &[false, false]),
    );
    let group = word(&rt, alloc, "x.io");
    for (text, in_mixed, in_neither) in CLUSTER_ONLY {
        let resource = word(&rt, alloc, text);
        check(
            &rt,
            text,
            mixed.cluster_only(&group, &resource) == *in_mixed,
        );
        check(
            &rt,
            text,
            neither.cluster_only(&group, &resource) == *in_neither,
        );
    }
}
