//! Universes that other tests ask about.

use crate::words::{built, word, words};
use rbac_terms::{Principal, Words};
use rbac_universe::{ListedResource, ListedResources, Principals, Universe, UniverseLists};
use std::alloc::Global;
use std::process::Abort;

// The texts that a universe is made of.
#[derive(Clone, Copy)]
pub(crate) struct Listed<'a> {
    // Users without groups, and groups.
    pub(crate) users: &'a [&'a str],
    pub(crate) groups: &'a [&'a str],
    pub(crate) namespaces: &'a [&'a str],
    pub(crate) verbs: &'a [&'a str],
    // Group, resource, and whether its objects live in namespaces.
    pub(crate) resources: &'a [(&'a str, &'a str, bool)],
    pub(crate) names: &'a [&'a str],
    pub(crate) urls: &'a [&'a str],
}

fn user(rt: &impl Abort, alloc: Global, name: &str) -> Principal {
    let name = word(rt, alloc, name);
    built(rt, Principal::user(alloc, &name, &Words::new(alloc)))
}

fn member(rt: &impl Abort, alloc: Global, group: &str) -> Principal {
    built(rt, Principal::group(alloc, &word(rt, alloc, group)))
}

pub(crate) fn principals(
    rt: &impl Abort,
    alloc: Global,
    users: &[&str],
    groups: &[&str],
) -> Principals {
    let mut all = Principals::new(alloc);
    for name in users {
        built(rt, all.push(user(rt, alloc, name)));
    }
    for group in groups {
        built(rt, all.push(member(rt, alloc, group)));
    }
    all
}

fn resources(rt: &impl Abort, alloc: Global, listed: &Listed<'_>) -> ListedResources {
    let mut all = ListedResources::new(alloc);
    for (group, text, namespaced) in listed.resources {
        let resource = ListedResource {
            group: word(rt, alloc, group),
            text: word(rt, alloc, text),
            namespaced: *namespaced,
        };
        built(rt, all.push(resource));
    }
    all
}

pub(crate) fn lists(rt: &impl Abort, alloc: Global, listed: &Listed<'_>) -> UniverseLists {
    UniverseLists {
        principals: principals(rt, alloc, listed.users, listed.groups),
        namespaces: words(rt, alloc, listed.namespaces),
        verbs: words(rt, alloc, listed.verbs),
        resources: resources(rt, alloc, listed),
        names: words(rt, alloc, listed.names),
        urls: words(rt, alloc, listed.urls),
    }
}

// The universe of these lists.
pub(crate) fn universe_of(rt: &impl Abort, alloc: Global, lists: UniverseLists) -> Universe {
    built(rt, Universe::build(alloc, &lists))
}

pub(crate) fn universe(rt: &impl Abort, alloc: Global, listed: &Listed<'_>) -> Universe {
    universe_of(rt, alloc, lists(rt, alloc, listed))
}
