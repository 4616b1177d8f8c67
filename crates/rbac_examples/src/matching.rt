//! Which texts the words of a rule match.

use crate::words::{check, word, words};
use rbac_terms::{
    Rule, Word, Words, group_matches, name_matches, resource_matches, url_matches, verb_matches,
};
use std::alloc::Global;
use std::process::Abort;

// The list of a rule that a text is matched against.
#[derive(Clone, Copy)]
enum Part {
    Verbs,
    Groups,
    Resources,
    Names,
    Urls,
}

// A rule with these words in this list alone.
fn rule(alloc: Global, part: Part, listed: Words) -> Rule {
    let mut rule = Rule {
        verbs: Words::new(alloc),
        groups: Words::new(alloc),
        resources: Words::new(alloc),
        resource_names: Words::new(alloc),
        urls: Words::new(alloc),
    };
    match part {
        Part::Verbs => rule.verbs = listed,
        Part::Groups => rule.groups = listed,
        Part::Resources => rule.resources = listed,
        Part::Names => rule.resource_names = listed,
        Part::Urls => rule.urls = listed,
    }
    rule
}

fn part_matches(rule: &Rule, part: Part, text: &Word) -> bool {
    match part {
        Part::Verbs => verb_matches(rule, text),
        Part::Groups => group_matches(rule, text),
        Part::Resources => resource_matches(rule, text),
        Part::Names => name_matches(rule, text),
        Part::Urls => url_matches(rule, text),
    }
}

fn matches(rt: &impl Abort, alloc: Global, part: Part, listed: &[&str], text: &str) -> bool {
    let rule = rule(alloc, part, words(rt, alloc, listed));
    part_matches(&rule, part, &word(rt, alloc, text))
}

// The list of a rule, its words, a text, and whether the words match the text.
type Row<'a> = (Part, &'a [&'a str], &'a str, bool);

const ROWS: &[Row<'static>] = &[
    // A verb is matched by itself or a star.
    (Part::Verbs, &["get"], "get", true),
    (Part::Verbs, &["list", "get"], "get", true),
    (Part::Verbs, &["*"], "get", true),
    (Part::Verbs, &["list"], "get", false),
    (Part::Verbs, &["g*"], "get", false),
    (Part::Verbs, &[], "get", false),
    // The core group is matched by the empty text or a star.
    (Part::Groups, &[""], "", true),
    (Part::Groups, &["*"], "", true),
    (Part::Groups, &["apps"], "", false),
    (Part::Groups, &["", "apps"], "apps", true),
    (Part::Groups, &["*"], "apps", true),
    (Part::Groups, &[""], "apps", false),
    (Part::Groups, &[], "", false),
    // A subresource is matched by its own words alone.
    (Part::Resources, &["pods"], "pods", true),
    (Part::Resources, &["pods"], "pods/log", false),
    (Part::Resources, &["pods/log"], "pods/log", true),
    (Part::Resources, &["pods/log"], "pods", false),
    (Part::Resources, &["*"], "pods/log", true),
    (Part::Resources, &["*/scale"], "deployments/scale", true),
    (Part::Resources, &["*/scale"], "x/autoscale", false),
    (Part::Resources, &["*/scale"], "scale", false),
    (Part::Resources, &["pods/*"], "pods/log", false),
    // An empty list of names matches every name.
    (Part::Names, &["b", "a"], "a", true),
    (Part::Names, &["b"], "a", false),
    (Part::Names, &["b"], "", false),
    (Part::Names, &["*"], "a", false),
    (Part::Names, &[], "a", true),
    (Part::Names, &[], "", true),
    // Stars at the end of a URL word match any ending.
    (Part::Urls, &["/healthz/**"], "/healthz/", true),
    (Part::Urls, &["/healthz/**"], "/healthz/x", true),
    (Part::Urls, &["/healthz/**"], "/healthz", false),
    (Part::Urls, &["/healthz*"], "/healthz", true),
    (Part::Urls, &["*"], "/healthz", true),
    (Part::Urls, &["/healthz"], "/healthz", true),
    (Part::Urls, &["/healthz"], "/healthz/x", false),
    (Part::Urls, &["/*z"], "/healthz", false),
    (Part::Urls, &[], "/healthz", false),
];

#[test]
fn words_of_a_rule_match_what_they_stand_for(rt: HostRuntime) {
    for (part, listed, text, wanted) in ROWS {
        let got = matches(&rt, rt.alloc(), *part, listed, text);
        check(&rt, text, got == *wanted);
    }
}
