//! What rules name as they are written: verbs, resources, object names and URLs.

ghost use Rattle.std.specs.Prelude.{◌≡◌, ◌++◌, List, OnOk, IfOk, filter, is_none};
ghost use Rattle.std.specs.List.{flat_map};
ghost use Rattle.rbac_terms.specs.declared.matching.Rule.{Rule};
ghost use Rattle.rbac_lists.specs.Derived.{source_rules, rule_resources, group_resources};
ghost use Rattle.rbac_lists.specs.Derived.{as_listed};

use crate::texts::{copy_of, has_star, is_plain_resource, put_words};
use rbac_model::Objects;
use rbac_terms::{ClusterRole, Role, Rule, Word};
use rbac_universe::ListedResource;
use std::alloc::{AllocError, Global};

/// A kind of list, to which each rule adds what it names.
pub(crate) trait Naming {
    type Item;

    ghost named: { Rule → List Self.Item };

    fn put(alloc: Global, rule: &Rule, list: &mut Vec<Self::Item>) -> Result<(), AllocError>
        ensures { OnOk result (list.new.items ≡ list.old.items ++ named rule.now) };
}

// Adds what the rules of roles and of plain cluster roles name.
pub(crate) fn put_named<N: Naming>(
    alloc: Global,
    objects: &Objects,
    list: &mut Vec<N::Item>,
) -> Result<(), AllocError>
    ensures { OnOk result
        (list.new.items ≡ list.old.items ++ flat_map N.named (source_rules objects.now)) }
{
    put_of_roles::<N>(alloc, objects.roles(), list)?;
    put_of_cluster_roles::<N>(alloc, objects.cluster_roles(), list)?;
    Ok(())
}

fn put_of_roles<N: Naming>(
    alloc: Global,
    roles: &[Role],
    list: &mut Vec<N::Item>,
) -> Result<(), AllocError>
    ensures { OnOk result
        (list.new.items ≡ list.old.items ++ flat_map (λ r. flat_map N.named r.rules) roles.now) }
{
    for role in roles {
        put_of_rules::<N>(alloc, role.rules.as_slice(), list)?;
    }
    Ok(())
}

fn put_of_cluster_roles<N: Naming>(
    alloc: Global,
    roles: &[ClusterRole],
    list: &mut Vec<N::Item>,
) -> Result<(), AllocError>
    ensures { OnOk result (list.new.items ≡ list.old.items
        ++ flat_map
        (λ r. flat_map N.named r.rules) (filter (λ r. is_none r.aggregation) roles.now)) }
{
    for role in roles {
        if role.aggregation.is_none() {
            put_of_rules::<N>(alloc, role.rules.as_slice(), list)?;
        }
    }
    Ok(())
}

fn put_of_rules<N: Naming>(
    alloc: Global,
    rules: &[Rule],
    list: &mut Vec<N::Item>,
) -> Result<(), AllocError>
    ensures { OnOk result (list.new.items ≡ list.old.items ++ flat_map N.named rules.now) }
{
    for rule in rules {
        N::put(alloc, rule, list)?;
    }
    Ok(())
}

/// The verbs of rules.
pub(crate) struct Verbs;

impl Naming for Verbs {
    type Item = Word;

    ghost named = { λ r. r.verbs };

    fn put(alloc: Global, rule: &Rule, list: &mut Vec<Word>) -> Result<(), AllocError> {
        put_words(alloc, rule.verbs.as_slice(), list)
    }
}

/// The object names of rules.
pub(crate) struct Names;

impl Naming for Names {
    type Item = Word;

    ghost named = { λ r. r.resource_names };

    fn put(alloc: Global, rule: &Rule, list: &mut Vec<Word>) -> Result<(), AllocError> {
        put_words(alloc, rule.resource_names.as_slice(), list)
    }
}

/// The URL words of rules.
pub(crate) struct Urls;

impl Naming for Urls {
    type Item = Word;

    ghost named = { λ r. r.urls };

    fn put(alloc: Global, rule: &Rule, list: &mut Vec<Word>) -> Result<(), AllocError> {
        put_words(alloc, rule.urls.as_slice(), list)
    }
}

/// The resources that rules name.
pub(crate) struct Resources;

impl Naming for Resources {
    type Item = ListedResource;

    ghost named = { rule_resources };

    fn put(alloc: Global, rule: &Rule, list: &mut Vec<ListedResource>) -> Result<(), AllocError> {
        for group in rule.groups.as_slice() {
            if !has_star(group) {
                put_of_group(alloc, group, rule.resources.as_slice(), list)?;
            }
        }
        Ok(())
    }
}

// Adds a resource of this group for each of these words that names one resource.
fn put_of_group(
    alloc: Global,
    group: &Word,
    words: &[Word],
    list: &mut Vec<ListedResource>,
) -> Result<(), AllocError>
    ensures { OnOk result (list.new.items ≡ list.old.items ++ group_resources words.now group.now) }
{
    for word in words {
        if is_plain_resource(word) {
            list.push(as_listed(alloc, group, word, true)?)?;
        }
    }
    Ok(())
}

// A resource as it is listed.
pub(crate) fn as_listed(
    alloc: Global,
    group: &Word,
    text: &Word,
    namespaced: bool,
) -> Result<ListedResource, AllocError>
    ensures { IfOk result (λ r. r ≡ as_listed group.now text.now namespaced) }
{
    Ok(ListedResource {
        group: copy_of(alloc, group)?,
        text: copy_of(alloc, text)?,
        namespaced,
    })
}
