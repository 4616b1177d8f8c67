//! The lists that are derived from the objects that are kept.

ghost use Rattle.std.specs.Prelude.{◌≡◌, ◌++◌, IfOk, OnOk, map};
ghost use Rattle.std.specs.List.{flat_map, filter_map};
ghost use Rattle.rbac_lists.specs.Derived.{principals_of, namespaces_of, verbs_of, resources_of};
ghost use Rattle.rbac_lists.specs.Derived.{names_of, urls_of, as_listed};

use crate::given_lists::Account;
use crate::naming::{Names, Resources, Urls, Verbs, as_listed, put_named};
use crate::principals::put_accounts;
use crate::texts::{copy_of, is_path_word, is_verb, put_words};
use rbac_catalogue::{Catalogue, Entry};
use rbac_model::Objects;
use rbac_terms::{Binding, Role, Word, Words, put_principals};
use rbac_universe::{ListedResource, ListedResources, Principals};
use std::alloc::{AllocError, Global};

// The principals that bindings name, and then the users of service accounts. A principal is listed
// as often as it is named.
pub(crate) fn principals_of(
    alloc: Global,
    objects: &Objects,
    accounts: &[Account],
) -> Result<Principals, AllocError>
    ensures { IfOk result (λ list. list ≡ principals_of objects.now accounts.now) }
{
    let mut principals = Vec::new(alloc);
    for binding in objects.bindings() {
        put_principals(alloc, binding, &mut principals)?;
    }
    put_accounts(alloc, accounts, &mut principals)?;
    Ok(Principals::from_vec(principals))
}

// The empty namespace, the namespaces of objects and of service accounts, and the given names.
pub(crate) fn namespaces_of(
    alloc: Global,
    objects: &Objects,
    names: &[Word],
    accounts: &[Account],
) -> Result<Words, AllocError>
    ensures { IfOk result (λ list. list ≡ namespaces_of objects.now names.now accounts.now) }
{
    let mut namespaces = Vec::new(alloc);
    namespaces.push(Word::new(alloc))?;
    put_role_namespaces(alloc, objects.roles(), &mut namespaces)?;
    put_binding_namespaces(alloc, objects.bindings(), &mut namespaces)?;
    put_account_namespaces(alloc, accounts, &mut namespaces)?;
    put_words(alloc, names, &mut namespaces)?;
    Ok(Words::from_vec(namespaces))
}

fn put_role_namespaces(
    alloc: Global,
    roles: &[Role],
    list: &mut Vec<Word>,
) -> Result<(), AllocError>
    ensures { OnOk result (list.new.items ≡ list.old.items ++ map (λ r. r.namespace) roles.now) }
{
    for role in roles {
        list.push(copy_of(alloc, &role.namespace)?)?;
    }
    Ok(())
}

fn put_binding_namespaces(
    alloc: Global,
    bindings: &[Binding],
    list: &mut Vec<Word>,
) -> Result<(), AllocError>
    ensures { OnOk result
        (list.new.items ≡ list.old.items ++ filter_map (λ b. b.namespace) bindings.now) }
{
    for binding in bindings {
        if let Some(namespace) = &binding.namespace {
            list.push(copy_of(alloc, namespace)?)?;
        }
    }
    Ok(())
}

fn put_account_namespaces(
    alloc: Global,
    accounts: &[Account],
    list: &mut Vec<Word>,
) -> Result<(), AllocError>
    ensures { OnOk result (list.new.items ≡ list.old.items ++ map (λ a. a.namespace) accounts.now) }
{
    for account in accounts {
        list.push(copy_of(alloc, &account.namespace)?)?;
    }
    Ok(())
}

// The verbs of catalogue entries and of rules, other than `*`.
pub(crate) fn verbs_of(
    alloc: Global,
    objects: &Objects,
    catalogue: &Catalogue,
) -> Result<Words, AllocError>
    ensures { IfOk result (λ list. list ≡ verbs_of objects.now catalogue.now) }
{
    let mut verbs = Vec::new(alloc);
    put_entry_verbs(alloc, catalogue.entries(), &mut verbs)?;
    put_named::<Verbs>(alloc, objects, &mut verbs)?;
    verbs.retain(|verb| is_verb(verb));
    Ok(Words::from_vec(verbs))
}

fn put_entry_verbs(alloc: Global, entries: &[Entry], list: &mut Vec<Word>) -> Result<(), AllocError>
    ensures { OnOk result (list.new.items ≡ list.old.items ++ flat_map (λ e. e.verbs) entries.now) }
{
    for entry in entries {
        put_words(alloc, entry.verbs.as_slice(), list)?;
    }
    Ok(())
}

// The resources of the catalogue if it is given, otherwise those that rules name.
pub(crate) fn resources_of(
    alloc: Global,
    objects: &Objects,
    catalogue: &Catalogue,
) -> Result<ListedResources, AllocError>
    ensures { IfOk result (λ list. list ≡ resources_of objects.now catalogue.now) }
{
    let mut resources = Vec::new(alloc);
    if catalogue.is_given() {
        put_entries(alloc, catalogue.entries(), &mut resources)?;
    } else {
        put_named::<Resources>(alloc, objects, &mut resources)?;
    }
    Ok(ListedResources::from_vec(resources))
}

fn put_entries(
    alloc: Global,
    entries: &[Entry],
    list: &mut Vec<ListedResource>,
) -> Result<(), AllocError>
    ensures { OnOk result
        (list.new.items
        ≡ list.old.items ++ map (λ e. as_listed e.group e.name e.namespaced) entries.now) }
{
    for entry in entries {
        list.push(as_listed(alloc, &entry.group, &entry.name, entry.namespaced)?)?;
    }
    Ok(())
}

// The empty name, and the object names of rules.
pub(crate) fn names_of(alloc: Global, objects: &Objects) -> Result<Words, AllocError>
    ensures { IfOk result (λ list. list ≡ names_of objects.now) }
{
    let mut names = Vec::new(alloc);
    names.push(Word::new(alloc))?;
    put_named::<Names>(alloc, objects, &mut names)?;
    Ok(Words::from_vec(names))
}

// The paths among the URL words of rules.
pub(crate) fn urls_of(alloc: Global, objects: &Objects) -> Result<Words, AllocError>
    ensures { IfOk result (λ list. list ≡ urls_of objects.now) }
{
    let mut urls = Vec::new(alloc);
    put_named::<Urls>(alloc, objects, &mut urls)?;
    urls.retain(|word| is_path_word(word));
    Ok(Words::from_vec(urls))
}
