//! Lists with each entry once and in order.

ghost use Rattle.std.specs.Prelude.{◌≡◌, IfOk, List};
ghost use Rattle.rbac_terms.specs.Text.{Text};
ghost use Rattle.rbac_model.specs.Lists.{by_name, IsOnceEach};
ghost use Rattle.rbac_document.specs.Document.{AreOnceEach};
ghost use Rattle.rbac_document.specs.Names.{principal_name};

use rbac_terms::{Items, Principal, Word};
use rbac_universe::{ListedResource, Principals, UniverseLists};
use std::alloc::AllocError;
use std::cmp::Ordering;

/// An entry that has a name of its own, by which it is ordered.
pub(crate) trait Ordered {
    ghost name: { Self → List Text };

    ghost named: { List Text → Self };

    ghost named_name: { (entry : Self) → named (name entry) ≡ entry };

    fn cmp_name(&self, other: &Self) -> Ordering
        ensures { result ≡ by_name name self.now other.now };
}

impl Ordered for Word {
    ghost use Rattle.rbac_document.specs.Names.{word_name, word_named, word_named_name};

    ghost name = { word_name };

    ghost named = { word_named };

    ghost named_name = { word_named_name };

    fn cmp_name(&self, other: &Self) -> Ordering {
        self.cmp(other)
    }
}

impl Ordered for Principal {
    ghost use Rattle.rbac_document.specs.Names.{principal_name, principal_named};
    ghost use Rattle.rbac_document.specs.Names.{principal_named_name};

    ghost name = { principal_name };

    ghost named = { principal_named };

    ghost named_name = { principal_named_name };

    fn cmp_name(&self, other: &Self) -> Ordering {
        match self.key().cmp(other.key()) {
            Ordering::Equal => self.given().cmp(other.given()),
            by_key => by_key,
        }
    }
}

impl Ordered for ListedResource {
    ghost use Rattle.rbac_document.specs.Names.{resource_name, resource_named};
    ghost use Rattle.rbac_document.specs.Names.{resource_named_name};

    ghost name = { resource_name };

    ghost named = { resource_named };

    ghost named_name = { resource_named_name };

    fn cmp_name(&self, other: &Self) -> Ordering {
        self.group
            .cmp(&other.group)
            .then(self.text.cmp(&other.text))
            .then(self.namespaced.cmp(&other.namespaced))
    }
}

/// The same lists with each entry once and in order (own): principals by key and then by the groups
/// given, resources by group, text and flag, and texts by their bytes. Fails only if it runs out of
/// memory.
pub fn once_each(lists: UniverseLists) -> Result<UniverseLists, AllocError>
    ensures { IfOk result (AreOnceEach lists) }
{
    let UniverseLists {
        principals,
        namespaces,
        verbs,
        resources,
        names,
        urls,
    } = lists;
    Ok(UniverseLists {
        principals: principals_once_each(principals)?,
        namespaces: in_order(namespaces)?,
        verbs: in_order(verbs)?,
        resources: in_order(resources)?,
        names: in_order(names)?,
        urls: in_order(urls)?,
    })
}

/// The same principals, each once, by key and then by the groups given (own). Fails only if it runs
/// out of memory.
pub fn principals_once_each(principals: Principals) -> Result<Principals, AllocError>
    ensures { IfOk result (IsOnceEach (by_name principal_name) principals) }
{
    in_order(principals)
}

// The entries of a list, each once and in order.
fn in_order<T: Ordered + Drop>(listed: Items<T>) -> Result<Items<T>, AllocError>
    ensures { IfOk result (IsOnceEach (by_name T.name) listed) }
{
    let mut entries = listed.into_vec();
    // (a stable sort keeps runs that are in order, as principals of an index are)
    entries.sort_by(|a, b| a.cmp_name(b))?;
    entries.dedup_by(|a, b| a.cmp_name(b).is_eq());
    Ok(Items::from_vec(entries))
}
