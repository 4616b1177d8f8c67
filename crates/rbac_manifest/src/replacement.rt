//! Which documents were replaced by later ones with the same kind, namespace and name.

ghost use Rattle.std.specs.Prelude.{◌≡◌, ◌++◌, IfOk, OnOk, map};
ghost use Rattle.std.specs.List.Sorted.{IsSorted};
ghost use Rattle.rbac_manifest.specs.Names.{namespace_name, account_name, names_given, name_cmp};
ghost use Rattle.rbac_manifest.specs.Replaced.{replaced_by, AreReplaced};

use crate::names::{ObjectName, push_objects, sort_names};
use rbac_lists::Account;
use rbac_model::Object;
use rbac_terms::Word;
use std::alloc::{AllocError, Global};

/// An object given by several documents; the last of them is kept (own).
#[derive(Debug)]
pub struct Replaced {
    /// Its kind, for example `Role`.
    pub kind: Word,
    /// Its namespace, which is empty if it is cluster-scoped.
    pub namespace: Word,
    /// Its name.
    pub name: Word,
    /// How many earlier documents were replaced: at least one.
    pub earlier: usize,
}

impl Drop for Replaced {
    fn drop(self) {
        let Self {
            kind,
            namespace,
            name,
            earlier,
        } = self;
    }
}

// The objects that several of these documents give, each with how many documents were replaced.
// Names are borrowed, and sorted so that equal ones are adjacent; only those that are listed are
// copied.
pub(crate) fn replaced_of(
    alloc: Global,
    objects: &[Object],
    namespaces: &[Word],
    accounts: &[Account],
) -> Result<Vec<Replaced>, AllocError>
    ensures { IfOk result
        (λ v. AreReplaced (names_given objects.now namespaces.now accounts.now) v.items) }
{
    let mut names = names_of(alloc, objects, namespaces, accounts)?;
    sort_names(&mut names)?;
    several(alloc, names.as_slice())
}

// The names of these documents' objects.
fn names_of<'a>(
    alloc: Global,
    objects: &'a [Object],
    namespaces: &'a [Word],
    accounts: &'a [Account],
) -> Result<Vec<ObjectName<'a>>, AllocError>
    ensures { IfOk result (λ v. v.items ≡ names_given objects.now namespaces.now accounts.now) }
{
    let mut names = Vec::new(alloc);
    push_objects(objects, &mut names)?;
    push_namespaces(namespaces, &mut names)?;
    push_accounts(accounts, &mut names)?;
    Ok(names)
}

fn push_namespaces<'a>(
    namespaces: &'a [Word],
    names: &mut Vec<ObjectName<'a>>,
) -> Result<(), AllocError>
    ensures { OnOk result (names.new.items ≡ names.old.items ++ map namespace_name namespaces.now) }
{
    for namespace in namespaces {
        names.push(ObjectName::of_namespace(namespace))?;
    }
    Ok(())
}

fn push_accounts<'a>(
    accounts: &'a [Account],
    names: &mut Vec<ObjectName<'a>>,
) -> Result<(), AllocError>
    ensures { OnOk result (names.new.items ≡ names.old.items ++ map account_name accounts.now) }
{
    for account in accounts {
        names.push(ObjectName::of_account(account))?;
    }
    Ok(())
}

// The objects whose names occur more than once.
fn several(alloc: Global, names: &[ObjectName]) -> Result<Vec<Replaced>, AllocError>
    requires { IsSorted name_cmp names.now }
    ensures { IfOk result (λ v. AreReplaced names.now v.items) }
{
    let mut replaced = Vec::new(alloc);
    for same in names.chunk_by(|a, b| a.cmp_name(b).is_eq()) {
        push_replaced(alloc, &mut replaced, same)?;
    }
    Ok(replaced)
}

// Adds the object with this name to `replaced`, if the name occurs more than once.
fn push_replaced(
    alloc: Global,
    replaced: &mut Vec<Replaced>,
    same: &[ObjectName],
) -> Result<(), AllocError>
    ensures { OnOk result (replaced.new.items ≡ replaced.old.items ++ replaced_by same.now) }
{
    if same.len() < 2 {
        return Ok(());
    }
    let name = &same[0];
    replaced.push(Replaced {
        kind: Word::from_slice(alloc, name.kind.as_bytes())?,
        namespace: Word::from_slice(alloc, name.namespace)?,
        name: Word::from_slice(alloc, name.name)?,
        earlier: same.len() - 1,
    })?;
    Ok(())
}
