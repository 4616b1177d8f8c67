//! Stems, from which targets are made: a resource, which is combined with each name, or a URL. A
//! URL begins with a slash and a resource doesn't, so a stem needs no flag for its kind.

ghost use Rattle.std.specs.Prelude.{◌≡◌, ◌++◌, length, All, IfOk, OnOk, IsTrue};
ghost use Rattle.std.specs.List.{flat_map};
ghost use Rattle.rbac_terms.specs.Targets.{Resource, Url, IsProper, is_path};
ghost use Rattle.rbac_universe.specs.Stems.{url_stem, stems_of, stem_name, targets_of};
ghost use Rattle.rbac_universe.specs.Stems.{flags_of, IsStem};

use crate::lists::{ListedResource, UniverseLists};
use crate::unions::Unites;
use rbac_terms::{Target, Word, is_path};
use std::alloc::{AllocError, Global};
use std::cmp::Ordering;

impl Unites for ListedResource {
    ghost use Rattle.std.specs.Prelude.{IsTrue};
    ghost use Rattle.rbac_universe.specs.Stems.{stem_name};

    ghost name = { stem_name };

    ghost has = { λ s _. IsTrue s.namespaced };

    fn cmp_name(&self, other: &Self) -> Ordering {
        self.group
            .cmp(&other.group)
            .then(self.text.cmp(&other.text))
    }

    fn unite(&mut self, more: Self) -> Result<(), AllocError> {
        self.namespaced |= more.namespaced;
        Ok(())
    }
}

impl ListedResource {
    // Whether the stem is a URL.
    fn is_url(&self) -> bool
        ensures { result ≡ is_path self.now.text }
    {
        is_path(self.text.as_bytes())
    }
}

// The resources, and each URL as a stem, in the order listed.
pub(crate) fn stems_of(
    alloc: Global,
    lists: &UniverseLists,
) -> Result<Vec<ListedResource>, AllocError>
    ensures { IfOk result (λ stems. stems.items ≡ stems_of lists.now) }
{
    let mut stems = resources_of(lists)?;
    for path in lists.urls.as_slice() {
        stems.push(url_stem(alloc, path)?)?;
    }
    Ok(stems)
}

// A copy of the resources, in the order listed.
fn resources_of(lists: &UniverseLists) -> Result<Vec<ListedResource>, AllocError>
    ensures { IfOk result (λ copy. copy.items ≡ lists.now.resources) }
{
    Ok(lists.resources.clone()?.into_vec())
}

fn url_stem(alloc: Global, path: &Word) -> Result<ListedResource, AllocError>
    ensures { IfOk result (λ stem. stem ≡ url_stem path.now) }
{
    Ok(ListedResource {
        group: Word::new(alloc),
        text: path.clone()?,
        namespaced: false,
    })
}

// How many targets these stems have with these names.
pub(crate) fn count_targets(stems: &[ListedResource], names: &[Word]) -> u128
    ensures { result ≡ length (flat_map (targets_of names.now) stems.now) }
{
    let mut count: u128 = 0;
    for stem in stems {
        count += count_at(stem, names) as u128;
    }
    count
}

// How many targets one stem has with these names.
fn count_at(stem: &ListedResource, names: &[Word]) -> usize
    ensures { result ≡ length (targets_of names.now stem.now) }
{
    if stem.is_url() { 1 } else { names.len() }
}

// The targets of these stems with these names, in order.
pub(crate) fn all_targets(
    alloc: Global,
    stems: &[ListedResource],
    names: &[Word],
) -> Result<Vec<Target>, AllocError>
    requires { All IsStem stems.now }
    ensures { IfOk result (λ targets. targets.items ≡ flat_map (targets_of names.now) stems.now) }
{
    let mut targets = Vec::new(alloc);
    for stem in stems {
        push_targets(alloc, &mut targets, stem, names)?;
    }
    Ok(targets)
}

fn push_targets(
    alloc: Global,
    targets: &mut Vec<Target>,
    stem: &ListedResource,
    names: &[Word],
) -> Result<(), AllocError>
    requires { IsStem stem.now }
    ensures { OnOk result (targets.new.items ≡ targets.old.items ++ targets_of names.now stem.now) }
{
    if stem.is_url() {
        targets.push(url_at(alloc, stem)?)?;
        return Ok(());
    }
    for name in names {
        targets.push(resource_at(stem, name)?)?;
    }
    Ok(())
}

fn url_at(alloc: Global, stem: &ListedResource) -> Result<Target, AllocError>
    requires { IsTrue (is_path stem.now.text) }
    ensures { IfOk result (λ target. target ≡ Url stem.now.text) }
{
    match Target::url(alloc, stem.text.clone()?) {
        Ok(target) => Ok(target),
        Err(_) => unreachable!(),
    }
}

fn resource_at(stem: &ListedResource, name: &Word) -> Result<Target, AllocError>
    requires { IsProper (Resource stem.now.group stem.now.text name.now) }
    ensures { IfOk result (λ target. target ≡ Resource stem.now.group stem.now.text name.now) }
{
    match Target::resource(stem.group.clone()?, stem.text.clone()?, name.clone()?) {
        Ok(target) => Ok(target),
        Err(_) => unreachable!(),
    }
}

// For each of these targets, whether its stem is namespaced.
pub(crate) fn all_flags(
    alloc: Global,
    stems: &[ListedResource],
    names: &[Word],
) -> Result<Vec<bool>, AllocError>
    ensures { IfOk result (λ flags. flags.items ≡ flat_map (flags_of names.now) stems.now) }
{
    let mut flags = Vec::new(alloc);
    for stem in stems {
        push_flags(&mut flags, stem, names)?;
    }
    Ok(flags)
}

fn push_flags(
    flags: &mut Vec<bool>,
    stem: &ListedResource,
    names: &[Word],
) -> Result<(), AllocError>
    ensures { OnOk result (flags.new.items ≡ flags.old.items ++ flags_of names.now stem.now) }
{
    if stem.is_url() {
        flags.push(stem.namespaced)?;
        return Ok(());
    }
    for _ in names {
        flags.push(stem.namespaced)?;
    }
    Ok(())
}
