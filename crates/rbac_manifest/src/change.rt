//! The objects after a change.

ghost use Rattle.std.specs.Prelude.{◌≡◌, ◌++◌, ◌∷◌, [], not, map, IfOk, OnOk};
ghost use Rattle.std.specs.List.{filter};
ghost use Rattle.std.specs.List.Sorted.{IsSorted, IsPermutation};
ghost use Rattle.rbac_manifest.specs.Names.{object_name, name_cmp, has_name};
ghost use Rattle.rbac_manifest.specs.Changed.{changed_objects};

use crate::copies::Copyable;
use crate::names::{ObjectName, is_among, push_objects, sort_names};
use rbac_model::Object;
use std::alloc::{AllocError, Global};

/// The objects after a change: copies of `objects`, in order, but for those with the kind,
/// namespace and name of an object of `without`, and then `over`. In a policy of these objects, an
/// object of `over` replaces earlier ones of its name (own).
///
/// # Errors
///
/// If it runs out of memory.
pub fn changed(
    alloc: Global,
    objects: &[Object],
    without: &[Object],
    mut over: Vec<Object>,
) -> Result<Vec<Object>, AllocError>
    ensures { IfOk result (λ v. v.items ≡ changed_objects objects.now without.now over.items) }
{
    let names = sorted_names(alloc, without)?;
    let mut changed = Vec::new(alloc);
    push_unnamed(alloc, objects, names.as_slice(), &mut changed)?;
    changed.append(&mut over)?;
    Ok(changed)
}

// The names of these objects, in order.
fn sorted_names<'a>(alloc: Global, objects: &'a [Object]) -> Result<Vec<ObjectName<'a>>, AllocError>
    ensures sorted { IfOk result (λ names. IsSorted name_cmp names.items) }
    ensures same { IfOk result (λ names. IsPermutation (map object_name objects.now) names.items) }
{
    let mut names = Vec::new(alloc);
    push_objects(objects, &mut names)?;
    sort_names(&mut names)?;
    Ok(names)
}

// Adds copies of the objects that have none of these names to `kept`.
fn push_unnamed(
    alloc: Global,
    objects: &[Object],
    names: &[ObjectName],
    kept: &mut Vec<Object>,
) -> Result<(), AllocError>
    requires { IsSorted name_cmp names.now }
    ensures { OnOk result (kept.new.items
        ≡ kept.old.items ++ filter (λ o. not (has_name names.now (object_name o))) objects.now) }
{
    for object in objects {
        push_if_unnamed(alloc, object, names, kept)?;
    }
    Ok(())
}

// Adds a copy of the object to `kept`, unless it has one of these names.
fn push_if_unnamed(
    alloc: Global,
    object: &Object,
    names: &[ObjectName],
    kept: &mut Vec<Object>,
) -> Result<(), AllocError>
    requires { IsSorted name_cmp names.now }
    ensures { OnOk result (kept.new.items ≡ kept.old.items
        ++ filter (λ o. not (has_name names.now (object_name o))) (object.now ∷ [])) }
{
    if is_among(names, &ObjectName::of_object(object)) {
        return Ok(());
    }
    kept.push(object.copy(alloc)?)?;
    Ok(())
}
