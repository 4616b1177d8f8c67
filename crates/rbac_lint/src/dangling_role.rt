//! Bindings whose role is missing.

ghost use Rattle.std.specs.Prelude.{OnOk, IsTrue, ◌↔◌};
ghost use Rattle.rbac_lint.specs.Lines.{AddsLines};
ghost use Rattle.rbac_lint.specs.Findings.{Dangles, IsDanglingOf, IsDangling};
ghost use Rattle.rbac_lint.specs.Wanted.{OfKept, OfWanted};

use crate::finding::{Finding, Findings, binding_word, named_word};
use crate::wanted::Wanted;
use rbac_model::{Objects, ref_place};
use rbac_terms::Binding;
use std::alloc::{AllocError, Global};

// Adds the findings that are asked for, for all bindings.
pub(crate) fn find_dangling(
    alloc: Global,
    found: &mut Findings,
    objects: &Objects,
    wanted: &Wanted<'_>,
) -> Result<(), AllocError>
    ensures { OnOk result
        (AddsLines (OfWanted wanted.now (IsDangling objects.now)) found.old found.new) }
{
    if !wanted.has_code(1) {
        return Ok(());
    }
    let bindings = objects.bindings();
    for binding in bindings {
        find_dangling_of(alloc, found, objects, wanted, binding)?;
    }
    Ok(())
}

// Adds the finding for this binding, if there is one.
fn find_dangling_of(
    alloc: Global,
    found: &mut Findings,
    objects: &Objects,
    wanted: &Wanted<'_>,
    binding: &Binding,
) -> Result<(), AllocError>
    ensures { OnOk result
        (AddsLines (OfKept wanted.now (IsDanglingOf objects.now binding.now)) found.old found.new) }
{
    if !wanted.keeps_binding(binding) {
        return Ok(());
    }
    if !dangles(objects, binding) {
        return Ok(());
    }
    let object = binding_word(alloc, binding)?;
    let other = named_word(alloc, binding)?;
    found.push(Finding {
        code: 1,
        object,
        place: None,
        other,
    })
}

fn dangles(objects: &Objects, binding: &Binding) -> bool
    ensures { IsTrue result ↔ Dangles objects.now binding.now }
{
    ref_place(objects, binding).is_none()
}
