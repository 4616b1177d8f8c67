//! Objects for which several documents were given.

ghost use Rattle.std.specs.Prelude.{◌≡◌, IfOk, OnOk};
ghost use Rattle.rbac_model.specs.Lists.{IsAscendingBy};
ghost use Rattle.rbac_manifest.specs.Replaced.{replaced_name};
ghost use Rattle.rbac_lint.specs.Lines.{AddsLines, object_text};
ghost use Rattle.rbac_lint.specs.Replaced.{replaced_object, IsReplacedOf, IsReplaced};
ghost use Rattle.rbac_lint.specs.Wanted.{OfKept, OfWanted};

use crate::finding::{Finding, Findings, number_word, object_word};
use crate::wanted::Wanted;
use rbac_manifest::Replaced;
use rbac_terms::Word;
use std::alloc::{AllocError, Global};

// Adds a finding for each replaced object, if it is asked for.
pub(crate) fn find_replaced(
    alloc: Global,
    found: &mut Findings,
    replaced: &[Replaced],
    wanted: &Wanted<'_>,
) -> Result<(), AllocError>
    requires { IsAscendingBy replaced_name replaced.now }
    ensures { OnOk result
        (AddsLines (OfWanted wanted.now (IsReplaced replaced.now)) found.old found.new) }
{
    if !wanted.has_code(7) {
        return Ok(());
    }
    for object in replaced {
        find_replaced_of(alloc, found, wanted, object)?;
    }
    Ok(())
}

fn find_replaced_of(
    alloc: Global,
    found: &mut Findings,
    wanted: &Wanted<'_>,
    replaced: &Replaced,
) -> Result<(), AllocError>
    ensures { OnOk result
        (AddsLines (OfKept wanted.now (IsReplacedOf replaced.now)) found.old found.new) }
{
    if !wanted.keeps_replaced(replaced) {
        return Ok(());
    }
    let object = replaced_word(alloc, replaced)?;
    let other = number_word(alloc, replaced.earlier)?;
    found.push(Finding {
        code: 7,
        object,
        place: None,
        other,
    })
}

// An object as findings name it.
fn replaced_word(alloc: Global, replaced: &Replaced) -> Result<Word, AllocError>
    ensures { IfOk result (λ w. w ≡ object_text (replaced_object replaced.now)) }
{
    let kind = replaced.kind.as_bytes();
    let namespace = replaced.namespace.as_bytes();
    if namespace.is_empty() {
        object_word(alloc, kind, None, &replaced.name)
    } else {
        object_word(alloc, kind, Some(namespace), &replaced.name)
    }
}
