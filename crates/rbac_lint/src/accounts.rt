//! ServiceAccount subjects without a namespace.

ghost use Rattle.std.specs.Prelude.{◌≡◌, ◌≢◌, None, OnOk, MatchOption};
ghost use Rattle.rbac_terms.specs.Text.{Text};
ghost use Rattle.rbac_lint.specs.Lines.{AddsLines};
ghost use Rattle.rbac_lint.specs.Findings.{IsAccountWithout, IsAccountWithoutAt};
ghost use Rattle.rbac_lint.specs.Findings.{IsAccountWithoutOf};
ghost use Rattle.rbac_lint.specs.Wanted.{OfKept, OfWanted};

use crate::finding::{Finding, Findings, binding_word};
use crate::wanted::Wanted;
use rbac_model::Objects;
use rbac_terms::{Binding, Subject, Word};
use std::alloc::{AllocError, Global};

// Adds the findings that are asked for, for all bindings.
pub(crate) fn find_accounts(
    alloc: Global,
    found: &mut Findings,
    objects: &Objects,
    wanted: &Wanted<'_>,
) -> Result<(), AllocError>
    ensures { OnOk result
        (AddsLines (OfWanted wanted.now (IsAccountWithout objects.now)) found.old found.new) }
{
    if !wanted.has_code(5) {
        return Ok(());
    }
    let bindings = objects.bindings();
    for binding in bindings {
        find_accounts_of(alloc, found, wanted, binding)?;
    }
    Ok(())
}

// Adds the findings for one binding, if it is a ClusterRoleBinding.
fn find_accounts_of(
    alloc: Global,
    found: &mut Findings,
    wanted: &Wanted<'_>,
    binding: &Binding,
) -> Result<(), AllocError>
    ensures { OnOk result
        (AddsLines (OfKept wanted.now (IsAccountWithoutOf binding.now)) found.old found.new) }
{
    if !wanted.keeps_binding(binding) {
        return Ok(());
    }
    if binding.namespace.is_some() {
        return Ok(());
    }
    let subjects = binding.subjects.as_slice();
    for (place, subject) in subjects.iter().enumerate() {
        find_account(alloc, found, binding, place, subject)?;
    }
    Ok(())
}

// Adds the finding for this subject, if there is one.
fn find_account(
    alloc: Global,
    found: &mut Findings,
    binding: &Binding,
    place: usize,
    subject: &Subject,
) -> Result<(), AllocError>
    ensures { OnOk result
        (AddsLines (IsAccountWithoutAt binding.now place subject.now) found.old found.new) }
{
    let Some(name) = name_without_namespace(subject) else {
        return Ok(());
    };
    let object = binding_word(alloc, binding)?;
    let other = Word::from_slice(alloc, name.as_bytes())?;
    found.push(Finding {
        code: 5,
        object,
        place: Some(place),
        other,
    })
}

// The name of the subject, if it is a ServiceAccount that has no namespace.
fn name_without_namespace(subject: &Subject) -> Option<&Word>
    ensures { MatchOption result
        ((name : Text) → subject.now ≢ Subject.Account None name)
        (λ name. subject.now ≡ Subject.Account None name.now) }
{
    match subject {
        Subject::Account {
            namespace: None,
            name,
        } => Some(name),
        Subject::Account {
            namespace: Some(_),
            name: _,
        } => None,
        Subject::User(_) => None,
        Subject::Group(_) => None,
    }
}
