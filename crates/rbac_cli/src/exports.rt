//! What the inputs of a command give.

ghost use Rattle.std.specs.Prelude.{◌≡◌, ◌≢◌, ◌<◌, ◌^◌, ◌+◌, ◌⊎◌, IfOk, IfErr, IfSome, IsOkAnd};
ghost use Rattle.std.specs.Prelude.{List, None, Some, length};
ghost use Rattle.rbac_diff.specs.Requests.{RequestView};
ghost use Rattle.rbac_manifest.specs.Changed.{IsResolved, changed_objects};
ghost use Rattle.rbac_manifest.specs.Load.{IsLoaded, HasFault, HasTooManyGrants, document_fault};
ghost use Rattle.rbac_manifest.specs.declared.fault.Cause.TheVariants.{NoMemory};
ghost use Rattle.rbac_question.specs.declared.command.Action.TheVariants.{Diff};
ghost use Rattle.rbac_cli.specs.Exports.{AreLoaded, AreInputsRefused, IsSideBefore, IsSideAfter};
ghost use Rattle.rbac_cli.specs.Exports.{IsChangeRefused, IsFaultOfBoth, behind, objects_after};
ghost use Rattle.rbac_cli.specs.Exports.{objects_of};
ghost use Rattle.rbac_cli.specs.Ends.{FailsToLoad};

use crate::outcome::RunFault;
use rbac_manifest::{
    At, Cause, Export, LoadFault, changed, load_export, load_objects, load_policy,
};
use rbac_model::{Object, Policy};
use rbac_question::{Action, Change};
use rbac_streams::Input;
use rbac_use::Log;
use std::alloc::Global;
use std::marker::Model;

/// The requests of the logs, which the caller of a run keeps.
#[derive(Drop)]
pub(crate) struct LentLog<'l> {
    log: &'l Log,
}

impl<'l> Model for LentLog<'l> {
    ghost use Rattle.std.specs.Prelude.{List};
    ghost use Rattle.rbac_diff.specs.Requests.{RequestView};

    ghost Value = { List RequestView };

    ghost view = { λ l. l.log.now };
}

impl<'l> LentLog<'l> {
    /// The log.
    pub(crate) fn log(&self) -> &'l Log
        ensures { result.now ≡ self.now }
    {
        self.log
    }
}

/// What an action is answered over.
pub(crate) enum Exports<'l> {
    /// One export.
    Single(Export),
    /// The policy before a change, and the one after it.
    Pair(Policy, Policy),
    /// One export, and the requests of the logs.
    Used(Export, LentLog<'l>),
}

impl Drop for Exports<'_> {
    fn drop(self) {
        match self {
            Self::Single(_) => {}
            Self::Pair(_, _) => {}
            Self::Used(_, _) => {}
        }
    }
}

/// Loads the inputs of an action: for `diff` the side before the change and then the side after it;
/// otherwise all inputs together. Only `unused` and `least` are answered over the requests of the
/// log, too.
pub(crate) fn exports_from<'l>(
    alloc: Global,
    action: &Action,
    inputs: &[Input],
    log: &'l Log,
) -> Result<Exports<'l>, RunFault>
    ensures ok { IfOk result (AreLoaded action.now inputs.now log.now) }
    ensures fault { IfErr result (FailsToLoad (AreInputsRefused action.now inputs.now)) }
{
    match action {
        Action::Diff { before, change } => pair_from(alloc, *before, *change, inputs),
        Action::Unused { .. } => Ok(Exports::Used(export_from(alloc, inputs)?, LentLog { log })),
        Action::Least { .. } => Ok(Exports::Used(export_from(alloc, inputs)?, LentLog { log })),
        _ => Ok(Exports::Single(export_from(alloc, inputs)?)),
    }
}

fn export_from(alloc: Global, inputs: &[Input]) -> Result<Export, RunFault>
    ensures ok { IfOk result (IsLoaded inputs.now) }
    ensures fault { IfErr result (FailsToLoad (HasFault inputs.now)) }
{
    load_export(alloc, inputs).map_err(unloaded)
}

// Loads both sides of a change. The first `before` inputs are the side before.
fn pair_from<'l>(
    alloc: Global,
    before: usize,
    change: Change,
    inputs: &[Input],
) -> Result<Exports<'l>, RunFault>
    ensures ok { (log : List RequestView)
        → IfOk result (AreLoaded (Diff before change) inputs.now log) }
    ensures fault { IfErr result (FailsToLoad (AreInputsRefused (Diff before change) inputs.now)) }
{
    let (first, others) = inputs.split_at(before.min(inputs.len()));
    match sides_of(alloc, change, first, others) {
        Ok((old, new)) => Ok(Exports::Pair(old, new)),
        Err(fault) => Err(unloaded(fault)),
    }
}

// The policies before and after a change. A fault of the side before comes first.
fn sides_of(
    alloc: Global,
    change: Change,
    first: &[Input],
    others: &[Input],
) -> Result<(Policy, Policy), LoadFault>
    requires { length first.now + length others.now < 2 ^ 64 }
    ensures ok { IfOk result (λ sides. IsSideBefore first.now sides.0
        × IsSideAfter change first.now others.now sides.1) }
    ensures fault { IfErr result
        (λ e. e.cause ≢ NoMemory → IsChangeRefused change first.now others.now e) }
    ensures memory { IfErr result (λ e. e.cause ≡ NoMemory → e.at ≡ None) }
{
    let objects = load_objects(alloc, first)?;
    let changed = changed_by(alloc, change, objects.as_slice(), others);
    let old = load_policy(alloc, objects)?;
    match policy_of(alloc, changed) {
        Ok(new) => Ok((old, new)),
        Err(fault) => Err(moved_behind(first.len(), fault)),
    }
}

// The policy of objects, if they were loaded.
fn policy_of(alloc: Global, objects: Result<Vec<Object>, LoadFault>) -> Result<Policy, LoadFault>
    ensures ok { IfOk result (λ p. IsOkAnd objects (λ v. IsResolved v.items p)) }
    ensures fault { IfErr result (λ e. (objects ≡ Err e)
        ⊎ IsOkAnd objects (λ v. e.cause ≢ NoMemory → HasTooManyGrants v.items e)) }
    ensures memory { IfErr result (λ e. (objects ≡ Err e)
        ⊎ (e.cause ≡ NoMemory → e.at ≡ None)) }
{
    match objects {
        Ok(objects) => load_policy(alloc, objects),
        Err(fault) => Err(fault),
    }
}

// The objects after a change that the other inputs describe.
fn changed_by(
    alloc: Global,
    change: Change,
    objects: &[Object],
    others: &[Input],
) -> Result<Vec<Object>, LoadFault>
    ensures ok { IfOk result (λ v. (document_fault others.now ≡ None)
        × (v.items ≡ objects_after change objects.now others.now)) }
    ensures fault { IfErr result (λ e. e.cause ≢ NoMemory → document_fault others.now ≡ Some e) }
    ensures memory { IfErr result (λ e. e.cause ≡ NoMemory → e.at ≡ None) }
{
    match change {
        Change::After => load_objects(alloc, others),
        Change::Over(count) => {
            let (without, over) = others.split_at(count.min(others.len()));
            changed_over(alloc, objects, without, over)
        }
    }
}

// These objects without those that `without` names, followed by those of `over`.
fn changed_over(
    alloc: Global,
    objects: &[Object],
    without: &[Input],
    over: &[Input],
) -> Result<Vec<Object>, LoadFault>
    requires { length without.now + length over.now < 2 ^ 64 }
    ensures ok { IfOk result (λ v. (document_fault without.now ≡ None)
        × (document_fault over.now ≡ None)
        × (v.items ≡ changed_objects objects.now (objects_of without.now) (objects_of over.now))) }
    ensures fault { IfErr result
        (λ e. e.cause ≢ NoMemory → IsFaultOfBoth without.now over.now e) }
    ensures memory { IfErr result (λ e. e.cause ≡ NoMemory → e.at ≡ None) }
{
    let named = load_objects(alloc, without)?;
    let put = match load_objects(alloc, over) {
        Ok(put) => put,
        Err(fault) => return Err(moved_behind(without.len(), fault)),
    };
    match changed(alloc, objects, named.as_slice(), put) {
        Ok(objects) => Ok(objects),
        Err(_) => Err(LoadFault {
            at: None,
            cause: Cause::NoMemory,
        }),
    }
}

// A fault of inputs that come behind `before` others.
fn moved_behind(before: usize, fault: LoadFault) -> LoadFault
    requires { IfSome fault.at (λ at. before + at.file < 2 ^ 64) }
    ensures { result ≡ behind before fault }
{
    let at = match fault.at {
        Some(At { file, item }) => Some(At {
            file: before + file,
            item,
        }),
        None => None,
    };
    LoadFault {
        at,
        cause: fault.cause,
    }
}

// Why a run stops if its inputs fail to load. Out of memory has a variant of its own.
fn unloaded(fault: LoadFault) -> RunFault
    ensures refused { fault.cause ≢ Cause.NoMemory → result ≡ RunFault.Load fault }
    ensures memory { fault.cause ≡ Cause.NoMemory → result ≡ RunFault.Memory 0 }
{
    match fault.cause {
        Cause::NoMemory => RunFault::Memory { written: 0 },
        _ => RunFault::Load(fault),
    }
}
