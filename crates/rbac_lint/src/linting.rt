//! Everything that lint finds.

ghost use Rattle.std.specs.Prelude.{◌≡◌, [], IfOk, OnOk};
ghost use Rattle.rbac_lint.specs.Findings.{AreFindings};
ghost use Rattle.rbac_lint.specs.Wanted.{AreWanted};

use crate::accounts::find_accounts;
use crate::dangling_role::find_dangling;
use crate::escalation::find_escalations;
use crate::finding::Findings;
use crate::redundant_rule::find_redundant;
use crate::replaced_object::find_replaced;
use crate::stale_aggregate::find_stale;
use crate::unused_role::find_unused;
use crate::wanted::Wanted;
use rbac_manifest::{Export, Loaded};
use std::alloc::{AllocError, Global};

/// What deserves a second look in the loaded inputs (own): bindings whose role is missing, roles
/// that no binding refers to, not even by aggregation, rules that another rule of their role
/// covers, rules that let a subject grant more than it has, accounts without a namespace,
/// aggregated roles whose written rules aren't those that they gather, and objects that were given
/// more than once. The findings are ordered by code, as listed here, then by the object's kind,
/// namespace and name, then by place, then by the last field.
///
/// Fails only if it runs out of memory.
pub fn lint(alloc: Global, loaded: &Loaded) -> Result<Findings, AllocError>
    ensures { IfOk result (AreFindings loaded.now.policy.held loaded.now.replaced) }
{
    let all = Wanted {
        only: None,
        skip_system: false,
    };
    lint_export(alloc, loaded.export(), all)
}

/// The findings of [`lint`] that are wanted. It derives no lists of a universe, and doesn't look
/// for codes that aren't wanted. Fails only if it runs out of memory.
pub fn lint_export(
    alloc: Global,
    export: &Export,
    wanted: Wanted<'_>,
) -> Result<Findings, AllocError>
    ensures { IfOk result (AreWanted wanted.entry export.now.policy.held export.now.replaced) }
{
    let mut found = Findings::new(alloc);
    find_all(alloc, &mut found, export, &wanted)?;
    Ok(found)
}

// Adds all findings that are asked for, in order.
fn find_all(
    alloc: Global,
    found: &mut Findings,
    export: &Export,
    wanted: &Wanted<'_>,
) -> Result<(), AllocError>
    ensures { OnOk result (found.old ≡ []
        → AreWanted wanted.now export.now.policy.held export.now.replaced found.new) }
{
    let policy = export.policy();
    let objects = policy.objects();
    find_dangling(alloc, found, objects, wanted)?;
    find_unused(alloc, found, policy, wanted)?;
    find_redundant(alloc, found, objects, wanted)?;
    find_escalations(alloc, found, objects, wanted)?;
    find_accounts(alloc, found, objects, wanted)?;
    find_stale(alloc, found, policy, wanted)?;
    find_replaced(alloc, found, export.replaced(), wanted)?;
    Ok(())
}
