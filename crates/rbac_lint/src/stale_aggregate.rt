//! Aggregated roles whose written rules aren't those that they gather.

ghost use Rattle.std.specs.Prelude.{◌≡◌, ◌≢◌, [], ◌+◌, ◌++◌, ◌<◌, ◌↔◌, Some, IfOk, OnOk, IsTrue};
ghost use Rattle.std.specs.Prelude.{Contains, slice_get, length};
ghost use Rattle.rbac_terms.specs.declared.matching.Rule.{Rule as RuleView};
ghost use Rattle.rbac_terms.specs.declared.granting.ClusterRole.{ClusterRole as ClusterRoleView};
ghost use Rattle.rbac_lint.specs.Lines.{AddsLines};
ghost use Rattle.rbac_lint.specs.Gathering.{AreGatheredBy, rules_at};
ghost use Rattle.rbac_lint.specs.Findings.{IsGathered, IsStaleRole, IsStaleOf, IsStale};
ghost use Rattle.rbac_lint.specs.Wanted.{OfKept, OfWanted};

use crate::finding::{Finding, Findings, role_word};
use crate::rule_set::has_same_rules;
use crate::wanted::Wanted;
use rbac_model::{Policy, SourceRole};
use rbac_terms::{ClusterRole, Rule, Word};
use std::alloc::{AllocError, Global};

// Adds the findings that are asked for, for all cluster roles.
pub(crate) fn find_stale(
    alloc: Global,
    found: &mut Findings,
    policy: &Policy,
    wanted: &Wanted<'_>,
) -> Result<(), AllocError>
    ensures { OnOk result
        (AddsLines (OfWanted wanted.now (IsStale policy.now.held)) found.old found.new) }
{
    if !wanted.has_code(6) {
        return Ok(());
    }
    let roles = policy.objects().cluster_roles();
    for (place, role) in roles.iter().enumerate() {
        find_stale_role(alloc, found, policy, wanted, place, role)?;
    }
    Ok(())
}

// Adds the finding for this role, if there is one.
fn find_stale_role<'p>(
    alloc: Global,
    found: &mut Findings,
    policy: &'p Policy,
    wanted: &Wanted<'_>,
    place: usize,
    role: &'p ClusterRole,
) -> Result<(), AllocError>
    requires { slice_get policy.now.held.cluster_roles place ≡ Some role.now }
    ensures { OnOk result
        (AddsLines (OfKept wanted.now (IsStaleOf policy.now.held role.now)) found.old found.new) }
{
    if !wanted.keeps_role(SourceRole::ClusterRole(role)) {
        return Ok(());
    }
    if !is_stale(alloc, policy, place, role)? {
        return Ok(());
    }
    let object = role_word(alloc, SourceRole::ClusterRole(role))?;
    found.push(Finding {
        code: 6,
        object,
        place: None,
        other: Word::new(alloc),
    })
}

// Whether the role is aggregated, and has written rules that aren't those that it gathers.
fn is_stale<'p>(
    alloc: Global,
    policy: &'p Policy,
    place: usize,
    role: &'p ClusterRole,
) -> Result<bool, AllocError>
    requires { slice_get policy.now.held.cluster_roles place ≡ Some role.now }
    ensures { IfOk result (λ stale. IsTrue stale ↔ IsStaleRole policy.now.held role.now) }
{
    if role.aggregation.is_none() {
        return Ok(false);
    }
    if !has_rules(role) {
        return Ok(false);
    }
    let gathered = gathered_rules(alloc, policy, place)?;
    let written = written_rules(alloc, role)?;
    let same = has_same_rules(alloc, written.as_slice(), gathered.as_slice())?;
    Ok(!same)
}

fn has_rules(role: &ClusterRole) -> bool
    ensures { IsTrue result ↔ (role.now.rules ≢ []) }
{
    !role.rules.as_slice().is_empty()
}

fn written_rules(alloc: Global, role: &ClusterRole) -> Result<Vec<&Rule>, AllocError>
    ensures { IfOk result (λ v. rules_at v.items ≡ role.now.rules) }
{
    let mut written = Vec::new(alloc);
    push_rules(&mut written, role.rules.as_slice())?;
    Ok(written)
}

// The rules that the cluster role at this place gathers.
fn gathered_rules<'p>(
    alloc: Global,
    policy: &'p Policy,
    place: usize,
) -> Result<Vec<&'p Rule>, AllocError>
    requires { place < length policy.now.held.cluster_roles }
    ensures { IfOk result
        (λ v. (r : ClusterRoleView) → slice_get policy.now.held.cluster_roles place ≡ Some r
        → (rule : RuleView) → Contains (rules_at v.items) rule
        ↔ IsGathered policy.now.held r rule) }
{
    let mut gathered = Vec::new(alloc);
    let roles = policy.objects().cluster_roles();
    for (at, source) in roles.iter().enumerate() {
        push_source(&mut gathered, policy, place, at, source)?;
    }
    Ok(gathered)
}

// Adds the rules of the cluster role at `at`, if the role at `place` gathers them.
fn push_source<'p>(
    gathered: &mut Vec<&'p Rule>,
    policy: &Policy,
    place: usize,
    at: usize,
    source: &'p ClusterRole,
) -> Result<(), AllocError>
    requires place { place < length policy.now.held.cluster_roles }
    requires source { slice_get policy.now.held.cluster_roles at ≡ Some source.now }
    ensures { OnOk result
        (AreGatheredBy policy.now.held place at (rules_at gathered.old.items)
        → AreGatheredBy policy.now.held place (at + 1) (rules_at gathered.new.items)) }
{
    if source.aggregation.is_some() {
        return Ok(());
    }
    if !policy.reaches(place, at) {
        return Ok(());
    }
    push_rules(gathered, source.rules.as_slice())
}

fn push_rules<'p>(gathered: &mut Vec<&'p Rule>, rules: &'p [Rule]) -> Result<(), AllocError>
    ensures { OnOk result (rules_at gathered.new.items ≡ rules_at gathered.old.items ++ rules.now) }
{
    for rule in rules {
        gathered.push(rule)?;
    }
    Ok(())
}
