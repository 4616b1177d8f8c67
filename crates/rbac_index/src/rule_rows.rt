//! The rules that are written in roles, each at one place.

ghost use Rattle.std.specs.Prelude.{◌≡◌, ◌<◌, ◌^◌, ℕ, ◌++◌, ◌⊎◌, ◌↔◌, IfOk, OnOk, map, slice_get};
ghost use Rattle.std.specs.Prelude.{Some};
ghost use Rattle.rbac_terms.specs.declared.matching.Rule.{Rule as RuleView};
ghost use Rattle.rbac_index.specs.Written.{written_rules, AreWritten, HasWritten, row_of};

use rbac_model::{Objects, RolePlace};
use rbac_terms::{Rule, Rules};
use std::alloc::{AllocError, Global};

// The rules of each role, then of each cluster role.
pub(crate) fn rows_of<'p>(alloc: Global, objects: &'p Objects) -> Result<Vec<&'p Rules>, AllocError>
    ensures { IfOk result (λ v. map (λ r. r.now) v.items ≡ written_rules objects.now) }
{
    let mut rows = Vec::new(alloc);
    for role in objects.roles() {
        rows.push(&role.rules)?;
    }
    push_cluster_roles(objects, &mut rows)?;
    Ok(rows)
}

// Adds the rules of each cluster role.
fn push_cluster_roles<'p>(objects: &'p Objects, rows: &mut Vec<&'p Rules>) -> Result<(), AllocError>
    ensures { OnOk result
        (map (λ r. r.now) rows.new.items
        ≡ map (λ r. r.now) rows.old.items ++ map (λ r. r.rules) objects.now.cluster_roles) }
{
    for role in objects.cluster_roles() {
        rows.push(&role.rules)?;
    }
    Ok(())
}

// The row of a role's rules, given how many roles there are.
pub(crate) fn row_at(roles: usize, role: RolePlace) -> usize
    requires { row_of roles role < 2 ^ 64 }
    ensures { result ≡ row_of roles role }
{
    match role {
        RolePlace::RoleAt(at) => at,
        RolePlace::ClusterRoleAt(at) => roles + at,
    }
}

// A rule, the row where it is written, and its place there.
#[derive(Clone, Copy)]
pub(crate) struct Written<'p> {
    pub(crate) rule: &'p Rule,
    pub(crate) row: usize,
    pub(crate) place: usize,
}

// The rules of these rows, one row after the other.
pub(crate) fn laid_out<'p>(
    alloc: Global,
    rows: &[&'p Rules],
) -> Result<Vec<Written<'p>>, AllocError>
    ensures { IfOk result (λ v. AreWritten (map (λ r. r.now) rows.now) v.items) }
{
    let mut rules = Vec::new(alloc);
    for (row, of_row) in rows.iter().enumerate() {
        push_row(row, of_row, &mut rules)?;
    }
    Ok(rules)
}

// Adds the rules of a row.
fn push_row<'p>(
    row: usize,
    of_row: &'p Rules,
    rules: &mut Vec<Written<'p>>,
) -> Result<(), AllocError>
    ensures { OnOk result
        ((at k : ℕ) (r : RuleView) → HasWritten rules.new.items at k r
        ↔ (HasWritten rules.old.items at k r ⊎ ((at ≡ row) × (slice_get of_row.now k ≡ Some r)))) }
{
    for (place, rule) in of_row.as_slice().iter().enumerate() {
        rules.push(Written { rule, row, place })?;
    }
    Ok(())
}
