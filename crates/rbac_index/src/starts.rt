//! Where the runs of grants by the rules of each row begin. A binding's grants by the rules of a
//! role have consecutive numbers, in order of the rules, so the first number determines them all.

ghost use Rattle.std.specs.Prelude.{◌≡◌, ◌<◌, ◌^◌, [], IfOk, length, map, replicate};
ghost use Rattle.rbac_index.specs.Written.{written_rules};
ghost use Rattle.rbac_index.specs.Indexed.{AreStarts};

use crate::numbers::GrantNos;
use crate::rule_rows::row_at;
use rbac_model::Policy;
use rbac_terms::Rules;
use std::alloc::{AllocError, Global};

// The numbers at which the runs of grants by each of these rows begin; the rows are those of the
// policy's roles.
pub(crate) fn starts_by_row(
    alloc: Global,
    policy: &Policy,
    rows: &[&Rules],
) -> Result<Vec<GrantNos>, AllocError>
    requires { map (λ r. r.now) rows.now ≡ written_rules policy.now.held }
    ensures starts { IfOk result
        (λ v. AreStarts policy.now (written_rules policy.now.held)
        (length policy.now.grants) v.items) }
    ensures few { IfOk result (λ _. length policy.now.grants < 2 ^ 32) }
{
    let roles = policy.objects().roles().len();
    let mut starts = no_starts(alloc, rows.len())?;
    let mut no = 0;
    while no < policy.len() {
        let row = row_at(roles, policy.place(no).role);
        starts[row].push(no)?;
        no += rows[row].as_slice().len() as u32;
    }
    Ok(starts)
}

// This many empty lists.
fn no_starts(alloc: Global, count: usize) -> Result<Vec<GrantNos>, AllocError>
    ensures { IfOk result (λ v. v.items ≡ replicate count []) }
{
    let mut starts = Vec::with_capacity(alloc, count)?;
    for _ in 0..count {
        starts.push(GrantNos::new(alloc))?;
    }
    Ok(starts)
}
