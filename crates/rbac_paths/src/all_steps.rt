//! The powers of all steps.

ghost use Rattle.std.specs.Prelude.{◌≡◌, ◌++◌, List, IfOk, OnOk};
ghost use Rattle.rbac_model.specs.Policies.{IsPolicy};
ghost use Rattle.rbac_paths.specs.Finding.{AreWithGrants};
ghost use Rattle.rbac_paths.specs.Powers.{ArePowers, ArePowersOf, PowerView};
ghost use Rattle.rbac_paths.specs.Telling.{TellAll};

use crate::finding::found_of;
use crate::power::{Power, Powers};
use rbac_model::Policy;
use rbac_steps::Step;
use std::alloc::{AllocError, Global};

/// All powers that a policy gives, in order of the table of steps, and then of who and where, byte
/// by byte as printed (own). There is one for each step, each key of a subject, and each place (a
/// namespace or the whole cluster) where a grant gives the step to the key. It has the first such
/// grant, and the first subject of the grant's binding with the key. So a principal is allowed a
/// request of a step in a namespace, or in the whole cluster, exactly if some power of the step
/// holds there whose key is the principal's or that of one of its groups. Fails only if it runs out
/// of memory.
pub fn powers<'p>(alloc: Global, policy: &'p Policy) -> Result<Powers<'p>, AllocError>
    ensures powers { IfOk result (λ xs. ArePowers policy.now xs) }
    ensures tell { IfOk result (λ xs. TellAll policy.now xs) }
{
    let mut all = Vec::new(alloc);
    for step in &Step::ALL {
        add_step(alloc, policy, *step, &mut all)?;
    }
    Ok(Powers::of(all))
}

// Adds the powers of a step, in order of who and where.
fn add_step<'p>(
    alloc: Global,
    policy: &'p Policy,
    step: Step,
    all: &mut Vec<Power<'p>>,
) -> Result<(), AllocError>
    ensures added { OnOk result ((own : List PowerView) × ArePowersOf policy.now step own
        × AreWithGrants policy.now step own × (all.new.items ≡ all.old.items ++ own)) }
    ensures policy { OnOk result (IsPolicy policy.now) }
{
    let found = found_of(alloc, policy, step)?;
    for (_, power) in found {
        all.push(power)?;
    }
    Ok(())
}
