//! Near grants of the bindings that name who asks.

ghost use Rattle.std.specs.Prelude.{◌<◌, ◌↔◌, ◌⊎◌, Contains, IfOk, OnOk, length};
ghost use Rattle.rbac_model.specs.Policies.{IsPolicy};
ghost use Rattle.rbac_near.specs.Named.{AreNamedUpTo, IsNamedOf};
ghost use Rattle.rbac_near.specs.Near.{request_of};
ghost use Rattle.rbac_near.specs.declared.near.Near.{Near};

use crate::lacking::missing_in;
use crate::near::{Near, Request};
use rbac_model::{Policy, naming_place};
use std::alloc::{AllocError, Global};

// The near grants of all bindings that name who asks.
pub(crate) fn named_of(
    alloc: Global,
    policy: &Policy,
    request: Request<'_>,
) -> Result<Vec<Near>, AllocError>
    ensures named { IfOk result (λ found. AreNamedUpTo policy.now (request_of request.entry)
        (length policy.now.held.bindings) found.items) }
    ensures policy { IsPolicy policy.now }
{
    let mut found = Vec::new(alloc);
    let places = policy.bindings().len();
    for place in 0..places {
        add_of_binding(policy, request, place, &mut found)?;
    }
    Ok(found)
}

// Adds the near grants of the binding at this place, if it names who asks.
fn add_of_binding(
    policy: &Policy,
    request: Request<'_>,
    place: usize,
    found: &mut Vec<Near>,
) -> Result<(), AllocError>
    requires { place < length policy.now.held.bindings }
    ensures { OnOk result ((x : Near) → Contains found.new.items x
        ↔ (Contains found.old.items x ⊎ IsNamedOf policy.now (request_of request.entry) place x)) }
{
    let binding = &policy.bindings()[place];
    let Some(subject_place) = naming_place(binding, request.who) else {
        return Ok(());
    };
    let (from, end) = policy.grants_of(place);
    for number in from..end {
        if let Some(missing) = missing_in(request, policy.grant(number)) {
            found.push(Near {
                missing,
                number,
                subject_place,
            })?;
        }
    }
    Ok(())
}
