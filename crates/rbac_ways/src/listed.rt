//! What lists have at some places.

ghost use Rattle.std.specs.Prelude.{◌↔◌, Contains, IfOk};
ghost use Rattle.rbac_ways.specs.Joining.{IsListedIn};

use rbac_terms::Items;
use std::alloc::{AllocError, Global};

/// What the lists at these places have, in any order; one may be there more than once. A place past
/// the last list has nothing (own). Fails only if it runs out of memory.
pub fn listed_in<T: Copy>(
    alloc: Global,
    lists: &[Items<T>],
    places: &[usize],
) -> Result<Vec<T>, AllocError>
    ensures { IfOk result (λ all. (x : T) → Contains all.items x ↔ IsListedIn lists.now places.now x) }
{
    let mut all = Vec::new(alloc);
    for place in places {
        if let Some(listed) = lists.get(*place) {
            all.extend_from_slice(listed.as_slice())?;
        }
    }
    Ok(all)
}
