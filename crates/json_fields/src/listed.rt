//! The items of a JSON list, all read by one reader.

ghost use Rattle.std.specs.Prelude.{map, Option};
ghost use Rattle.serde_json.specs.Data.{Data};
ghost use Rattle.serde_json.specs.View.{view};
ghost use Rattle.json_fields.specs.Reads.{Reads};
ghost use Rattle.json_fields.specs.Lists.{ReadsAll};

use crate::trouble::{ItemFault, Trouble};
use serde_json::Value;
use std::alloc::Global;

/// What all items of a list give, in order, each read by `read` (own).
///
/// # Errors
///
/// `Bad` with the place of the first item for which `read` answers `Shape`, counted from 0;
/// `WithoutMemory` only if it runs out of memory.
#[tactic(auto, unfolding(crate::specs::Lists::bad_place, crate::specs::Lists::given_by))]
pub fn all_read<T: Drop, F: Fn(Global, &Value) -> Result<T, Trouble>>(
    alloc: Global,
    values: &[Value],
    read: F,
) -> Result<Vec<T>, ItemFault>
    ghost at: { Data → Option T }
    requires callable { F.IsAlwaysCallable read }
    requires reads { (heap : _) (value : _) (found : _) → F.post read heap value found
        → Reads found (at (view value.now)) }
    ensures { ReadsAll result at (map view values.now) }
{
    let mut items = Vec::new(alloc);
    for (place, value) in values.iter().enumerate() {
        match read(alloc, value) {
            Ok(item) => items.push(item)?,
            Err(trouble) => return Err(trouble.at(place)),
        }
    }
    Ok(items)
}
