//! A text that is read as a whole.

ghost use Rattle.std.specs.Prelude.{◌≡◌, option_map, Some, None, Err, IfOk};
ghost use Rattle.serde_json.specs.Read.{read};
ghost use Rattle.serde_json.specs.View.{view};
ghost use Rattle.json_list.specs.Lean.{lean};
ghost use Rattle.json_list.specs.declared.fault.ReadFault.TheVariants.{Refused};

use crate::fault::ReadFault;
use crate::kept::Kept;
use crate::value::read_kept;
use json::{Reader, Scratch};
use serde_json::Value;
use std::alloc::Global;

// `serde_json` reads this many levels.
const DEPTH: usize = 127;

/// What is kept of the value that a text is (own). `scratch` holds texts with escapes; it grows to
/// the length of the text, and may be lent again.
///
/// # Errors
///
/// `Refused` only if `serde_json` doesn't read the text either; otherwise `NoMemory`.
pub fn read_text<K: Kept>(
    alloc: Global,
    text: &str,
    scratch: &mut Scratch,
    kept: K,
) -> Result<Value, ReadFault>
    ensures read { IfOk result
        (λ v. option_map (lean K.under kept) (read text.now) ≡ Some (view v)) }
    ensures refused { result ≡ Err Refused → read text.now ≡ None }
{
    let mut reader = Reader::new(text, scratch)?;
    let value = read_kept(alloc, &mut reader, DEPTH, kept)?;
    if reader.next().is_some() {
        return Err(ReadFault::Refused);
    }
    Ok(value)
}
