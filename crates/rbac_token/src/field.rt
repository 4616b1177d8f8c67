//! Reads printed fields back.

ghost use Rattle.std.specs.Prelude.{◌≡◌, ◌<◌, ◌++◌, ℕ, [], length, IfOk, IfSome, IfNone, IsSomeAnd};
ghost use Rattle.rbac_terms.specs.Text.{Text};
ghost use Rattle.rbac_text.specs.Field.{hex_digit, code_text, byte_text, field_text};

use rbac_terms::Word;
use std::alloc::{AllocError, Global};

// The text that is printed as this field. If there is no such text, the result may be any text: the
// caller prints it again to find that out.
pub(crate) fn read_field(alloc: Global, field: &[u8]) -> Result<Word, AllocError>
    ensures { (text : Text) → field.now ≡ field_text text → IfOk result (λ read. read ≡ text) }
{
    let mut text = Word::new(alloc);
    if field == b"-".as_slice() {
        return Ok(text);
    }
    let mut rest = field;
    while let Some((byte, after)) = next_byte(rest) {
        text.push(byte)?;
        rest = after;
    }
    Ok(text)
}

// The first byte of the field's text, and the rest of the field.
fn next_byte(field: &[u8]) -> Option<(u8, &[u8])>
    ensures stands { (byte : ℕ) (rest : Text) → field.now ≡ byte_text byte ++ rest
        → IsSomeAnd result (λ found. (found.0 ≡ byte) × (found.1.now ≡ rest)) }
    ensures coded { (byte : ℕ) (rest : Text) → byte < 256 → field.now ≡ code_text byte ++ rest
        → IsSomeAnd result (λ found. (found.0 ≡ byte) × (found.1.now ≡ rest)) }
    ensures onward { IfSome result (λ found. length found.1.now < length field.now) }
    ensures ended { IfNone result (field.now ≡ []) }
{
    match field {
        [] => None,
        [b'\\', b'x', high, low, rest @ ..] => {
            Some((hex_value(*high) * 16 + hex_value(*low), rest))
        }
        [b'\\', byte, rest @ ..] | [byte, rest @ ..] => Some((*byte, rest)),
    }
}

// The value of a hexadecimal digit.
fn hex_value(digit: u8) -> u8
    ensures value { (number : ℕ) → number < 16 → digit ≡ hex_digit number → result ≡ number }
    ensures small { result < 16 }
{
    match digit {
        b'0'..=b'9' => digit - b'0',
        b'a'..=b'f' => digit - b'a' + 10,
        _ => 0,
    }
}
