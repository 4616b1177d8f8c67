//! Fields of a line.

ghost use Rattle.std.specs.Prelude.{◌≡◌, ◌<◌, ◌++◌, ◌∷◌, [], OnOk, IsTrue, ◌↔◌, All};
ghost use Rattle.std.specs.List.{flat_map};
ghost use Rattle.rbac_text.specs.Field.{hex_digit, is_control, code_text, byte_text, field_text};

use std::alloc::AllocError;

/// Adds a field to a line (own): the empty text as `-`, the text `-` as `\x2d`, and any other text
/// with backslashes doubled, and bytes below 32 and byte 127 as `\x` and two lower-case hexadecimal
/// digits. If it runs out of memory, a prefix of the field may have been added.
pub fn put_field(line: &mut Vec<u8>, field: &[u8]) -> Result<(), AllocError>
    ensures { OnOk result (line.new.items ≡ line.old.items ++ field_text field.now) }
{
    match field {
        [] => line.extend_from_slice(b"-"),
        [b'-'] => put_code(line, b'-'),
        _ => put_text(line, field),
    }
}

// Adds a text byte by byte, as it is printed in a field of two bytes or more.
pub(crate) fn put_text(line: &mut Vec<u8>, text: &[u8]) -> Result<(), AllocError>
    ensures { OnOk result (line.new.items ≡ line.old.items ++ flat_map byte_text text.now) }
{
    // Nearly every text is printed as it is.
    if is_plain_text(text) {
        return line.extend_from_slice(text);
    }
    for byte in text {
        put_byte(line, *byte)?;
    }
    Ok(())
}

fn is_plain_text(text: &[u8]) -> bool
    ensures { IsTrue result ↔ All (λ b. byte_text b ≡ b ∷ []) text.now }
{
    text.iter().all(|byte| is_plain(*byte))
}

// Whether the byte is printed as it is.
fn is_plain(byte: u8) -> bool
    ensures { IsTrue result ↔ (byte_text byte ≡ byte ∷ []) }
{
    byte != b'\\' && !is_control(byte)
}

fn is_control(byte: u8) -> bool
    ensures { result ≡ is_control byte }
{
    byte < 32 || byte == 127
}

pub(crate) fn put_byte(line: &mut Vec<u8>, byte: u8) -> Result<(), AllocError>
    ensures { OnOk result (line.new.items ≡ line.old.items ++ byte_text byte) }
{
    if byte == b'\\' {
        return line.extend_from_slice(b"\\\\");
    }
    if is_control(byte) {
        return put_code(line, byte);
    }
    line.push(byte)?;
    Ok(())
}

// Adds a byte by its code.
pub(crate) fn put_code(line: &mut Vec<u8>, byte: u8) -> Result<(), AllocError>
    ensures { OnOk result (line.new.items ≡ line.old.items ++ code_text byte) }
{
    let code = [b'\\', b'x', hex_digit(byte / 16), hex_digit(byte % 16)];
    line.extend_from_slice(&code)
}

fn hex_digit(digit: u8) -> u8
    requires { digit < 16 }
    ensures { result ≡ hex_digit digit }
{
    if digit < 10 {
        b'0' + digit
    } else {
        b'a' - 10 + digit
    }
}
