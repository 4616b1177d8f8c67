//! Texts as JSON strings.

ghost use Rattle.std.specs.Prelude.{◌≡◌, ◌++◌, ◌<◌, OnOk};
ghost use Rattle.std.specs.Char.{digit_char};
ghost use Rattle.json.specs.Print.{escape, escape_letter, escape_byte, quoted};

use std::alloc::AllocError;

// Adds a text in quotes, with the escapes that JSON asks for.
pub(crate) fn put_quoted(document: &mut Vec<u8>, text: &[u8]) -> Result<(), AllocError>
    ensures { OnOk result (document.new.items ≡ document.old.items ++ quoted text.now) }
{
    document.push(b'"')?;
    put_escaped(document, text)?;
    document.push(b'"')?;
    Ok(())
}

fn put_escaped(document: &mut Vec<u8>, text: &[u8]) -> Result<(), AllocError>
    ensures { OnOk result (document.new.items ≡ document.old.items ++ escape text.now) }
{
    for byte in text {
        put_byte(document, *byte)?;
    }
    Ok(())
}

fn put_byte(document: &mut Vec<u8>, byte: u8) -> Result<(), AllocError>
    ensures { OnOk result (document.new.items ≡ document.old.items ++ escape_byte byte) }
{
    let letter = escape_letter(byte);
    if letter > 0 {
        return document.extend_from_slice(&[b'\\', letter]);
    }
    if byte < 32 {
        let code = [
            b'\\',
            b'u',
            b'0',
            b'0',
            hex_digit(byte / 16),
            hex_digit(byte % 16),
        ];
        return document.extend_from_slice(&code);
    }
    document.push(byte)?;
    Ok(())
}

// The letter that escapes the byte after a backslash; 0 if it has none.
fn escape_letter(byte: u8) -> u8
    ensures { result ≡ escape_letter byte }
{
    match byte {
        b'"' | b'\\' => byte,
        8 => b'b',
        12 => b'f',
        b'\n' => b'n',
        b'\r' => b'r',
        b'\t' => b't',
        _ => 0,
    }
}

fn hex_digit(digit: u8) -> u8
    requires { digit < 16 }
    ensures { result ≡ digit_char digit }
{
    if digit < 10 {
        b'0' + digit
    } else {
        b'a' + (digit - 10)
    }
}
