//! Lines of lint findings.

ghost use Rattle.std.specs.Prelude.{◌≡◌, ◌++◌, ◌∷◌, [], codes, decimal, OnOk};
ghost use Rattle.rbac_text.specs.Row.{tab, newline};
ghost use Rattle.rbac_text.specs.Row.{field_and_tab};
ghost use Rattle.rbac_text.specs.Field.{field_text};
ghost use Rattle.rbac_text.specs.Finding.{finding_word, place_field, finding_text};

use crate::field::put_field;
use crate::row::put_field_and_tab;
use crate::why::put_place;
use itoa::Buffer;
use rbac_terms::Word;
use std::alloc::AllocError;

/// Adds the line of a finding (own): its code, the word for the code, the object, the place, and
/// the last field `other`, joined by tabs, with a newline at the end. `place` counts from 0 and is
/// printed as counted from 1; without a place, the field is empty. If it runs out of memory, a
/// prefix of the line may have been added.
pub fn put_finding(
    line: &mut Vec<u8>,
    code: u8,
    object: &Word,
    place: Option<usize>,
    other: &Word,
) -> Result<(), AllocError>
    ensures { OnOk result
        (line.new.items ≡ line.old.items ++ finding_text code object.now place other.now) }
{
    put_code(line, code)?;
    put_field_and_tab(line, object.as_bytes())?;
    put_place_if_any(line, place)?;
    put_rest(line, other)
}

// Adds the code of a finding and the word for the code, each with a tab after it.
fn put_code(line: &mut Vec<u8>, code: u8) -> Result<(), AllocError>
    ensures { OnOk result
        (line.new.items
        ≡ line.old.items ++ codes "L" ++ decimal code ++ tab ∷ field_and_tab (finding_word code)) }
{
    let mut buffer = Buffer::new();
    line.push(b'L')?;
    line.extend_from_slice(buffer.format(code).as_bytes())?;
    line.push(b'\t')?;
    put_field_and_tab(line, word_of(code))
}

#[tactic(auto, unfolding(crate::specs::Finding::finding_word))]
fn word_of(code: u8) -> &'static [u8]
    ensures { result.now ≡ finding_word code }
{
    match code {
        1 => b"dangling-role",
        2 => b"unused-role",
        3 => b"redundant-rule",
        4 => b"escalation",
        5 => b"account-without-namespace",
        6 => b"stale-aggregate",
        7 => b"replaced-object",
        _ => b"",
    }
}

// Adds a place, or the empty field if there is none.
fn put_place_if_any(line: &mut Vec<u8>, place: Option<usize>) -> Result<(), AllocError>
    ensures { OnOk result (line.new.items ≡ line.old.items ++ place_field place) }
{
    match place {
        Some(place) => put_place(line, place),
        None => put_field(line, &[]),
    }
}

// Adds a tab, the last field and a newline.
fn put_rest(line: &mut Vec<u8>, other: &Word) -> Result<(), AllocError>
    ensures { OnOk result
        (line.new.items ≡ line.old.items ++ tab ∷ field_text other.now ++ newline ∷ []) }
{
    line.push(b'\t')?;
    put_field(line, other.as_bytes())?;
    line.push(b'\n')?;
    Ok(())
}
