//! Passing over a value, which is checked as `serde_json` checks it.

ghost use Rattle.std.specs.Prelude.{◌≡◌, ◌∷◌, option_map, Some, None, Err, IfOk};
ghost use Rattle.json.specs.Print.{IsNumber};
ghost use Rattle.json.specs.Token.{begin_array, begin_object};
ghost use Rattle.serde_json.specs.Data.{Data, number};
ghost use Rattle.serde_json.specs.Read.{number_of as number_in};
ghost use Rattle.json_list.specs.Values.{value_read};
ghost use Rattle.json_list.specs.declared.fault.ReadFault.TheVariants.{Refused};

use crate::fault::ReadFault;
use crate::value::number_of;
use json::{Reader, Token};
use std::alloc::Global;

// Passes over the next value. Arrays and objects may nest `depth` deep.
#[cycle(pass_value)]
pub(crate) fn pass_value(
    alloc: Global,
    reader: &mut Reader<'_>,
    depth: usize,
) -> Result<(), ReadFault>
    ensures read { IfOk result
        (λ _. (d : Data) × (value_read depth reader.old ≡ Some (d, reader.new))) }
    ensures refused { result ≡ Err Refused → value_read depth reader.old ≡ None }
{
    let Some(token) = reader.next() else {
        return Err(ReadFault::Refused);
    };
    match token {
        Token::Null | Token::Bool(_) | Token::String(_) => Ok(()),
        Token::Number(text) => pass_number(alloc, text),
        Token::BeginArray => pass_items(alloc, reader, depth),
        Token::BeginObject => pass_members(alloc, reader, depth),
        _ => Err(ReadFault::Refused),
    }
}

// Passes over a number, from its text.
fn pass_number(alloc: Global, text: &str) -> Result<(), ReadFault>
    requires { IsNumber text.now }
    ensures read { IfOk result
        (λ _. (d : Data) × (option_map number (number_in text.now) ≡ Some d)) }
    ensures refused { result ≡ Err Refused → option_map number (number_in text.now) ≡ None }
{
    drop(number_of(alloc, text)?);
    Ok(())
}

// Passes over the items of an array, after the bracket that opens it.
#[cycle(pass_value)]
fn pass_items(alloc: Global, reader: &mut Reader<'_>, depth: usize) -> Result<(), ReadFault>
    ensures read { IfOk result (λ _. (d : Data)
        × (value_read depth (begin_array ∷ reader.old) ≡ Some (d, reader.new))) }
    ensures refused { result ≡ Err Refused → value_read depth (begin_array ∷ reader.old) ≡ None }
{
    if depth == 0 {
        return Err(ReadFault::Refused);
    }
    'items: while !reader.take_end_array() {
        pass_value(alloc, reader, depth - 1)?;
    }
    Ok(())
}

// Passes over the members of an object, after the brace that opens it.
#[cycle(pass_value)]
fn pass_members(alloc: Global, reader: &mut Reader<'_>, depth: usize) -> Result<(), ReadFault>
    ensures read { IfOk result (λ _. (d : Data)
        × (value_read depth (begin_object ∷ reader.old) ≡ Some (d, reader.new))) }
    ensures refused { result ≡ Err Refused → value_read depth (begin_object ∷ reader.old) ≡ None }
{
    if depth == 0 {
        return Err(ReadFault::Refused);
    }
    'members: while let Some(_) = reader.next_key()? {
        pass_value(alloc, reader, depth - 1)?;
    }
    Ok(())
}
