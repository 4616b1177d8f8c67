//! One value of a text.

ghost use Rattle.std.specs.Prelude.{◌≡◌, ◌≢◌, ◌<◌, [], ◌∷◌, length, option_map, Some, None, Err};
ghost use Rattle.std.specs.Prelude.{IfOk, OnOk};
ghost use Rattle.json.specs.Print.{IsNumber};
ghost use Rattle.json.specs.Token.{begin_array, begin_object};
ghost use Rattle.serde_json.specs.Data.{Data, number, string, put};
ghost use Rattle.serde_json.specs.Read.{number_of as number_in};
ghost use Rattle.serde_json.specs.View.{view, members_view};
ghost use Rattle.json_list.specs.Lean.{lean};
ghost use Rattle.json_list.specs.List.{IsRead, IsUnread};
ghost use Rattle.json_list.specs.Places.{IsPutIn};
ghost use Rattle.json_list.specs.Values.{value_read};
ghost use Rattle.json_list.specs.declared.fault.ReadFault.TheVariants.{Refused};

use crate::fault::ReadFault;
use crate::kept::{Kept, Whole};
use crate::one_pass::MEMBER_DEPTH;
use crate::pass::pass_value;
use json::{Reader, Token};
use serde_json::{Map, Value};
use std::alloc::Global;

// What is kept of the next value. Arrays and objects may nest `depth` deep.
pub(crate) fn read_kept<K: Kept>(
    alloc: Global,
    reader: &mut Reader<'_>,
    depth: usize,
    kept: K,
) -> Result<Value, ReadFault>
    ensures read { IfOk result (λ v. (d : Data) × IsRead depth reader.old d reader.new
        × (view v ≡ lean K.under kept d)) }
    ensures shorter { OnOk result (length reader.new < length reader.old) }
    ensures refused { result ≡ Err Refused → IsUnread depth reader.old }
    ensures none { reader.old ≡ [] → result ≡ Err Refused }
{
    value_from(alloc, reader, depth, kept)
}

// A number, from its text.
#[tactic(auto, using(crate::proofs::Numbers::read_number))]
pub(crate) fn number_of(alloc: Global, text: &str) -> Result<Value, ReadFault>
    requires { IsNumber text.now }
    ensures read { IfOk result (λ v. option_map number (number_in text.now) ≡ Some (view v)) }
    ensures refused { result ≡ Err Refused → option_map number (number_in text.now) ≡ None }
{
    match Value::from_str(alloc, text) {
        Ok(value) => Ok(value),
        Err(error) if error.is_memory() => Err(ReadFault::NoMemory),
        Err(_) => Err(ReadFault::Refused),
    }
}

// A string, from its text.
fn string_of(alloc: Global, text: &str) -> Result<Value, ReadFault>
    ensures read { IfOk result (λ v. view v ≡ string text.now) }
    ensures memory { result ≢ Err Refused }
{
    Ok(Value::String(String::from_str(alloc, text)?))
}

// Puts a member of this name into an object. The member's value comes next.
pub(crate) fn read_member(
    alloc: Global,
    reader: &mut Reader<'_>,
    name: &str,
    members: &mut Map<String, Value>,
) -> Result<(), ReadFault>
    ensures read { IfOk result (λ _. (d : Data) × IsRead 126 reader.old d reader.new
        × (members_view members.new.entries
        ≡ put name.now d (members_view members.old.entries))) }
    ensures shorter { OnOk result (length reader.new < length reader.old) }
    ensures refused { result ≡ Err Refused → IsUnread 126 reader.old }
{
    member_from(alloc, reader, MEMBER_DEPTH, Whole, name, members)
}

// What is kept of a value, from its first token on.
#[cycle(value_from)]
fn value_from<K: Kept>(
    alloc: Global,
    reader: &mut Reader<'_>,
    depth: usize,
    kept: K,
) -> Result<Value, ReadFault>
    ensures read { IfOk result
        (λ v. (d : Data) × (value_read depth reader.old ≡ Some (d, reader.new))
        × (view v ≡ lean K.under kept d)) }
    ensures refused { result ≡ Err Refused → value_read depth reader.old ≡ None }
    ensures none { reader.old ≡ [] → result ≡ Err Refused }
{
    let Some(token) = reader.next() else {
        return Err(ReadFault::Refused);
    };
    match token {
        Token::Null => Ok(Value::Null),
        Token::Bool(boolean) => Ok(Value::Bool(boolean)),
        Token::Number(text) => number_of(alloc, text),
        Token::String(text) => string_of(alloc, text),
        Token::BeginArray => items_from(alloc, reader, depth, kept),
        Token::BeginObject => members_from(alloc, reader, depth, kept),
        _ => Err(ReadFault::Refused),
    }
}

// What is kept of an array, after the bracket that opens it.
#[cycle(value_from)]
fn items_from<K: Kept>(
    alloc: Global,
    reader: &mut Reader<'_>,
    depth: usize,
    kept: K,
) -> Result<Value, ReadFault>
    ensures read { IfOk result (λ v. (d : Data)
        × (value_read depth (begin_array ∷ reader.old) ≡ Some (d, reader.new))
        × (view v ≡ lean K.under kept d)) }
    ensures refused { result ≡ Err Refused → value_read depth (begin_array ∷ reader.old) ≡ None }
{
    if depth == 0 {
        return Err(ReadFault::Refused);
    }
    let mut found = Vec::new(alloc);
    'items: while !reader.take_end_array() {
        let item = value_from(alloc, reader, depth - 1, kept)?;
        found.push(item)?;
    }
    Ok(Value::Array(found))
}

// What is kept of an object, after the brace that opens it. The last of the members with the same
// name counts.
#[cycle(value_from)]
fn members_from<K: Kept>(
    alloc: Global,
    reader: &mut Reader<'_>,
    depth: usize,
    kept: K,
) -> Result<Value, ReadFault>
    ensures read { IfOk result (λ v. (d : Data)
        × (value_read depth (begin_object ∷ reader.old) ≡ Some (d, reader.new))
        × (view v ≡ lean K.under kept d)) }
    ensures refused { result ≡ Err Refused → value_read depth (begin_object ∷ reader.old) ≡ None }
{
    if depth == 0 {
        return Err(ReadFault::Refused);
    }
    let mut found = Map::new(alloc);
    'members: while let Some(name) = reader.next_key()? {
        member_from(alloc, reader, depth - 1, kept, name, &mut found)?;
    }
    Ok(Value::Object(found))
}

// Adds what is kept of a member to the members found of its object. The member's value comes next.
#[cycle(value_from)]
fn member_from<K: Kept>(
    alloc: Global,
    reader: &mut Reader<'_>,
    depth: usize,
    kept: K,
    name: &str,
    found: &mut Map<String, Value>,
) -> Result<(), ReadFault>
    ensures read { IfOk result (λ _. (d : Data)
        × (value_read depth reader.old ≡ Some (d, reader.new))
        × IsPutIn K.under kept name.now d (members_view found.old.entries)
        (members_view found.new.entries)) }
    ensures refused { result ≡ Err Refused → value_read depth reader.old ≡ None }
{
    let Some(inner) = kept.under(name) else {
        return pass_value(alloc, reader, depth);
    };
    let key = String::from_str(alloc, name)?;
    let value = value_from(alloc, reader, depth, inner)?;
    drop(found.insert(key, value)?);
    Ok(())
}
