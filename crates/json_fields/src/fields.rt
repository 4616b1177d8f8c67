//! The fields of a JSON value. A field whose value is null counts as missing.

ghost use Rattle.std.specs.Prelude.{◌≡◌, map, option_map, option_and_then, true, false, IfOk};
ghost use Rattle.std.specs.Prelude.{IfErr};
ghost use Rattle.serde_json.specs.Find.{as_str};
ghost use Rattle.serde_json.specs.View.{view};
ghost use Rattle.json_fields.specs.Fields.{field, is_object, as_list, list_field, texts_field};
ghost use Rattle.json_fields.specs.Fields.{all_texts, text_at, name_at, flag_at};
ghost use Rattle.json_fields.specs.Reads.{Reads};
ghost use Rattle.json_fields.specs.declared.trouble.Trouble.TheVariants.{Shape};

use crate::listed::all_read;
use crate::trouble::Trouble;
use rbac_terms::{Word, Words};
use serde_json::Value;
use std::alloc::{AllocError, Global};

/// The member of an object with this name; `None` if it is null (own), if there is none, or if the
/// value isn't an object. Doesn't allocate.
#[tactic(auto, unfolding(crate::specs::Fields::field))]
pub fn field<'v>(value: &'v Value, name: &str) -> Option<&'v Value>
    ensures { option_map (λ v. view v.now) result ≡ field name.now (view value.now) }
{
    match value.get(name) {
        Some(Value::Null) => None,
        found => found,
    }
}

/// The value itself, if it is an object.
///
/// # Errors
///
/// `Shape` exactly if it is anything else.
pub fn object_in(value: &Value) -> Result<&Value, Trouble>
    ensures object { IfOk result (λ v. (v.now ≡ value.now) × (is_object (view value.now) ≡ true)) }
    ensures other { IfErr result (λ e. (e ≡ Shape) × (is_object (view value.now) ≡ false)) }
{
    if value.is_object() {
        Ok(value)
    } else {
        Err(Trouble::Shape)
    }
}

/// The items of a list; `None` if the value isn't one. Doesn't allocate.
#[tactic(auto, using(crate::proofs::Elements::elements_of_items), unfolding(crate::specs::Fields::as_list))]
pub fn as_list(value: &Value) -> Option<&[Value]>
    ensures { option_map (λ vs. map view vs.now) result ≡ as_list (view value.now) }
{
    Some(value.as_array()?.as_slice())
}

/// The items of the list in a field; a missing field counts as an empty list (own). `None` if the
/// field has anything else. Doesn't allocate.
#[tactic(auto, unfolding(crate::specs::Fields::list_field))]
pub fn list_field<'v>(value: &'v Value, name: &str) -> Option<&'v [Value]>
    ensures { option_map (λ vs. map view vs.now) result ≡ list_field name.now (view value.now) }
{
    match field(value, name) {
        Some(list) => as_list(list),
        None => Some(&[]),
    }
}

// A copy of a value's text, if the value is a text.
fn word_in(alloc: Global, value: &Value) -> Result<Word, Trouble>
    ensures { Reads result (as_str (view value.now)) }
{
    let Some(text) = value.as_str() else {
        return Err(Trouble::Shape);
    };
    Ok(word_of(alloc, text)?)
}

// The texts of these values, if all of them are texts.
#[tactic(auto, using(crate::proofs::Texts::all_texts_at))]
fn words_of(alloc: Global, values: &[Value]) -> Result<Words, Trouble>
    ensures { Reads result (all_texts (map view values.now)) }
{
    let words = all_read(alloc, values, word_in)?;
    Ok(Words::from_vec(words))
}

/// Copies of the texts in a list of texts.
///
/// # Errors
///
/// `Shape` only if the value isn't a list of texts; `Memory` only if it runs out of memory.
pub fn words_in(alloc: Global, list: &Value) -> Result<Words, Trouble>
    ensures { Reads result (option_and_then all_texts (as_list (view list.now))) }
{
    let Some(values) = as_list(list) else {
        return Err(Trouble::Shape);
    };
    words_of(alloc, values)
}

/// Copies of the texts in a field that is a list of texts; a missing field counts as an empty list
/// (own).
///
/// # Errors
///
/// `Shape` only if the field has anything else; `Memory` only if it runs out of memory.
#[tactic(auto, unfolding(crate::specs::Fields::texts_field))]
pub fn words_field(alloc: Global, value: &Value, name: &str) -> Result<Words, Trouble>
    ensures { Reads result (texts_field name.now (view value.now)) }
{
    let Some(values) = list_field(value, name) else {
        return Err(Trouble::Shape);
    };
    words_of(alloc, values)
}

/// The text in a field; a missing field counts as an empty text (own). `None` if the field has
/// anything else. Doesn't allocate.
#[tactic(auto, unfolding(crate::specs::Fields::text_at))]
pub fn text_field<'v>(value: &'v Value, name: &str) -> Option<&'v str>
    ensures { option_map (λ s. s.now) result ≡ text_at name.now (view value.now) }
{
    match field(value, name) {
        Some(text) => text.as_str(),
        None => Some(""),
    }
}

/// The field `name`, if it is a text that isn't empty, as each object of Kubernetes has one (Object
/// Names and IDs); otherwise `None`. Doesn't allocate.
#[tactic(auto, unfolding(crate::specs::Fields::name_at))]
pub fn name_of(value: &Value) -> Option<&str>
    ensures { option_map (λ s. s.now) result ≡ name_at (view value.now) }
{
    match text_field(value, "name") {
        Some(name) if !name.is_empty() => Some(name),
        _ => None,
    }
}

/// A copy of a text, byte for byte. Fails only if it runs out of memory.
pub fn word_of(alloc: Global, text: &str) -> Result<Word, AllocError>
    ensures { IfOk result (λ w. w ≡ text.now) }
{
    Word::from_slice(alloc, text.as_bytes())
}

/// The boolean in a field, or `missing` if the field is missing (own). `None` if the field has
/// anything else. Doesn't allocate.
#[tactic(auto, unfolding(crate::specs::Fields::flag_at))]
pub fn flag_field(value: &Value, name: &str, missing: bool) -> Option<bool>
    ensures { result ≡ flag_at missing name.now (view value.now) }
{
    match field(value, name) {
        Some(flag) => flag.as_bool(),
        None => Some(missing),
    }
}

/// A copy of the text in a field; a missing field counts as an empty text (own).
///
/// # Errors
///
/// `Shape` only if the field has anything else; `Memory` only if it runs out of memory.
pub fn word_field(alloc: Global, value: &Value, name: &str) -> Result<Word, Trouble>
    ensures { Reads result (text_at name.now (view value.now)) }
{
    let Some(text) = text_field(value, name) else {
        return Err(Trouble::Shape);
    };
    Ok(word_of(alloc, text)?)
}
