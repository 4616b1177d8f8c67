//! A list read in one pass: the members before its items, the items, the members after them.

ghost use Rattle.std.specs.Prelude.{◌≡◌, ◌<◌, List, ◌∷◌, length, option_map, option_and_then, Some};
ghost use Rattle.std.specs.Prelude.{None, Err, IfOk, IfSome, MatchOption};
ghost use Rattle.std.specs.Bool.{MatchBool};
ghost use Rattle.json.specs.Lex.{tokens};
ghost use Rattle.json.specs.Token.{Token as SpecToken, begin_array, begin_object};
ghost use Rattle.serde_json.specs.Data.{Data, array, Items, Members, no_members, put, no_items};
ghost use Rattle.serde_json.specs.Data.{item};
ghost use Rattle.serde_json.specs.Read.{read};
ghost use Rattle.serde_json.specs.View.{view, members_view};
ghost use Rattle.json_list.specs.Lean.{lean};
ghost use Rattle.json_list.specs.List.{IsList, items_name, with_items};
ghost use Rattle.json_list.specs.OnePass.{items_and_rest, object_from, OthersFollow, IsReadUpTo};
ghost use Rattle.json_list.specs.OnePass.{AreTheOthers, IsListUpTo};
ghost use Rattle.json_list.specs.Places.{IsUpToItems, AreRefused, HasOneList};
ghost use Rattle.json_list.specs.declared.fault.ReadFault.TheVariants.{Refused};

use crate::fault::ReadFault;
use crate::kept::Kept;
use crate::value::{read_kept, read_member};
use json::{Reader, Scratch, Token};
use serde_json::{Map, Value};
use std::alloc::{AllocError, Global};
use std::marker::Model;

pub(crate) const ITEMS: &str = "items";

// `serde_json` reads 127 levels, of which the object is one.
pub(crate) const MEMBER_DEPTH: usize = 126;

// Of those levels, the object and its list are two.
const ITEM_DEPTH: usize = 125;

/// An object with a list under `items`, read up to that list.
#[derive(Drop)]
pub struct ListFront<'a> {
    /// The members before the list.
    pub before: Map<String, Value>,
    /// The items, and the members after them.
    pub unread: Unread<'a>,
}

/// The part of a text that isn't read yet. Contracts see its tokens.
#[derive(Drop)]
pub struct Unread<'a> {
    reader: Reader<'a>,
}

impl<'a> Model for Unread<'a> {
    ghost use Rattle.std.specs.Prelude.{List};
    ghost use Rattle.json.specs.Token.{Token as SpecToken, tokens_code};

    ghost Value = { List SpecToken };

    ghost coded = { tokens_code };

    ghost view = { λ a. a.reader };
}

impl<'a> Unread<'a> {
    /// What is kept of the next item; `None` after the last one. Then `rest` reads the members
    /// after the list (own).
    ///
    /// # Errors
    ///
    /// `Refused` only if the rest of the list can't be read; otherwise `NoMemory`.
    pub fn next_item<K: Kept>(&mut self, alloc: Global, kept: K) -> Result<Option<Value>, ReadFault>
        ensures next { IfOk result (λ next. MatchOption next
            (items_and_rest self.old ≡ Some (no_items, self.new))
            (λ v. (d : Data) × (view v ≡ lean K.under kept d) × (items_and_rest self.old
            ≡ option_map (λ p. (item d p.0, p.1)) (items_and_rest self.new)))) }
        ensures shorter { IfOk result
            (λ next. IfSome next (λ _. length self.new < length self.old)) }
        ensures refused { result ≡ Err Refused → items_and_rest self.old ≡ None }
    {
        if self.reader.take_end_array() {
            return Ok(None);
        }
        Ok(Some(read_kept(alloc, &mut self.reader, ITEM_DEPTH, kept)?))
    }

    /// The members of the object other than the list: those in `before`, and those after the list
    /// (own). `None` only if a member after the list is named `items` too.
    ///
    /// # Errors
    ///
    /// `Refused` only if `serde_json` doesn't read the rest of the text either; otherwise
    /// `NoMemory`.
    pub fn rest(
        &mut self,
        alloc: Global,
        before: Map<String, Value>,
    ) -> Result<Option<Map<String, Value>>, ReadFault>
        ensures rest { IfOk result (λ o. MatchOption o (¬ OthersFollow self.old)
            (λ others. AreTheOthers (members_view before.entries) self.old
            (members_view others.entries))) }
        ensures refused { result ≡ Err Refused
            → (found : Members) → object_from found self.old ≡ None }
    {
        let mut others = before;
        if !read_rest(alloc, &mut self.reader, &mut others)? {
            return Ok(None);
        }
        Ok(Some(others))
    }
}

// A reader just after the brace that opens an object, if a text begins with one.
pub(crate) fn object_in<'a>(
    text: &'a str,
    scratch: &'a mut Scratch,
) -> Result<Option<Reader<'a>>, AllocError>
    ensures { IfOk result (λ o. MatchOption o
        ((ts : List SpecToken) → tokens text.now ≡ begin_object ∷ ts → ⊥)
        (λ reader. tokens text.now ≡ begin_object ∷ reader)) }
{
    let mut reader = Reader::new(text, scratch)?;
    let Some(Token::BeginObject) = reader.next() else {
        return Ok(None);
    };
    Ok(Some(reader))
}

// Takes the bracket that opens an array, if it is next.
pub(crate) fn take_begin_array(reader: &mut Reader<'_>) -> bool
    ensures { MatchBool result (reader.old ≡ begin_array ∷ reader.new)
        ((ts : List SpecToken) → reader.old ≡ begin_array ∷ ts → ⊥) }
{
    matches!(reader.next(), Some(Token::BeginArray))
}

// Adds the members after a list to those before it; false if one of them is another `items`.
fn read_rest(
    alloc: Global,
    reader: &mut Reader<'_>,
    members: &mut Map<String, Value>,
) -> Result<bool, ReadFault>
    ensures rest { IfOk result (λ is_rest. MatchBool is_rest
        (AreTheOthers (members_view members.old.entries) reader.old
        (members_view members.new.entries)) (¬ OthersFollow reader.old)) }
    ensures refused { result ≡ Err Refused
        → (found : Members) → object_from found reader.old ≡ None }
{
    'members: while let Some(name) = reader.next_key()? {
        if name == ITEMS {
            return Ok(false);
        }
        read_member(alloc, reader, name, members)?;
    }
    if reader.next().is_some() {
        return Err(ReadFault::Refused);
    }
    Ok(true)
}

// Puts the members of an object before a list under `items` into an empty map; false if the first
// `items` isn't a list, or there is no `items`.
fn read_before(
    alloc: Global,
    reader: &mut Reader<'_>,
    members: &mut Map<String, Value>,
) -> Result<bool, ReadFault>
    requires { members_view members.old.entries ≡ no_members }
    ensures before { IfOk result (λ found. MatchBool found
        (IsUpToItems reader.old (members_view members.new.entries) reader.new)
        (¬ HasOneList reader.old)) }
    ensures refused { result ≡ Err Refused → AreRefused reader.old }
{
    'members: while let Some(name) = reader.next_key()? {
        if name == ITEMS {
            return Ok(take_begin_array(reader));
        }
        read_member(alloc, reader, name, members)?;
    }
    Ok(false)
}

/// Reads a text that is a list up to its items (own). `None` only if the text isn't an object with
/// one `items`, which is a list. `scratch` holds texts with escapes; it grows to the length of the
/// text.
///
/// # Errors
///
/// `Refused` only if `serde_json` doesn't read the text either; otherwise `NoMemory`.
pub fn open_front<'a>(
    alloc: Global,
    text: &'a str,
    scratch: &'a mut Scratch,
) -> Result<Option<ListFront<'a>>, ReadFault>
    ensures front { IfOk result (λ o. MatchOption o (¬ IsList text.now) (λ front.
        IsReadUpTo text.now (members_view front.before.entries) front.unread)) }
    ensures list { IfOk result (λ o. IfSome o (λ front. IsListUpTo text.now front.unread)) }
    ensures refused { result ≡ Err Refused → read text.now ≡ None }
{
    let Some(mut reader) = object_in(text, scratch)? else {
        return Ok(None);
    };
    let mut before = Map::new(alloc);
    if !read_before(alloc, &mut reader, &mut before)? {
        return Ok(None);
    }
    Ok(Some(ListFront {
        before,
        unread: Unread { reader },
    }))
}
