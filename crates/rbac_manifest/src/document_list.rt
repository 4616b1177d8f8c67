//! A list of documents, read in one pass over its text. The kind of a list can come after its
//! items. So the reader guesses what the list implies about its items, and checks the guess when it
//! reads the kind. After a wrong guess, it reads the text again.

ghost use Rattle.std.specs.Prelude.{◌≡◌, List, ℕ, OnOk, IfOk, IfSome, MatchOption, Err, None, Some};
ghost use Rattle.json.specs.Token.{Token as SpecToken};
ghost use Rattle.serde_json.specs.Data.{Data, Items};
ghost use Rattle.serde_json.specs.Read.{read};
ghost use Rattle.serde_json.specs.View.{view, members_view};
ghost use Rattle.json_list.specs.List.{IsList};
ghost use Rattle.json_list.specs.OnePass.{items_and_rest, OthersFollow, IsReadUpTo};
ghost use Rattle.json_list.specs.declared.fault.ReadFault.TheVariants.{Refused};
ghost use Rattle.rbac_manifest.specs.DocumentList.{IsListOf, IsReadAs};
ghost use Rattle.json_fields.specs.Fields.{elements};
ghost use Rattle.rbac_manifest.specs.Load.{refusal_of, first_refusal, contents_of_items};
ghost use Rattle.rbac_manifest.specs.Load.{contents_of_value};
ghost use Rattle.rbac_manifest.specs.Reads.{Yields};
ghost use Rattle.rbac_manifest.specs.declared.kind.Implied.{Implied};

use crate::content::Content;
use crate::document::take_document;
use crate::fault::Refusal;
use crate::kind::{Implied, Kind, kind_named, list_kind};
use crate::part::Part;
use crate::whole::{document_contents, whole_contents};
use json::Scratch;
use json_list::{ListFront, ReadFault, Unread, open_front};
use serde_json::{Map, Value};
use std::alloc::Global;

// A list that was read.
#[derive(Drop)]
struct ReadList {
    // What the list was taken to imply about its items.
    implied: Implied,
    // What the items then give, or why the first one with a fault is refused.
    given: Result<Vec<Content>, Refusal>,
    // The other members of the list.
    others: Map<String, Value>,
}

// Reads the remaining items, so that one that can't be read is reported.
fn pass_rest(alloc: Global, unread: &mut Unread<'_>) -> Result<(), ReadFault>
    ensures read { OnOk result
        ((ds : Items) × (items_and_rest unread.old ≡ Some (ds, unread.new))) }
    ensures refused { result ≡ Err Refused → items_and_rest unread.old ≡ None }
{
    'rest: while let Some(item) = unread.next_item(alloc, Part::Document)? {
        drop(item);
    }
    Ok(())
}

// What the items of a list give. The refusal of the first item with a fault is kept while the later
// items are read.
fn items_of(
    alloc: Global,
    unread: &mut Unread<'_>,
    implied: Implied,
) -> Result<Result<Vec<Content>, Refusal>, ReadFault>
    ensures items { IfOk result (λ given. (ds : Items)
        × (items_and_rest unread.old ≡ Some (ds, unread.new))
        × Yields given (first_refusal implied 0 (elements ds))
        (contents_of_items implied (elements ds))) }
    ensures refused { result ≡ Err Refused → items_and_rest unread.old ≡ None }
{
    let mut contents = Vec::new(alloc);
    for place in 0..usize::MAX {
        let Some(item) = unread.next_item(alloc, Part::Document)? else {
            return Ok(Ok(contents));
        };
        if let Err(cause) = take_document(alloc, &item, implied, &mut contents) {
            pass_rest(alloc, unread)?;
            return Ok(Err(Refusal::item(place, cause)));
        }
    }
    Err(ReadFault::NoMemory)
}

// What a list implies about its items, judged by the members before them.
fn guess_of(before: &Map<String, Value>) -> Implied {
    let (Some(version), Some(kind)) = (before.get("apiVersion"), before.get("kind")) else {
        return Implied::Nothing;
    };
    let (Some(version), Some(kind)) = (version.as_str(), kind.as_str()) else {
        return Implied::Nothing;
    };
    match kind_named(version, kind) {
        Kind::List(implied) => implied,
        _ => Implied::Nothing,
    }
}

// What a list implies about its items: `told`, if it is given, otherwise the guess.
fn implied_by(told: Option<Implied>, before: &Map<String, Value>) -> Implied
    ensures { (implied : Implied) → told ≡ Some implied → result ≡ implied }
{
    match told {
        Some(implied) => implied,
        None => guess_of(before),
    }
}

// Reads on, after the members before the items; `None` if the list has `items` again.
fn read_on(
    alloc: Global,
    front: ListFront<'_>,
    implied: Implied,
) -> Result<Option<ReadList>, ReadFault>
    ensures list { IfOk result (λ o. MatchOption o
        ((ds : Items) × (rest : List SpecToken)
        × (items_and_rest front.entry.unread ≡ Some (ds, rest)) × (¬ OthersFollow rest))
        (λ list. (text : List ℕ)
        → IsReadUpTo text (members_view front.entry.before.entries) front.entry.unread
        → IsReadAs text list.implied list.given (members_view list.others.entries))) }
    ensures implied { IfOk result (λ o. IfSome o (λ list. list.implied ≡ implied)) }
    ensures refused { result ≡ Err Refused → (text : List ℕ)
        → IsReadUpTo text (members_view front.entry.before.entries) front.entry.unread
        → read text ≡ None }
{
    let ListFront { before, mut unread } = front;
    let given = items_of(alloc, &mut unread, implied)?;
    let Some(others) = unread.rest(alloc, before)? else {
        return Ok(None);
    };
    Ok(Some(ReadList {
        implied,
        given,
        others,
    }))
}

// Reads a text that is an object with one list under `items`; `None` for any other text. Guesses
// what the list implies about its items, unless `told` is given.
fn list_of(alloc: Global, text: &str, told: Option<Implied>) -> Result<Option<ReadList>, ReadFault>
    ensures list { IfOk result (λ o. MatchOption o (¬ IsList text.now) (λ list.
        IsReadAs text.now list.implied list.given (members_view list.others.entries))) }
    ensures told { IfOk result (λ o. IfSome o
        (λ list. (implied : Implied) → told ≡ Some implied → list.implied ≡ implied)) }
    ensures refused { result ≡ Err Refused → read text.now ≡ None }
{
    let mut scratch = Scratch::new(alloc);
    let Some(front) = open_front(alloc, text, &mut scratch)? else {
        return Ok(None);
    };
    let implied = implied_by(told, &front.before);
    read_on(alloc, front, implied)
}

// What a text gives, if it implies this about its items.
fn contents_as(alloc: Global, text: &str, implied: Implied) -> Result<Vec<Content>, Refusal>
    requires { (d : Data) → read text.now ≡ Some d → IsListOf implied d }
    ensures { Yields result (refusal_of (read text.now)) (contents_of_value (read text.now)) }
{
    match list_of(alloc, text, Some(implied))? {
        Some(list) => list.given,
        None => whole_contents(alloc, text),
    }
}

// What a text gives that was read as this list. If its kind isn't that of a list of documents, the
// text gives what its members other than the items give.
fn list_contents(alloc: Global, text: &str, list: ReadList) -> Result<Vec<Content>, Refusal>
    requires { IsReadAs text.now list.implied list.given (members_view list.others.entries) }
    ensures { Yields result (refusal_of (read text.now)) (contents_of_value (read text.now)) }
{
    let ReadList {
        implied,
        given,
        others,
    } = list;
    let document = Value::Object(others);
    match list_kind(&document) {
        Some(kind) if kind == implied => given,
        Some(kind) => contents_as(alloc, text, kind),
        None => document_contents(alloc, &document),
    }
}

// What a text gives. A text that isn't an object with one list under `items` is read as a whole.
pub(crate) fn text_contents(alloc: Global, text: &str) -> Result<Vec<Content>, Refusal>
    ensures { Yields result (refusal_of (read text.now)) (contents_of_value (read text.now)) }
{
    match list_of(alloc, text, None)? {
        Some(list) => list_contents(alloc, text, list),
        None => whole_contents(alloc, text),
    }
}
