//! What a text gives that was read as a whole: a document, or a list of documents that isn't read
//! item by item, since it has `items` twice or not as a list.

ghost use Rattle.std.specs.Prelude.{◌≡◌, ◌≢◌, map, option_map, IfOk, IfErr, None, Some};
ghost use Rattle.std.specs.Option.{option_to_list};
ghost use Rattle.serde_json.specs.Read.{read};
ghost use Rattle.serde_json.specs.View.{view};
ghost use Rattle.rbac_manifest.specs.declared.fault.Cause.TheVariants.{NoMemory, NotJson};
ghost use Rattle.rbac_manifest.specs.declared.kind.Implied.{Implied};
ghost use Rattle.rbac_manifest.specs.Document.{fault, stands};
ghost use Rattle.rbac_manifest.specs.Load.{as_whole, first_refusal, contents_of_items, refusal_in};
ghost use Rattle.rbac_manifest.specs.Load.{contents_of_input, refusal_of, contents_of_value};
ghost use Rattle.rbac_manifest.specs.Reads.{Yields};

use crate::content::Content;
use crate::document::take_document;
use crate::fault::{Cause, Refusal};
use crate::kind::{Implied, list_kind};
use json_fields::list_field;
use serde_json::Value;
use std::alloc::Global;

// The JSON value that a text is.
fn parse(alloc: Global, text: &str) -> Result<Value, Cause>
    ensures value { IfOk result (λ v. read text.now ≡ Some (view v)) }
    ensures refused { IfErr result
        (λ e. e ≢ NoMemory → (e ≡ NotJson) × (read text.now ≡ None)) }
{
    match Value::from_str(alloc, text) {
        Ok(value) => Ok(value),
        Err(error) if error.is_memory() => Err(Cause::NoMemory),
        Err(_) => Err(Cause::NotJson),
    }
}

// What a document gives.
pub(crate) fn document_contents(alloc: Global, document: &Value) -> Result<Vec<Content>, Refusal>
    ensures { Yields result (option_map as_whole (fault Implied.Nothing (view document.now)))
        (option_to_list (stands Implied.Nothing (view document.now))) }
{
    let mut contents = Vec::new(alloc);
    match take_document(alloc, document, Implied::Nothing, &mut contents) {
        Ok(()) => Ok(contents),
        Err(cause) => Err(Refusal::whole(cause)),
    }
}

// What the items of a list give. Fails at the first item with a fault.
fn items_contents(alloc: Global, items: &[Value], implied: Implied) -> Result<Vec<Content>, Refusal>
    ensures { Yields result (first_refusal implied 0 (map view items.now))
        (contents_of_items implied (map view items.now)) }
{
    let mut contents = Vec::new(alloc);
    for (place, item) in items.iter().enumerate() {
        if let Err(cause) = take_document(alloc, item, implied, &mut contents) {
            return Err(Refusal::item(place, cause));
        }
    }
    Ok(contents)
}

// What an input gives.
#[tactic(auto, unfolding(crate::specs::Document::fault, crate::specs::Load::refusal_in, crate::specs::Load::contents_of_input))]
fn input_contents(alloc: Global, document: &Value) -> Result<Vec<Content>, Refusal>
    ensures { Yields result (refusal_in (view document.now))
        (contents_of_input (view document.now)) }
{
    match list_kind(document) {
        Some(implied) => match list_field(document, "items") {
            Some(items) => items_contents(alloc, items, implied),
            None => Err(Refusal::whole(Cause::NotAnObject)),
        },
        None => document_contents(alloc, document),
    }
}

// What a text gives.
pub(crate) fn whole_contents(alloc: Global, text: &str) -> Result<Vec<Content>, Refusal>
    ensures { Yields result (refusal_of (read text.now)) (contents_of_value (read text.now)) }
{
    match parse(alloc, text) {
        Ok(value) => input_contents(alloc, &value),
        Err(cause) => Err(Refusal::whole(cause)),
    }
}
