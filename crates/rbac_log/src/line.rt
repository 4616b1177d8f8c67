//! The requests that a line of a log tells of.

ghost use Rattle.std.specs.Prelude.{◌≡◌, map};
ghost use Rattle.std.specs.List.{list_all};
ghost use Rattle.serde_json.specs.Read.{read};
ghost use Rattle.serde_json.specs.View.{view};
ghost use Rattle.json_fields.specs.Fields.{text_at};
ghost use Rattle.rbac_log.specs.Line.{has_value, is_kind, has_value_or_none, is_item, is_blank};
ghost use Rattle.rbac_log.specs.Line.{told_by_item, told_by_items, told_by_value, requests_in};
ghost use Rattle.rbac_log.specs.Line.{IsToldBy};
ghost use Rattle.rbac_log.specs.Event.{told};
ghost use Rattle.rbac_log.specs.Outcome.{Appends, TellsAll};

use crate::event::add_told;
use crate::fault::LineFault;
use crate::logged::LoggedRequest;
use crate::part::Part;
use json::Scratch;
use json_fields::{list_field, text_field};
use json_list::{ReadFault, read_text};
use serde_json::Value;
use std::alloc::Global;

const VERSION: &str = "audit.k8s.io/v1";

// Whether a field has this text.
fn has_value(value: &Value, name: &str, wanted: &str) -> bool
    ensures { result ≡ has_value wanted.now (text_at name.now (view value.now)) }
{
    match text_field(value, name) {
        Some(text) => text == wanted,
        None => false,
    }
}

// Whether a value is of this kind, and of the version that is read.
#[tactic(auto, unfolding(crate::specs::Line::is_kind))]
fn is_kind(value: &Value, kind: &str) -> bool
    ensures { result ≡ is_kind kind.now (view value.now) }
{
    has_value(value, "kind", kind) && has_value(value, "apiVersion", VERSION)
}

// Whether a field has this text, or is missing.
fn has_value_or_none(value: &Value, name: &str, wanted: &str) -> bool
    ensures { result ≡ has_value_or_none wanted.now (text_at name.now (view value.now)) }
{
    has_value(value, name, "") || has_value(value, name, wanted)
}

// Whether an item of a list is an event.
#[tactic(auto, unfolding(crate::specs::Line::is_item))]
fn is_item(value: &Value) -> bool
    ensures { result ≡ is_item (view value.now) }
{
    value.is_object()
        && has_value_or_none(value, "kind", "Event")
        && has_value_or_none(value, "apiVersion", VERSION)
}

// Appends the requests of an item of a list.
#[tactic(auto, unfolding(crate::specs::Line::told_by_item))]
fn add_told_by_item(
    alloc: Global,
    item: &Value,
    requests: &mut Vec<LoggedRequest>,
) -> Result<(), LineFault>
    ensures { Appends result (told_by_item (view item.now)) requests.old.items requests.new.items }
{
    if is_item(item) {
        add_told(alloc, item, requests)
    } else {
        Err(LineFault::NotAnEvent)
    }
}

// The requests of the items of a list, in order. Fails at the first item with a fault.
fn told_by_items(alloc: Global, items: &[Value]) -> Result<Vec<LoggedRequest>, LineFault>
    ensures { TellsAll result (told_by_items (map view items.now)) }
{
    let mut requests = Vec::new(alloc);
    for item in items {
        add_told_by_item(alloc, item, &mut requests)?;
    }
    Ok(requests)
}

// The requests of an event.
fn told_by_event(alloc: Global, event: &Value) -> Result<Vec<LoggedRequest>, LineFault>
    ensures { TellsAll result (told (view event.now)) }
{
    let mut requests = Vec::new(alloc);
    add_told(alloc, event, &mut requests)?;
    Ok(requests)
}

// The requests of a value, which is an event or a list of events.
#[tactic(auto, unfolding(crate::specs::Line::told_by_value))]
fn told_by_value(alloc: Global, value: &Value) -> Result<Vec<LoggedRequest>, LineFault>
    ensures { TellsAll result (told_by_value (view value.now)) }
{
    if is_kind(value, "Event") {
        return told_by_event(alloc, value);
    }
    if !is_kind(value, "EventList") {
        return Err(LineFault::NotAnEvent);
    }
    match list_field(value, "items") {
        Some(items) => told_by_items(alloc, items),
        None => Err(LineFault::NotAnEvent),
    }
}

// The JSON value that a line is, without the members that aren't read.
fn parse(alloc: Global, line: &str, scratch: &mut Scratch) -> Result<Value, LineFault>
    ensures { IsToldBy result (read line.now) }
{
    match read_text(alloc, line, scratch, Part::Event) {
        Ok(value) => Ok(value),
        Err(ReadFault::NoMemory) => Err(LineFault::NoMemory),
        Err(ReadFault::Refused) => Err(LineFault::NotJson),
    }
}

// Whether a byte is a blank of JSON.
fn is_blank(byte: u8) -> bool
    ensures { result ≡ is_blank byte }
{
    matches!(byte, b' ' | b'\t' | b'\n' | b'\r')
}

// Whether a line is empty or has blanks alone.
fn is_empty(line: &str) -> bool
    ensures { result ≡ list_all is_blank line.now }
{
    line.as_bytes().iter().all(|byte| is_blank(*byte))
}

/// The requests that one line of an audit log tells of, in the order in which the server was asked
/// (Auditing; impersonation: Authenticating, "User impersonation"). The line is an `Event` or an
/// `EventList` of `audit.k8s.io/v1`, as JSON; an empty line, or one of blanks alone, has no requests
/// (own). An event that was only received, that the server has forbidden, or that is of somebody
/// whom it didn't know (401) has none either. `scratch` is room for a line's texts, which the lines
/// of a log share.
///
/// # Errors
///
/// G1 to G9, exactly if that is the line's fault: of an event the one with the least number, of a
/// list that of its first event with a fault. `NoMemory` only if it runs out of memory.
#[tactic(auto, unfolding(crate::specs::Line::requests_in))]
pub fn requests_in_line(
    alloc: Global,
    line: &str,
    scratch: &mut Scratch,
) -> Result<Vec<LoggedRequest>, LineFault>
    ensures { TellsAll result (requests_in line.now) }
{
    if is_empty(line) {
        return Ok(Vec::new(alloc));
    }
    let value = parse(alloc, line, scratch)?;
    told_by_value(alloc, &value)
}
