//! What an event says was asked for.

ghost use Rattle.std.specs.Prelude.{◌≡◌, ◌==◌, IfOk};
ghost use Rattle.std.specs.List.{before_first};
ghost use Rattle.serde_json.specs.View.{view};
ghost use Rattle.json_fields.specs.Reads.{Reads};
ghost use Rattle.rbac_terms.specs.Targets.{Resource, Url};
ghost use Rattle.rbac_log.specs.Asked.{proper, reference_from, reference_at, full_resource};
ghost use Rattle.rbac_log.specs.Asked.{asked_name, resource_asked, path_of, url_asked, asked_at};
ghost use Rattle.rbac_log.specs.Outcome.{Tells};

use crate::fault::{LineFault, read_or};
use json_fields::{Trouble, field, object_in, text_field, word_field};
use percent_encoding::percent_decode;
use rbac_terms::{Target, Word, cut_at_first};
use serde_json::Value;
use std::alloc::{AllocError, Global};

// What is asked for: the namespace, and the resource or the URL if that is a proper target.
#[derive(Drop)]
pub(crate) struct Asked {
    pub namespace: Word,
    pub target: Option<Target>,
}

// An object that an event refers to.
#[derive(Drop)]
pub(crate) struct Reference {
    pub group: Word,
    pub resource: Word,
    pub subresource: Word,
    pub namespace: Word,
    pub name: Word,
}

// The object that an object's fields refer to.
#[tactic(auto, unfolding(crate::specs::Asked::reference_from))]
fn reference_from(alloc: Global, value: &Value) -> Result<Reference, Trouble>
    ensures { Reads result (reference_from (view value.now)) }
{
    Ok(Reference {
        group: word_field(alloc, value, "apiGroup")?,
        resource: word_field(alloc, value, "resource")?,
        subresource: word_field(alloc, value, "subresource")?,
        namespace: word_field(alloc, value, "namespace")?,
        name: word_field(alloc, value, "name")?,
    })
}

// The object that a value refers to.
#[tactic(auto, unfolding(crate::specs::Asked::reference_at))]
fn reference_of(alloc: Global, value: &Value) -> Result<Reference, Trouble>
    ensures { Reads result (reference_at (view value.now)) }
{
    reference_from(alloc, object_in(value)?)
}

// A resource, followed by its subresource if there is one.
fn full_resource(resource: Word, subresource: &Word) -> Result<Word, AllocError>
    ensures { IfOk result (λ text. text ≡ full_resource resource subresource.now) }
{
    let mut text = resource;
    if !subresource.as_bytes().is_empty() {
        text.push(b'/')?;
        text.push_slice(subresource.as_bytes())?;
    }
    Ok(text)
}

// The target of a resource, if it is a proper one.
fn resource_target(group: Word, text: Word, name: Word) -> Option<Target>
    ensures { result ≡ proper (Resource group text name) }
{
    Target::resource(group, text, name).ok()
}

// The target of a URL, if it is a proper one.
fn url_target(alloc: Global, path: Word) -> Option<Target>
    ensures { result ≡ proper (Url path) }
{
    Target::url(alloc, path).ok()
}

// The object name that the server asked for: none to create an object, for which the log has a
// name.
fn asked_name(alloc: Global, verb: &str, subresource: &Word, name: Word) -> Word
    ensures { result ≡ asked_name verb.now subresource.now name }
{
    if verb == "create" && subresource.as_bytes().is_empty() {
        Word::new(alloc)
    } else {
        name
    }
}

// What is asked for with this verb.
fn resource_asked(alloc: Global, verb: &str, reference: Reference) -> Result<Asked, AllocError>
    ensures { IfOk result (λ asked. asked ≡ resource_asked verb.now reference) }
{
    let Reference {
        group,
        resource,
        subresource,
        namespace,
        name,
    } = reference;
    let name = asked_name(alloc, verb, &subresource, name);
    let text = full_resource(resource, &subresource)?;
    Ok(Asked {
        namespace,
        target: resource_target(group, text, name),
    })
}

// What stands before the `?` of a URI.
fn before_query(uri: &[u8]) -> &[u8]
    ensures { result.now ≡ before_first (λ b. b == 63) uri.now }
{
    match cut_at_first(uri, b'?') {
        Some((path, _)) => path,
        None => uri,
    }
}

// The path of a URI.
#[tactic(auto, unfolding(crate::specs::Asked::path_of))]
fn path_of(alloc: Global, uri: &str) -> Result<Word, AllocError>
    ensures { IfOk result (λ path. path ≡ path_of uri.now) }
{
    let mut path = Vec::new(alloc);
    percent_decode(before_query(uri.as_bytes())).append_to(&mut path)?;
    Word::from_slice(alloc, path.as_slice())
}

// What is asked for by a URI.
#[tactic(auto, unfolding(crate::specs::Asked::url_asked))]
fn url_asked(alloc: Global, uri: &str) -> Result<Asked, AllocError>
    ensures { IfOk result (λ asked. asked ≡ url_asked uri.now) }
{
    let path = path_of(alloc, uri)?;
    Ok(Asked {
        namespace: Word::new(alloc),
        target: url_target(alloc, path),
    })
}

// What an event says was asked for with this verb.
#[tactic(auto, unfolding(crate::specs::Asked::asked_at))]
pub(crate) fn asked_of(alloc: Global, verb: &str, event: &Value) -> Result<Asked, LineFault>
    ensures { Tells result (asked_at verb.now (view event.now)) }
{
    match field(event, "objectRef") {
        Some(value) => {
            let reference = read_or(reference_of(alloc, value), LineFault::BadObjectRef)?;
            Ok(resource_asked(alloc, verb, reference)?)
        }
        None => match text_field(event, "requestURI") {
            Some(uri) => Ok(url_asked(alloc, uri)?),
            None => Err(LineFault::BadUri),
        },
    }
}
