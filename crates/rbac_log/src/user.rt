//! The users of an event.

ghost use Rattle.std.specs.Prelude.{◌≡◌, option_map};
ghost use Rattle.serde_json.specs.View.{view};
ghost use Rattle.json_fields.specs.Reads.{Reads};
ghost use Rattle.rbac_log.specs.User.{full_text, user_from, user_told, impersonated_at};
ghost use Rattle.rbac_log.specs.User.{trouble_for};

use json_fields::{Trouble, field, text_field, word_field, words_field};
use rbac_terms::{ModelFault, Principal};
use serde_json::Value;
use std::alloc::Global;

// The text of a field, unless it is empty.
#[tactic(auto, unfolding(crate::specs::User::full_text))]
pub(crate) fn full_text<'v>(value: &'v Value, name: &str) -> Option<&'v str>
    ensures { option_map (λ s. s.now) result ≡ full_text name.now (view value.now) }
{
    match text_field(value, name) {
        Some(text) if !text.is_empty() => Some(text),
        _ => None,
    }
}

// A principal without a name is trouble with the shape.
fn trouble_of(fault: ModelFault) -> Trouble
    ensures { result ≡ trouble_for fault }
{
    match fault {
        ModelFault::NoMemory => Trouble::Memory,
        _ => Trouble::Shape,
    }
}

// The user that an object gives.
#[tactic(auto, unfolding(crate::specs::User::user_from, crate::specs::User::full_text))]
fn user_from(alloc: Global, value: &Value) -> Result<Principal, Trouble>
    ensures { Reads result (user_from (view value.now)) }
{
    let name = word_field(alloc, value, "username")?;
    let groups = words_field(alloc, value, "groups")?;
    match Principal::user(alloc, &name, &groups) {
        Ok(user) => Ok(user),
        Err(fault) => Err(trouble_of(fault)),
    }
}

// The user of an event.
#[tactic(auto, unfolding(crate::specs::User::user_told))]
pub(crate) fn user_of(alloc: Global, event: &Value) -> Result<Principal, Trouble>
    ensures { Reads result (user_told (view event.now)) }
{
    match field(event, "user") {
        Some(user) => user_from(alloc, user),
        None => Err(Trouble::Shape),
    }
}

// The user as whom the user of an event acts, if there is one.
#[tactic(auto, unfolding(crate::specs::User::impersonated_at))]
pub(crate) fn impersonated_of(alloc: Global, event: &Value) -> Result<Option<Principal>, Trouble>
    ensures { Reads result (impersonated_at (view event.now)) }
{
    match field(event, "impersonatedUser") {
        Some(user) => Ok(Some(user_from(alloc, user)?)),
        None => Ok(None),
    }
}
