//! The requests of an event.

ghost use Rattle.std.specs.Prelude.{◌≡◌, option_map};
ghost use Rattle.serde_json.specs.View.{view};
ghost use Rattle.rbac_log.specs.Event.{decision_at, code_at, counts, counts_at};
ghost use Rattle.rbac_log.specs.Event.{told};
ghost use Rattle.rbac_log.specs.Outcome.{Appends};

use crate::counted::add_counted;
use crate::fault::LineFault;
use crate::logged::LoggedRequest;
use crate::user::full_text;
use json_fields::{field, text_field};
use serde_json::Value;
use std::alloc::Global;

// What the server decided; empty if the event doesn't tell.
#[tactic(auto, unfolding(crate::specs::Event::decision_at))]
fn decision_of(event: &Value) -> Option<&str>
    ensures { option_map (λ s. s.now) result ≡ decision_at (view event.now) }
{
    match field(event, "annotations") {
        Some(annotations) if annotations.is_object() => {
            text_field(annotations, "authorization.k8s.io/decision")
        }
        Some(_) => None,
        None => Some(""),
    }
}

// The code of the server's answer, if the event tells it.
#[tactic(auto, unfolding(crate::specs::Event::code_at))]
fn code_of(event: &Value) -> Option<u64>
    ensures { result ≡ code_at (view event.now) }
{
    field(event, "responseStatus")?.get("code")?.as_u64()
}

// Whether an event counts that is of this stage, and on which the server decided and answered so.
// A server logs without a user whoever it doesn't know (401).
fn counts(stage: &str, decision: &str, code: Option<u64>) -> bool
    ensures { result ≡ counts stage.now decision.now code }
{
    stage != "RequestReceived" && decision != "forbid" && code != Some(401)
}

// Whether an event counts.
#[tactic(auto, unfolding(crate::specs::Event::counts_at))]
fn counts_of(event: &Value) -> Result<bool, LineFault>
    ensures { result ≡ counts_at (view event.now) }
{
    let Some(stage) = full_text(event, "stage") else {
        return Err(LineFault::BadStage);
    };
    match decision_of(event) {
        Some(decision) => Ok(counts(stage, decision, code_of(event))),
        None => Err(LineFault::BadAnnotations),
    }
}

// Appends the requests of an event.
#[tactic(auto, unfolding(crate::specs::Event::told))]
pub(crate) fn add_told(
    alloc: Global,
    event: &Value,
    requests: &mut Vec<LoggedRequest>,
) -> Result<(), LineFault>
    ensures { Appends result (told (view event.now)) requests.old.items requests.new.items }
{
    if counts_of(event)? {
        add_counted(alloc, event, requests)
    } else {
        Ok(())
    }
}
