//! The requests of an event that counts.

ghost use Rattle.std.specs.Prelude.{◌≡◌, ◌++◌, OnOk};
ghost use Rattle.serde_json.specs.View.{view};
ghost use Rattle.rbac_log.specs.Event.{asked_by, requests_of, told_if_counted};
ghost use Rattle.rbac_log.specs.Outcome.{Appends};

use crate::acting::add_impersonations;
use crate::asked::{Asked, asked_of};
use crate::fault::{LineFault, read_or};
use crate::logged::LoggedRequest;
use crate::user::{full_text, impersonated_of, user_of};
use json_fields::word_of;
use rbac_terms::Principal;
use serde_json::Value;
use std::alloc::{AllocError, Global};

// Appends the request that was asked, if it is for a proper target.
fn add_asked(
    alloc: Global,
    who: Principal,
    verb: &str,
    asked: Asked,
    requests: &mut Vec<LoggedRequest>,
) -> Result<(), AllocError>
    ensures { OnOk result
        (requests.new.items ≡ requests.old.items ++ asked_by who verb.now asked) }
{
    let Asked { namespace, target } = asked;
    let Some(target) = target else {
        return Ok(());
    };
    requests.push(LoggedRequest {
        who,
        namespace,
        verb: word_of(alloc, verb)?,
        target,
    })?;
    Ok(())
}

// Appends the requests of a user, or of a user who acts as another.
fn add_requests_of(
    alloc: Global,
    verb: &str,
    user: Principal,
    impersonated: Option<Principal>,
    asked: Asked,
    requests: &mut Vec<LoggedRequest>,
) -> Result<(), AllocError>
    ensures { OnOk result (requests.new.items
        ≡ requests.old.items ++ requests_of verb.now user impersonated asked) }
{
    match impersonated {
        Some(other) => {
            add_impersonations(alloc, &user, &other, requests)?;
            add_asked(alloc, other, verb, asked, requests)
        }
        None => add_asked(alloc, user, verb, asked, requests),
    }
}

// Appends the requests of an event that counts.
#[tactic(auto, unfolding(crate::specs::Event::told_if_counted))]
pub(crate) fn add_counted(
    alloc: Global,
    event: &Value,
    requests: &mut Vec<LoggedRequest>,
) -> Result<(), LineFault>
    ensures { Appends result (told_if_counted (view event.now)) requests.old.items requests.new.items }
{
    let Some(verb) = full_text(event, "verb") else {
        return Err(LineFault::BadVerb);
    };
    let user = read_or(user_of(alloc, event), LineFault::BadUser)?;
    let impersonated = read_or(
        impersonated_of(alloc, event),
        LineFault::BadImpersonatedUser,
    )?;
    let asked = asked_of(alloc, verb, event)?;
    add_requests_of(alloc, verb, user, impersonated, asked, requests)?;
    Ok(())
}
