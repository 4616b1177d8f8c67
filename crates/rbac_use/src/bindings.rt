//! The unused parts of a binding.

ghost use Rattle.std.specs.Prelude.{◌≡◌, ◌<◌, ◌↔◌, [], IsTrue, List, OnOk, length, option_copied};
ghost use Rattle.rbac_use.specs.Adding.{AddsLines, OfSome, line_at};
ghost use Rattle.rbac_use.specs.Asked.{AreAskedAt, IsIdleSubject, IsSubjectLine};
ghost use Rattle.rbac_use.specs.Requests.{log_of};
ghost use Rattle.rbac_use.specs.Rules.{IsGrantLine};
ghost use Rattle.rbac_use.specs.Unused.{IsPartLine};
ghost use Rattle.rbac_use.specs.Used.{HasPermissions};
ghost use Rattle.rbac_use.specs.declared.request.Request.{Request};
ghost use Rattle.rbac_use.specs.declared.unused.Part.TheVariants.{Whole};

use crate::asked::has_asked;
use crate::request::Request;
use crate::rules::{GrantUse, add_of_rule};
use crate::unused::{Part, Unused};
use crate::usable::{can_be_used, is_for_somebody};
use rbac_model::Policy;
use rbac_terms::{Binding, Subject, Word};
use std::alloc::{AllocError, Global};

// Adds the lines of the binding at this place, by the requests that it allows.
pub(crate) fn add_of_binding(
    alloc: Global,
    policy: &Policy,
    asked: &[Request<'_>],
    place: usize,
    found: &mut Vec<Unused>,
) -> Result<(), AllocError>
    requires { place < length policy.now.held.bindings }
    ensures { (requests : List Request) → AreAskedAt policy.now place requests asked.now
        → OnOk result (AddsLines (IsPartLine policy.now (log_of requests) place)
        found.old.items found.new.items) }
{
    if are_none(asked) {
        return add_whole(policy, place, found);
    }
    add_subjects(place, &policy.bindings()[place], asked, found)?;
    add_grants(alloc, policy, place, asked, found)
}

// Whether there are no requests.
fn are_none(asked: &[Request<'_>]) -> bool
    ensures { IsTrue result ↔ (asked.now ≡ []) }
{
    asked.is_empty()
}

// Adds the line of the binding at this place, which allows no request, if it has permissions.
fn add_whole(policy: &Policy, place: usize, found: &mut Vec<Unused>) -> Result<(), AllocError>
    requires { place < length policy.now.held.bindings }
    ensures { OnOk result (AddsLines
        (λ x. (x ≡ line_at place Whole) × HasPermissions policy.now place)
        found.old.items found.new.items) }
{
    if has_permissions(policy, place) {
        found.push(Unused {
            binding: place,
            part: Part::Whole,
        })?;
    }
    Ok(())
}

// Whether some request can match a rule of the binding at this place.
fn has_permissions(policy: &Policy, place: usize) -> bool
    ensures { IsTrue result ↔ HasPermissions policy.now place }
{
    let (from, end) = policy.grants_of(place);
    for number in from..end {
        let grant = policy.grant(number);
        if can_be_used(grant.binding, grant.rule) {
            return true;
        }
    }
    false
}

// Adds the lines of the subjects that name nobody who makes one of the requests.
fn add_subjects(
    place: usize,
    binding: &Binding,
    asked: &[Request<'_>],
    found: &mut Vec<Unused>,
) -> Result<(), AllocError>
    ensures { OnOk result (AddsLines (OfSome (IsSubjectLine place asked.now binding.now))
        found.old.items found.new.items) }
{
    let namespace = binding.namespace.as_ref();
    for (at, subject) in binding.subjects.as_slice().iter().enumerate() {
        if is_idle(asked, subject, namespace) {
            found.push(Unused {
                binding: place,
                part: Part::Subject(at),
            })?;
        }
    }
    Ok(())
}

// Whether the subject names somebody, but nobody who makes one of the requests.
fn is_idle(asked: &[Request<'_>], subject: &Subject, namespace: Option<&Word>) -> bool
    ensures { IsTrue result
        ↔ IsIdleSubject asked.now (option_copied namespace.entry) subject.now }
{
    is_for_somebody(subject, namespace) && !has_asked(asked, subject, namespace)
}

// Adds the lines of the rules of the binding at this place, by the requests that it allows.
fn add_grants(
    alloc: Global,
    policy: &Policy,
    place: usize,
    asked: &[Request<'_>],
    found: &mut Vec<Unused>,
) -> Result<(), AllocError>
    requires { place < length policy.now.held.bindings }
    ensures { OnOk result (AddsLines (OfSome (IsGrantLine policy.now place asked.now))
        found.old.items found.new.items) }
{
    let (from, end) = policy.grants_of(place);
    for number in from..end {
        let grant = policy.grant(number);
        let used = GrantUse {
            place,
            number,
            binding: grant.binding,
            rule: grant.rule,
            asked,
        };
        add_of_rule(alloc, used, found)?;
    }
    Ok(())
}
