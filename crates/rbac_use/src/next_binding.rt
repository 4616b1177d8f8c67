//! Which bindings allow a request. Only those that name its user and may be live in its namespace
//! are asked: these are looked up.

ghost use Rattle.std.specs.Prelude.{◌≡◌, ◌<◌, ◌↔◌, IfOk, IsTrue, length};
ghost use Rattle.rbac_model.specs.Policies.{IsPolicy};
ghost use Rattle.rbac_subjects.specs.Keyed.{AnswersNext};
ghost use Rattle.rbac_use.specs.Asked.{IsNamedAt};
ghost use Rattle.rbac_use.specs.Requests.{request_of};
ghost use Rattle.rbac_use.specs.Used.{IsAllowedAt};

use crate::request::Request;
use rbac_model::{Policy, is_live};
use rbac_subjects::SubjectIndex;
use rbac_terms::rule_allows;
use std::alloc::{AllocError, Global};

// The bindings of the policy by their subjects.
pub(crate) fn subjects_of<'p>(
    alloc: Global,
    policy: &'p Policy,
) -> Result<SubjectIndex<'p>, AllocError>
    ensures { IfOk result (λ index. index ≡ policy.now) }
{
    match SubjectIndex::build(alloc, policy) {
        Ok(index) => Ok(index),
        Err(_) => Err(AllocError),
    }
}

// The place of the next binding, from this one on, that allows the request. Grants are in order of
// bindings, so the search goes on behind the grants of a binding that doesn't.
pub(crate) fn next_allowing(
    policy: &Policy,
    index: &SubjectIndex<'_>,
    request: Request<'_>,
    place: usize,
) -> Option<usize>
    requires { index.now ≡ policy.now }
    ensures next { AnswersNext (λ at. IsAllowedAt policy.now at (request_of request.entry)) place
        result }
    ensures policy { IsPolicy policy.now }
{
    let (mut from, _) = policy.grants_of(place);
    while let Some((start, _)) = index.next_run(request.who, request.namespace, from) {
        let here = policy.place(start).binding;
        if allows_at(policy, here, request) {
            return Some(here);
        }
        from = policy.grants_of(here).1;
    }
    None
}

// Whether the binding at this place, which names who asks, allows the request by one of its grants.
fn allows_at(policy: &Policy, place: usize, request: Request<'_>) -> bool
    requires place { place < length policy.now.held.bindings }
    requires named { IsNamedAt policy.now place request.who.now }
    ensures { IsTrue result ↔ IsAllowedAt policy.now place (request_of request.entry) }
{
    if !is_live(&policy.bindings()[place], request.namespace, request.target) {
        return false;
    }
    let (from, end) = policy.grants_of(place);
    for number in from..end {
        if rule_allows(policy.grant(number).rule, request.verb, request.target) {
            return true;
        }
    }
    false
}
