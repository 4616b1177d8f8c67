//! What a user needs: the logged requests that the policy allows, and that a rule can be written
//! for.

ghost use Rattle.std.specs.Prelude.{◌≡◌, ◌≢◌, ◌↔◌, Contains, IfOk, IsTrue, codes};
ghost use Rattle.std.specs.Str.{IsUtf8};
ghost use Rattle.rbac_terms.specs.Matching.{EndsInStar};
ghost use Rattle.rbac_terms.specs.Principals.{IsUserNamed};
ghost use Rattle.rbac_terms.specs.Text.{BeginsWith};
ghost use Rattle.rbac_diff.specs.Requests.{AllowsRequest, RequestView};
ghost use Rattle.rbac_use.specs.Needs.{AreNeeded, CanBeWritten, IsNeeded, IsPlainTarget, MayNeed};
ghost use Rattle.rbac_use.specs.Requests.{log_of, request_of};

use crate::log::Log;
use crate::next_binding::{next_allowing, subjects_of};
use crate::request::Request;
use rbac_model::Policy;
use rbac_subjects::SubjectIndex;
use rbac_terms::{Target, Word, before_stars};
use std::alloc::{AllocError, Global};
use std::str::from_utf8;

// The word that matches any verb, API group or resource.
const ANY: &[u8] = b"*";

// What a word begins with that matches a subresource of any resource.
const ANY_WITH: &[u8] = b"*/";

// The requests that the user needs.
pub(crate) fn needed<'a>(
    alloc: Global,
    policy: &Policy,
    log: &'a Log,
    user: &Word,
) -> Result<Vec<Request<'a>>, AllocError>
    ensures { IfOk result (λ all. (r : RequestView)
        → Contains (log_of all.items) r ↔ IsNeeded policy.now log.now user.now r) }
{
    let requests = log.requests(alloc)?;
    needed_of(alloc, policy, requests.as_slice(), user)
}

// Those of the requests that the user needs.
fn needed_of<'a>(
    alloc: Global,
    policy: &Policy,
    requests: &[Request<'a>],
    user: &Word,
) -> Result<Vec<Request<'a>>, AllocError>
    ensures { IfOk result (λ all. AreNeeded policy.now user.now requests.now all.items) }
{
    let index = subjects_of(alloc, policy)?;
    let mut all = Vec::new(alloc);
    for request in requests {
        if may_need(policy, &index, *request, user) {
            all.push(*request)?;
        }
    }
    Ok(all)
}

// Whether the user needs this request, if it is logged.
fn may_need(policy: &Policy, index: &SubjectIndex<'_>, request: Request<'_>, user: &Word) -> bool
    requires { index.now ≡ policy.now }
    ensures { IsTrue result ↔ MayNeed policy.now user.now (request_of request.entry) }
{
    if !is_of_user(request, user) || !can_be_written(request.verb, request.target) {
        return false;
    }
    is_allowed(policy, index, request)
}

// Whether the policy allows the request.
fn is_allowed(policy: &Policy, index: &SubjectIndex<'_>, request: Request<'_>) -> bool
    requires { index.now ≡ policy.now }
    ensures { IsTrue result ↔ AllowsRequest policy.now (request_of request.entry) }
{
    next_allowing(policy, index, request, 0).is_some()
}

// Whether the user of this name makes the request.
fn is_of_user(request: Request<'_>, user: &Word) -> bool
    ensures { IsTrue result ↔ IsUserNamed (request_of request.entry).who user.now }
{
    request.who.member_of().is_none() && request.who.name() == user.as_bytes()
}

// Whether a rule can allow this verb on this target alone: as a word of a rule, none of their words
// is a wildcard, and a document can have the rule.
fn can_be_written(verb: &Word, target: &Target) -> bool
    ensures { IsTrue result ↔ CanBeWritten verb.now target.now }
{
    verb.as_bytes() != ANY && is_plain_target(target)
}

// Whether no word of this target is a wildcard in a rule, and JSON can carry its path.
fn is_plain_target(target: &Target) -> bool
    ensures { IsTrue result ↔ IsPlainTarget target.now }
{
    if target.is_url() {
        return is_plain_path(target.text().as_bytes());
    }
    target.group().as_bytes() != ANY && is_plain_resource(target.text().as_bytes())
}

// Whether this resource text isn't a wildcard in a rule.
fn is_plain_resource(text: &[u8]) -> bool
    ensures { IsTrue result ↔ ((text.now ≢ codes "*") × (¬ BeginsWith text.now (codes "*/"))) }
{
    text != ANY && !text.starts_with(ANY_WITH)
}

// Whether this path isn't a wildcard in a rule, and JSON can carry it.
fn is_plain_path(path: &[u8]) -> bool
    ensures { IsTrue result ↔ ((¬ EndsInStar path.now) × IsUtf8 path.now) }
{
    !ends_in_star(path) && from_utf8(path).is_ok()
}

// Whether this path is a wildcard in a rule.
fn ends_in_star(path: &[u8]) -> bool
    ensures { IsTrue result ↔ EndsInStar path.now }
{
    before_stars(path).is_some()
}
