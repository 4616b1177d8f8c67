//! The requests that each binding allows.

ghost use Rattle.std.specs.Prelude.{◌≡◌, [], IfOk, OnOk, length, replicate};
ghost use Rattle.rbac_use.specs.ByBinding.{AddsWhere, AreAskedByBinding};
ghost use Rattle.rbac_use.specs.Requests.{request_of};
ghost use Rattle.rbac_use.specs.Used.{IsAllowedAt};

use crate::next_binding::{next_allowing, subjects_of};
use crate::request::Request;
use rbac_model::Policy;
use rbac_subjects::SubjectIndex;
use rbac_terms::Items;
use std::alloc::{AllocError, Global};

// For each binding, those of the requests that it allows.
pub(crate) fn asked_by_binding<'a>(
    alloc: Global,
    policy: &Policy,
    requests: &[Request<'a>],
) -> Result<Vec<Items<Request<'a>>>, AllocError>
    ensures { IfOk result (λ lists. AreAskedByBinding policy.now requests.now lists.items) }
{
    let index = subjects_of(alloc, policy)?;
    let mut lists = no_requests(alloc, policy.bindings().len())?;
    for request in requests {
        add_to_each(policy, &index, *request, &mut lists)?;
    }
    Ok(lists)
}

// This many lists without requests.
fn no_requests<'a>(alloc: Global, count: usize) -> Result<Vec<Items<Request<'a>>>, AllocError>
    ensures { IfOk result (λ lists. lists.items ≡ replicate count []) }
{
    vec![in alloc; Items::new(alloc); count]
}

// Adds the request to the list of each binding that allows it.
fn add_to_each<'a>(
    policy: &Policy,
    index: &SubjectIndex<'_>,
    request: Request<'a>,
    lists: &mut Vec<Items<Request<'a>>>,
) -> Result<(), AllocError>
    requires index { index.now ≡ policy.now }
    requires lists { length lists.old.items ≡ length policy.now.held.bindings }
    ensures { OnOk result (AddsWhere
        (λ place. IsAllowedAt policy.now place (request_of request.entry))
        request.entry lists.old.items lists.new.items) }
{
    let mut from = 0;
    while let Some(place) = next_allowing(policy, index, request, from) {
        lists[place].push(request)?;
        from = place + 1;
    }
    Ok(())
}
