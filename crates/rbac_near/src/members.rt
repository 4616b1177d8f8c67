//! Near grants to groups.

ghost use Rattle.std.specs.Prelude.{◌<◌, ◌↔◌, IfOk, IsTrue, MatchOption, OnOk, length};
ghost use Rattle.rbac_model.specs.Policies.{BindingNames, Live};
ghost use Rattle.rbac_near.specs.Members.{AddsGroups, FindsMembers, IsFirstLacking, LackNoMember};
ghost use Rattle.rbac_near.specs.Near.{request_of};

use crate::near::{Missing, Near, Request};
use rbac_model::{Policy, is_live, naming_place};
use rbac_terms::{Binding, Subject, Word, rule_allows};
use std::alloc::{AllocError, Global};
use std::collections::BTreeMap;

/// Near grants that lack a member, each under the name of its group.
pub(crate) type Members = BTreeMap<Word, Near>;

// The first near grant to each group whose members alone are missing.
pub(crate) fn members_of(
    alloc: Global,
    policy: &Policy,
    request: Request<'_>,
) -> Result<Members, AllocError>
    ensures { IfOk result (FindsMembers policy.now (request_of request.entry)
        (length policy.now.held.bindings)) }
{
    let mut found = BTreeMap::new(alloc);
    let places = policy.bindings().len();
    for place in 0..places {
        if let Some(number) = first_lacking(policy, request, place) {
            add_groups(alloc, number, policy.grant(number).binding, &mut found)?;
        }
    }
    Ok(found)
}

// The number of the first grant of the binding at this place that would allow the request to a
// member of a group, if the binding doesn't name who asks.
fn first_lacking(policy: &Policy, request: Request<'_>, place: usize) -> Option<u32>
    requires { place < length policy.now.held.bindings }
    ensures { MatchOption result (LackNoMember policy.now (request_of request.entry) place)
        (IsFirstLacking policy.now (request_of request.entry) place) }
{
    if !counts_for_others(&policy.bindings()[place], request) {
        return None;
    }
    let (from, end) = policy.grants_of(place);
    for number in from..end {
        if rule_allows(policy.grant(number).rule, request.verb, request.target) {
            return Some(number);
        }
    }
    None
}

// Whether the binding counts where the request is made, and doesn't name who asks.
fn counts_for_others(binding: &Binding, request: Request<'_>) -> bool
    ensures { IsTrue result
        ↔ (Live binding.now.namespace request.entry.namespace.now request.entry.target.now
        × (¬ BindingNames binding.now request.entry.who.now)) }
{
    is_live(binding, request.namespace, request.target)
        && naming_place(binding, request.who).is_none()
}

// Adds the near grant with this number for each group of its binding that has none yet.
fn add_groups(
    alloc: Global,
    number: u32,
    binding: &Binding,
    found: &mut Members,
) -> Result<(), AllocError>
    ensures { OnOk result (AddsGroups number binding.now.subjects found.old found.new) }
{
    for (place, subject) in binding.subjects.as_slice().iter().enumerate() {
        if let Subject::Group(group) = subject {
            let near = Near {
                missing: Missing::Member,
                number,
                subject_place: place,
            };
            let name = Word::from_slice(alloc, group.as_bytes())?;
            found.entry(name)?.or_insert(near);
        }
    }
    Ok(())
}
