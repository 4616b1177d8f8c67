//! The first grant that allows a request.

ghost use Rattle.std.specs.Prelude.{◌≡◌, ◌<◌, ◌≤◌, ◌+◌, length, slice_get, Some, MatchOption};
ghost use Rattle.std.specs.Prelude.{IfSome};
ghost use Rattle.rbac_model.specs.Policies.{Allows, IsFirst, IsPolicy};
ghost use Rattle.rbac_index.specs.Deciding.{IsWhyShown, NoneAmong, IsFirstAmong, IsFirstAllowing};
ghost use Rattle.rbac_index.specs.Deciding.{NoneAllowing};
ghost use Rattle.rbac_index.specs.HolderViews.{requested_of};

use crate::requested::{Requested, allows_requested};
use rbac_model::{Policy, Why, naming_place};
use rbac_subjects::{cluster_wide, live_role_bindings};
use rbac_terms::{Binding, Principal, Target, Word};

// The binding at this place.
pub(crate) fn binding_at<'p>(policy: &'p Policy, place: usize) -> &'p Binding
    requires { place < length policy.now.held.bindings }
    ensures binding { slice_get policy.now.held.bindings place ≡ Some result.now }
    ensures policy { IsPolicy policy.now }
{
    let bindings: &'p [Binding] = policy.bindings();
    &bindings[place]
}

// The number of the first grant of the binding at this place whose rule allows the verb on what is
// requested.
pub(crate) fn first_allowing(
    policy: &Policy,
    place: usize,
    verb: &Word,
    requested: Requested<'_>,
) -> Option<u32>
    ensures { MatchOption result
        (NoneAllowing policy.now verb.now (requested_of requested.entry) place)
        (IsFirstAllowing policy.now verb.now (requested_of requested.entry) place) }
{
    let (from, to) = policy.grants_of(place);
    for no in from..to {
        if allows_requested(policy.grant(no).rule, verb, requested) {
            return Some(no);
        }
    }
    None
}

// Why the binding at this place grants the request, whether or not it is live.
fn by_binding<'p>(
    policy: &'p Policy,
    place: usize,
    principal: &Principal,
    verb: &Word,
    target: &Target,
) -> Option<Why<'p>>
    requires { place < length policy.now.held.bindings }
    ensures why { MatchOption result
        (NoneAmong policy.now principal.now verb.now target.now place (place + 1))
        (IsFirstAmong policy.now principal.now verb.now target.now place (place + 1)) }
    ensures policy { IsPolicy policy.now }
{
    let binding = binding_at(policy, place);
    let Some(subject_place) = naming_place(binding, principal) else {
        return None;
    };
    let requested = Requested::ThisTarget(target);
    let Some(no) = first_allowing(policy, place, verb, requested) else {
        return None;
    };
    let grant = policy.grant(no);
    Some(Why {
        binding,
        source: grant.source,
        rule_place: grant.place,
        subject_place,
    })
}

// Why the first binding at these places that grants the request does so, whether or not it is live.
pub(crate) fn first_among<'p>(
    policy: &'p Policy,
    from: usize,
    to: usize,
    principal: &Principal,
    verb: &Word,
    target: &Target,
) -> Option<Why<'p>>
    requires { to ≤ length policy.now.held.bindings }
    ensures { MatchOption result
        (NoneAmong policy.now principal.now verb.now target.now from to)
        (IsFirstAmong policy.now principal.now verb.now target.now from to) }
{
    for place in from..to {
        if let Some(why) = by_binding(policy, place, principal, verb, target) {
            return Some(why);
        }
    }
    None
}

/// Why the principal may use the verb on the target in this namespace; `None` if it may not (Using
/// RBAC Authorization). The answer is the first grant that allows the request, in order of
/// bindings, then of their rules (own). Looks only at the bindings that are live in the namespace,
/// needs no index, and doesn't allocate.
pub fn why_allowed<'p>(
    policy: &'p Policy,
    principal: &Principal,
    namespace: &Word,
    verb: &Word,
    target: &Target,
) -> Option<Why<'p>>
    ensures why { MatchOption result
        (¬ Allows policy.now.held principal.now namespace.now verb.now target.now)
        (IsWhyShown policy.now principal.now namespace.now verb.now target.now) }
    ensures first { IfSome result
        (λ why. IsFirst policy.now.held principal.now namespace.now verb.now target.now
        why.binding.now) }
{
    let bindings = policy.bindings();
    let by_cluster = first_among(policy, 0, cluster_wide(bindings), principal, verb, target);
    if by_cluster.is_some() {
        return by_cluster;
    }
    let (from, to) = live_role_bindings(bindings, namespace, target);
    first_among(policy, from, to, principal, verb, target)
}
