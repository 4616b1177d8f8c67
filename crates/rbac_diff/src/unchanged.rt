//! Bindings that grant nothing that the other policy doesn't.

ghost use Rattle.std.specs.Prelude.{◌≡◌, ◌<◌, ◌↔◌, IfOk, IsTrue, length};
ghost use Rattle.rbac_diff.specs.CoveredRoles.{AreCoveredRoles};
ghost use Rattle.rbac_diff.specs.Unchanged.{GrantsNoMore, HasCoveredRules, IsGrantCovered};

use crate::covered_roles::CoveredRoles;
use crate::covering::covers_rule;
use crate::subjects::are_among;
use rbac_model::Policy;
use rbac_terms::{Rule, Words};
use std::alloc::{AllocError, Global};

// Whether the binding at `place` grants no more than the other policy's binding at `at`: both are
// in the same namespace or in none, and the other binding has all of this one's subjects, and rules
// that cover this one's.
pub(crate) fn grants_no_more(
    alloc: Global,
    own: &Policy,
    place: usize,
    other: &Policy,
    at: usize,
    covered: &CoveredRoles,
) -> Result<bool, AllocError>
    requires within { place < length own.now.held.bindings }
    requires covered { AreCoveredRoles own.now.held covered.now other.now.held }
    ensures { IfOk result (λ no_more. IsTrue no_more → GrantsNoMore own.now place other.now) }
{
    let binding = &own.bindings()[place];
    let Some(held) = other.bindings().get(at) else {
        return Ok(false);
    };
    if binding.namespace != held.namespace || !are_rules_covered(own, place, other, at, covered)? {
        return Ok(false);
    }
    are_among(alloc, binding.subjects.as_slice(), held.subjects.as_slice())
}

// Whether the rules of the binding at `place` are covered, one by one, by those of the other
// policy's binding at `at`.
fn are_rules_covered(
    own: &Policy,
    place: usize,
    other: &Policy,
    at: usize,
    covered: &CoveredRoles,
) -> Result<bool, AllocError>
    requires { AreCoveredRoles own.now.held covered.now other.now.held }
    ensures { IfOk result
        (λ are. IsTrue are → HasCoveredRules own.now place other.now at) }
{
    let (from, end) = own.grants_of(place);
    let (other_from, other_end) = other.grants_of(at);
    if end - from != other_end - other_from {
        return Ok(false);
    }
    for no in from..end {
        if !is_grant_covered(own, no, other, other_from + (no - from), covered)? {
            return Ok(false);
        }
    }
    Ok(true)
}

// Whether the rule of grant `no` is covered by the rule of the other policy's grant `other_no`.
fn is_grant_covered(
    own: &Policy,
    no: u32,
    other: &Policy,
    other_no: u32,
    covered: &CoveredRoles,
) -> Result<bool, AllocError>
    requires own { no < length own.now.grants }
    requires other { other_no < length other.now.grants }
    requires covered { AreCoveredRoles own.now.held covered.now other.now.held }
    ensures { IfOk result
        (λ is. IsTrue is → IsGrantCovered own.now no other.now other_no) }
{
    if covered.have_rule(own.place(no), other.place(other_no)) {
        return Ok(true);
    }
    covers_rule(other.grant(other_no).rule, own.grant(no).rule)
}

// Whether the rules are the same, word for word.
#[tactic(auto, using(crate::proofs::SameRules::same_lists))]
pub(crate) fn same_rule(a: &Rule, b: &Rule) -> bool
    ensures { IsTrue result → a.now ≡ b.now }
{
    same_resources(a, b) && same_words(&a.verbs, &b.verbs) && same_words(&a.urls, &b.urls)
}

// Whether the rules are for the same resources, in the same words.
fn same_resources(a: &Rule, b: &Rule) -> bool
    ensures groups { IsTrue result → a.now.groups ≡ b.now.groups }
    ensures resources { IsTrue result → a.now.resources ≡ b.now.resources }
    ensures names { IsTrue result → a.now.resource_names ≡ b.now.resource_names }
{
    same_words(&a.resources, &b.resources)
        && same_words(&a.resource_names, &b.resource_names)
        && same_words(&a.groups, &b.groups)
}

fn same_words(a: &Words, b: &Words) -> bool
    ensures { IsTrue result ↔ (a.now ≡ b.now) }
{
    a.as_slice() == b.as_slice()
}
