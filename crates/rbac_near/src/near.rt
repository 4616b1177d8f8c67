//! Near grants.

ghost use Rattle.std.specs.Prelude.{◌≡◌, IfOk};
ghost use Rattle.rbac_model.specs.Policies.{IsPolicy};
ghost use Rattle.rbac_near.specs.Near.{AreNear, missing_rank, near_cmp, request_of};

use crate::members::members_of;
use crate::named::named_of;
use rbac_model::Policy;
use rbac_terms::{Principal, Target, Word};
use std::alloc::{AllocError, Global};
use std::cmp::Ordering;

/// The one thing that a grant lacks to allow a request (own).
#[derive(Clone, Copy, PartialEq, Eq, Debug, Drop)]
pub enum Missing {
    /// The binding counts in another namespace.
    Namespace,
    /// No verb of the rule matches.
    Verb,
    /// No API group of the rule matches.
    Group,
    /// No resource of the rule matches, but one is the same with another subresource, or with none.
    Subresource,
    /// The rule is limited to other object names.
    Name,
    /// The binding is for a group, and the user isn't known to be in it.
    Member,
}

impl Missing {
    // The place in the order in which near grants are told.
    fn rank(self) -> u8
        ensures { result ≡ missing_rank self }
    {
        match self {
            Missing::Namespace => 0,
            Missing::Verb => 1,
            Missing::Group => 2,
            Missing::Subresource => 3,
            Missing::Name => 4,
            Missing::Member => 5,
        }
    }
}

/// A request.
#[derive(Clone, Copy)]
pub struct Request<'a> {
    /// Who asks.
    pub who: &'a Principal,
    /// The namespace; empty for the whole cluster.
    pub namespace: &'a Word,
    /// The verb.
    pub verb: &'a Word,
    /// The resource or the URL.
    pub target: &'a Target,
    /// Whether a binding of another namespace is worth telling; it isn't for a type that is
    /// cluster-scoped.
    pub is_namespaced: bool,
}

/// A near grant: a grant that would allow a request but for one thing (own).
#[derive(Clone, Copy, Debug, Drop)]
pub struct Near {
    /// What is missing.
    pub missing: Missing,
    /// The number of the grant in its policy.
    pub number: u32,
    /// The place, from 0, of the first subject of the grant's binding that names who asks; for a
    /// missing member, of the first subject for the group.
    pub subject_place: usize,
}

/// The grants that would allow the request but for one thing (own): each once, in order of what is
/// missing, then of grants. Where membership is missing, each group has one, by its first such
/// grant. A grant that lacks two things isn't told, nor is one for another resource, another URL or
/// another user. Fails only if it runs out of memory.
pub fn near_grants(
    alloc: Global,
    policy: &Policy,
    request: Request<'_>,
) -> Result<Vec<Near>, AllocError>
    ensures near { IfOk result (λ found. AreNear policy.now (request_of request.entry) found.items) }
    ensures policy { IfOk result (λ _. IsPolicy policy.now) }
{
    let mut found = named_of(alloc, policy, request)?;
    let members = members_of(alloc, policy, request)?;
    for (_, near) in members {
        found.push(near)?;
    }
    found.sort_unstable_by(|a, b| cmp_near(*a, *b));
    found.dedup_by(|a, b| cmp_near(*a, *b).is_eq());
    Ok(found)
}

// How near grants compare: by what is missing, then by their numbers, then by their subjects.
fn cmp_near(a: Near, b: Near) -> Ordering
    ensures { result ≡ near_cmp a b }
{
    let missing = a.missing.rank().cmp(&b.missing.rank());
    missing.then(
        a.number
            .cmp(&b.number)
            .then(a.subject_place.cmp(&b.subject_place)),
    )
}
