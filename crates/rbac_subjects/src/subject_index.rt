//! The bindings of a policy, found by the principals that they name.

ghost use Rattle.std.specs.Prelude.{◌≡◌, ◌≤◌, ◌↔◌, ℕ, [], length, IsTrue, IfOk, IfSome, All};
ghost use Rattle.std.specs.Prelude.{option_copied, true, false, Contains};
ghost use Rattle.rbac_terms.specs.Principals.{Who, given_of};
ghost use Rattle.rbac_model.specs.Holders.{IsKeyFor};
ghost use Rattle.rbac_model.specs.Policies.{HasSubject, IsPolicy};
ghost use Rattle.rbac_subjects.specs.Bound.{AreNamedPlaces, AreRunsFrom, HasRoleBindings};
ghost use Rattle.rbac_subjects.specs.Bound.{IsBoundTo, IsNamedBy};
ghost use Rattle.rbac_subjects.specs.Bound.{AnswersNextNamespace, AnswersNextRun};
ghost use Rattle.rbac_subjects.specs.Keyed.{AreKeyed, IsOfLive};
ghost use Rattle.rbac_subjects.specs.Least.{most_kept};

use crate::fault::IndexFault;
use crate::first_places::first_places;
use crate::first_runs::{FirstRuns, runs_at};
use crate::live_bindings::{Live, everywhere, first_from, live_for_some, of_namespace};
use crate::named_places::places_under;
use crate::subject_keys::{Keyed, keyed_by, next_for};
use crate::subject_principals::principals_of;
use rbac_model::Policy;
use rbac_terms::{Principal, Word};
use std::alloc::{AllocError, Global};
use std::marker::Model;

/// The bindings of a policy that have grants, listed under the keys of their subjects. So the
/// bindings that name a principal are found without a look at the others.
#[derive(Drop)]
pub struct SubjectIndex<'p> {
    policy: &'p Policy,
    named: Vec<Keyed>,
}

impl<'p> Model for SubjectIndex<'p> {
    ghost use Rattle.rbac_model.specs.Policies.{PolicyView};
    ghost use Rattle.rbac_subjects.specs.Keyed.{AreKeyed};

    ghost Value = { PolicyView };

    ghost view = { λ i. i.policy.now };

    ghost invariant = { λ i. AreKeyed i.policy.now i.named.items };
}

impl<'p> SubjectIndex<'p> {
    /// The index of this policy's bindings. Fails only if it runs out of memory, with X1 NoMemory.
    pub fn build(alloc: Global, policy: &'p Policy) -> Result<Self, IndexFault>
        ensures { IfOk result (λ i. i ≡ policy.now) }
    {
        let named = keyed_by(alloc, policy)?;
        Ok(SubjectIndex { policy, named })
    }

    /// Whether some grant belongs to a binding that names the principal. Doesn't allocate.
    pub fn has_grants(&self, principal: &Principal) -> bool
        ensures { IsTrue result ↔ ((number : ℕ) × IsNamedBy self.now principal.now number) }
    {
        let live = everywhere(self.policy.bindings());
        next_for(self.named.as_slice(), principal, live, 0).is_some()
    }

    /// The least namespace, from this one on, where a RoleBinding that has grants names the
    /// principal; `None` if there is none. Doesn't allocate.
    pub fn next_namespace(&self, principal: &Principal, namespace: &Word) -> Option<&Word>
        ensures { AnswersNextNamespace self.now principal.now namespace.now (option_copied result) }
    {
        let bindings = self.policy.bindings();
        let from = first_from(bindings, namespace);
        let live = everywhere(bindings);
        let Some(place) = next_for(self.named.as_slice(), principal, live, from) else {
            return None;
        };
        let Some(binding) = bindings.get(place) else {
            return None;
        };
        binding.namespace.as_ref()
    }

    /// Whether a RoleBinding is in this namespace. Doesn't allocate.
    pub fn has_role_bindings(&self, namespace: &Word) -> bool
        ensures has { IsTrue result ↔ HasRoleBindings self.now.held namespace.now }
        ensures policy { IsPolicy self.now }
    {
        let (from, to) = of_namespace(self.policy.bindings(), namespace);
        from < to
    }

    /// The next grants, from this number on, of bindings that name the principal and are live in
    /// this namespace for some target: a run of numbers, from the first up to, but not including,
    /// the second. `None` if there are no more such grants. Doesn't allocate.
    pub fn next_run(&self, principal: &Principal, namespace: &Word, from: u32) -> Option<(u32, u32)>
        ensures { AnswersNextRun self.now (IsBoundTo self.now principal.now namespace.now)
            from result }
    {
        let live = live_for_some(self.policy.bindings(), namespace);
        next_live_run(self.policy, self.named.as_slice(), principal, live, from)
    }

    /// The next grants, from this number on, of bindings that name the principal, wherever they are
    /// live: a run of numbers, from the first up to, but not including, the second. `None` if there
    /// are no more such grants. Doesn't allocate.
    pub fn next_named(&self, principal: &Principal, from: u32) -> Option<(u32, u32)>
        ensures next { AnswersNextRun self.now (IsNamedBy self.now principal.now) from result }
        ensures within { IfSome result (λ run. run.1 ≤ length self.now.grants) }
    {
        let bindings = self.policy.bindings();
        let all = everywhere(bindings);
        next_live_run(self.policy, self.named.as_slice(), principal, all, from)
    }

    /// The places of the policy's bindings that have grants and name the principal, wherever they
    /// are live, in any order and with repeats. Each key of the principal is looked up once. Fails
    /// only if it runs out of memory.
    pub fn named_places(
        &self,
        alloc: Global,
        principal: &Principal,
    ) -> Result<Vec<usize>, AllocError>
        ensures { IfOk result (λ places. AreNamedPlaces self.now principal.now places.items) }
    {
        let end = self.policy.bindings().len();
        places_under(alloc, self.named.as_slice(), principal, end)
    }

    /// The principals that the subjects of the policy's bindings stand for, whether or not the
    /// bindings have grants, in any order and with repeats (own). No user has given groups. Fails
    /// only if it runs out of memory.
    pub fn principals(&self, alloc: Global) -> Result<Vec<Principal>, AllocError>
        ensures exact { IfOk result
            (λ found. (who : Who) → Contains found.items who ↔ HasSubject self.now.held who) }
        ensures given { IfOk result (λ found. All (λ who. given_of who ≡ []) found.items) }
    {
        principals_of(alloc, self.policy, self.named.as_slice())
    }

    /// The first runs of the grants of bindings that name the principal and are live in this
    /// namespace for some target, at most `MOST_RUNS`, and whether there are no others. Doesn't
    /// allocate.
    pub fn first_runs(&self, principal: &Principal, namespace: &Word) -> FirstRuns
        ensures runs { AreRunsFrom self.now principal.now namespace.now
            result.are_all 0 result.runs.items }
        ensures others { result.are_all ≡ false
            → ¬ AreRunsFrom self.now principal.now namespace.now true 0 result.runs.items }
        ensures most { result.are_all ≡ false → length result.runs.items ≡ most_kept }
    {
        let live = live_for_some(self.policy.bindings(), namespace);
        let places = first_places(self.named.as_slice(), principal, live);
        FirstRuns {
            runs: runs_at(self.policy, places.kept()),
            are_all: places.are_all(),
        }
    }
}

// The next grants, from this number on, of live bindings that are listed under a key of the
// principal.
fn next_live_run(
    policy: &Policy,
    named: &[Keyed],
    principal: &Principal,
    live: Live,
    from: u32,
) -> Option<(u32, u32)>
    requires { AreKeyed policy.now named.now }
    ensures { AnswersNextRun policy.now
        (IsOfLive policy.now named.now live (IsKeyFor principal.now)) from result }
{
    if policy.len() <= from {
        return None;
    }
    let here = policy.place(from).binding;
    let Some(place) = next_for(named, principal, live, here) else {
        return None;
    };
    let (start, end) = policy.grants_of(place);
    Some((start.max(from), end))
}
