//! The index of a policy.

ghost use Rattle.std.specs.Prelude.{◌≡◌, ◌<◌, ◌↔◌, ℕ, length, slice_get, Some, All};
ghost use Rattle.std.specs.Prelude.{Any, Contains, IfOk, IfSome, MatchOption, OnOk, ◌++◌, ◌∷◌, []};
ghost use Rattle.std.specs.List.Sorted.{IsStrictlyIncreasing};
ghost use Rattle.rbac_model.specs.Sources.{grant_of};
ghost use Rattle.rbac_model.specs.Policies.{Allows, IsFirst, IsOfBinding, IsPolicy};
ghost use Rattle.rbac_model.specs.Holders.{AreHolders};
ghost use Rattle.rbac_index.specs.Indexed.{AreCandidates, HaveNumbers, IsAllowedBy, AreAlike};
ghost use Rattle.rbac_index.specs.Indexed.{numbers_by};
ghost use Rattle.rbac_index.specs.Deciding.{IsWhyShown};
ghost use Rattle.rbac_index.specs.HolderViews.{requested_of};
ghost use Rattle.rbac_index.specs.Holding.{AllowsByHolders};
ghost use Rattle.rbac_index.specs.Requested.{ThisTarget};
ghost use Rattle.rbac_index.specs.WhoCan.{AreListedHolders};

use crate::alike::earlier_alike;
use crate::deciding::why_allowed;
use crate::holders::Holders;
use crate::merge::{Numbers, merged};
use crate::numbers::GrantNos;
use crate::requested::{Requested, allows_requested};
use crate::rule_lists::{ListedRules, listed_rules, matching};
use crate::rule_rows::{Written, rows_of};
use crate::sightings::sightings_of;
use crate::starts::starts_by_row;
use rbac_model::{Grant, Policy, Why};
use rbac_subjects::{IndexFault, SubjectIndex};
use rbac_terms::{Principal, Scope, Target, Word};
use std::alloc::{AllocError, Global};
use std::marker::Model;

/// The rules of a policy's roles, each listed once under the words of its resources, and the runs
/// of grants by each role's rules. A question looks only at rules that may match and at bindings
/// that may be live.
pub struct Index<'p> {
    policy: &'p Policy,
    listed: ListedRules<'p>,
    // Where the runs of grants by each row of rules begin.
    starts: Vec<GrantNos>,
    subjects: SubjectIndex<'p>,
}

impl Drop for Index<'_> {
    fn drop(self) {
        let Self {
            policy,
            listed,
            starts,
            subjects,
        } = self;
    }
}

impl<'p> Model for Index<'p> {
    ghost use Rattle.rbac_model.specs.Policies.{PolicyView};
    ghost use Rattle.std.specs.Prelude.{◌≡◌};
    ghost use Rattle.rbac_index.specs.Indexed.{IsIndexOf};

    ghost Value = { PolicyView };

    ghost view = { λ i. i.policy.now };

    ghost invariant = { λ i. IsIndexOf i.policy.now i.listed.rules.items i.listed.lists
        i.starts.items × (i.subjects ≡ i.policy.now) };
}

impl<'p> Index<'p> {
    /// The index of this policy. X1 NoMemory if it runs out of memory.
    pub fn build(alloc: Global, policy: &'p Policy) -> Result<Self, IndexFault>
        ensures index { IfOk result (λ i. i ≡ policy.now) }
        ensures policy { IsPolicy policy.now }
    {
        let rows = rows_of(alloc, policy.objects())?;
        let listed = listed_rules(alloc, rows.as_slice())?;
        let starts = starts_by_row(alloc, policy, rows.as_slice())?;
        let subjects = SubjectIndex::build(alloc, policy)?;
        Ok(Index {
            policy,
            listed,
            starts,
            subjects,
        })
    }

    /// The policy that is indexed.
    pub fn policy(&self) -> &'p Policy
        ensures { result.now ≡ self.now }
    {
        self.policy
    }

    /// The policy's bindings by the keys of their subjects.
    pub fn subjects(&self) -> &SubjectIndex<'p>
        ensures { result.now ≡ self.now }
    {
        &self.subjects
    }

    /// How many grants the policy has.
    pub fn len(&self) -> u32
        ensures { result ≡ length self.now.grants }
    {
        self.policy.len()
    }

    /// The grant with this number, from 0.
    pub fn grant(&self, no: u32) -> Grant<'p>
        requires { no < length self.now.grants }
        ensures grant { slice_get self.now.grants no ≡ Some (grant_of result) }
        ensures binding { IsOfBinding self.now no result.binding_place }
    {
        let policy: &'p Policy = self.policy;
        policy.grant(no)
    }

    /// An earlier grant by the same rule as the grant with this number, if one is known. Doesn't
    /// allocate.
    pub fn earlier_alike(&self, no: u32) -> Option<u32>
        requires { no < length self.now.grants }
        ensures { IfSome result (λ first. (first < no) × AreAlike self.now first no) }
    {
        earlier_alike(self.policy, self.starts.as_slice(), no)
    }

    /// The numbers, ascending, of the grants whose rule allows the verb on the target, regardless
    /// of where their bindings are live and whom these name. X1 NoMemory if it runs out of memory.
    pub fn candidates(
        &self,
        alloc: Global,
        verb: &Word,
        target: &Target,
    ) -> Result<GrantNos, IndexFault>
        ensures { IfOk result (λ ns. AreCandidates self.now verb.now (ThisTarget target.now) ns) }
    {
        Ok(self.candidates_for(alloc, verb, Requested::ThisTarget(target))?)
    }

    // The numbers, ascending, of the grants whose rule allows the verb on what is requested.
    fn candidates_for(
        &self,
        alloc: Global,
        verb: &Word,
        requested: Requested<'_>,
    ) -> Result<GrantNos, AllocError>
        ensures { IfOk result
            (λ ns. AreCandidates self.now verb.now (requested_of requested.entry) ns) }
    {
        let rules = self.listed.rules.as_slice();
        let starts = self.starts.as_slice();
        let target = requested.target();
        if target.is_url() {
            let places = self.listed.lists.with_urls.as_slice();
            allowed_by(alloc, rules, starts, places, verb, requested)
        } else {
            let places = matching(alloc, &self.listed.lists.by_word, target.text())?;
            allowed_by(alloc, rules, starts, places.as_slice(), verb, requested)
        }
    }

    /// Why the principal may use the verb on the target in this namespace: the answer of
    /// [`why_allowed`] for the policy. Doesn't allocate.
    pub fn can_i(
        &self,
        principal: &Principal,
        namespace: &Word,
        verb: &Word,
        target: &Target,
    ) -> Option<Why<'p>>
        ensures why { MatchOption result
            (¬ Allows self.now.held principal.now namespace.now verb.now target.now)
            (IsWhyShown self.now principal.now namespace.now verb.now target.now) }
        ensures first { IfSome result
            (λ why. IsFirst self.now.held principal.now namespace.now verb.now target.now
            why.binding.now) }
    {
        let policy: &'p Policy = self.policy;
        why_allowed(policy, principal, namespace, verb, target)
    }

    /// Who may use the verb on the target in this namespace: each holder once, in order of the
    /// first binding and subject through which each holds the permission (own). A service account
    /// without a namespace holds nothing through a ClusterRoleBinding. X1 NoMemory if it runs out
    /// of memory.
    pub fn who_can(
        &self,
        alloc: Global,
        namespace: &Word,
        verb: &Word,
        target: &Target,
    ) -> Result<Holders<'p>, IndexFault>
        ensures holders { IfOk result (AreHolders self.now.held namespace.now verb.now target.now) }
        ensures law { IfOk result
            (AllowsByHolders self.now.held namespace.now verb.now target.now) }
    {
        let requested = Requested::ThisTarget(target);
        let scope = Scope::Namespace(Word::from_slice(alloc, namespace.as_bytes())?);
        self.holders(alloc, &scope, false, verb, requested)
    }

    /// Who may use the verb on what is requested, in this scope: each holder once, with the first
    /// binding through which it holds the permission, or, with `every`, once with each such
    /// binding. The holders are in order of bindings and subjects (own). X1 NoMemory if it runs out
    /// of memory.
    pub fn holders(
        &self,
        alloc: Global,
        scope: &Scope,
        every: bool,
        verb: &Word,
        requested: Requested<'_>,
    ) -> Result<Holders<'p>, IndexFault>
        ensures { IfOk result
            (AreListedHolders self.now.held scope.now every verb.now
            (requested_of requested.entry)) }
    {
        let policy: &'p Policy = self.policy;
        let numbers = self.candidates_for(alloc, verb, requested)?;
        let seen = sightings_of(alloc, policy, numbers.as_slice(), scope, requested)?;
        Ok(Holders::first_of(alloc, every, seen)?)
    }
}

// The numbers of the grants by the rules at these places that allow the verb on what is requested.
fn allowed_by(
    alloc: Global,
    rules: &[Written<'_>],
    starts: &[GrantNos],
    places: &[usize],
    verb: &Word,
    requested: Requested<'_>,
) -> Result<GrantNos, AllocError>
    requires rules { All (λ at. at < length rules.now) places.now }
    requires numbers { All (HaveNumbers starts.now) rules.now }
    ensures ascending { IfOk result (λ ns. IsStrictlyIncreasing ns) }
    ensures exact { IfOk result
        (λ ns. (n : ℕ) → Contains ns n
        ↔ IsAllowedBy rules.now starts.now places.now verb.now (requested_of requested.entry) n) }
{
    let lists = allowing(alloc, rules, starts, places, verb, requested)?;
    Ok(merged(alloc, lists)?)
}

// The numbers of the grants by each rule at these places that allows the verb on what is requested,
// rule by rule.
fn allowing<'a>(
    alloc: Global,
    rules: &[Written<'_>],
    starts: &'a [GrantNos],
    places: &[usize],
    verb: &Word,
    requested: Requested<'_>,
) -> Result<Vec<Numbers<'a>>, AllocError>
    requires rules { All (λ at. at < length rules.now) places.now }
    requires numbers { All (HaveNumbers starts.now) rules.now }
    ensures ascending { IfOk result (λ v. All IsStrictlyIncreasing v.items) }
    ensures exact { IfOk result
        (λ v. (n : ℕ) → Any (λ l. Contains l n) v.items
        ↔ IsAllowedBy rules.now starts.now places.now verb.now (requested_of requested.entry) n) }
{
    let mut lists = Vec::new(alloc);
    for at in places {
        let written = rules[*at];
        if allows_requested(written.rule, verb, requested) {
            push_numbers(starts, written, &mut lists)?;
        }
    }
    Ok(lists)
}

// Adds the numbers of the grants by this rule.
fn push_numbers<'a>(
    starts: &'a [GrantNos],
    written: Written<'_>,
    lists: &mut Vec<Numbers<'a>>,
) -> Result<(), AllocError>
    requires { HaveNumbers starts.now written }
    ensures ascending { OnOk result (IsStrictlyIncreasing (numbers_by starts.now written.entry)) }
    ensures added { OnOk result
        (lists.new.items ≡ lists.old.items ++ numbers_by starts.now written.entry ∷ []) }
{
    lists.push(Numbers {
        starts: starts[written.row].as_slice(),
        place: written.place,
    })?;
    Ok(())
}
