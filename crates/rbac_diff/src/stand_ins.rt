//! Stand-ins: the principals that stand for everybody whom a permission is for.

ghost use Rattle.std.specs.Prelude.{◌≡◌, ◌≤◌, [], IfOk, OnOk, Some};
ghost use Rattle.std.specs.Prelude.{codes, length, MatchOption};
ghost use Rattle.std.specs.Option.{option_copied};
ghost use Rattle.rbac_terms.specs.Text.{Text};
ghost use Rattle.rbac_terms.specs.Principals.{AsMember, AsUser, given_of};
ghost use Rattle.rbac_diff.specs.Covering.{stand_ins};
ghost use Rattle.rbac_diff.specs.StandIns.{AddsRulesIn, AddsRules, AreStandInRules, one_or_two};

use rbac_model::Policy;
use rbac_subjects::SubjectIndex;
use rbac_terms::{ANONYMOUS, AUTHENTICATED, Principal, Rule, UNAUTHENTICATED, Word, Words};
use std::alloc::{AllocError, Global};
use std::marker::Model;

// A policy, with the principals that stand in for members of groups.
pub(crate) struct AskedPolicy<'p> {
    policy: &'p Policy,
    subjects: SubjectIndex<'p>,
    signed_in: Principal,
    anonymous: Principal,
    nowhere: Word,
}

impl Drop for AskedPolicy<'_> {
    fn drop(self) {
        let Self {
            policy,
            subjects,
            signed_in,
            anonymous,
            nowhere,
        } = self;
    }
}

impl<'p> Model for AskedPolicy<'p> {
    ghost use Rattle.std.specs.Prelude.{◌≡◌, [], codes};
    ghost use Rattle.rbac_terms.specs.Principals.{AsUser, AsMember};
    ghost use Rattle.rbac_model.specs.Policies.{PolicyView};

    ghost Value = { PolicyView };

    ghost view = { λ a. a.policy.now };

    ghost invariant = { λ a. (a.signed_in ≡ AsMember (codes "system:authenticated"))
        × (a.anonymous ≡ AsUser (codes "system:anonymous") []) × (a.nowhere ≡ [])
        × (a.subjects ≡ a.policy.now) };
}

impl<'p> AskedPolicy<'p> {
    pub(crate) fn of(alloc: Global, policy: &'p Policy) -> Result<Self, AllocError>
        ensures { IfOk result (λ a. a ≡ policy.now) }
    {
        Ok(AskedPolicy {
            policy,
            subjects: subjects_of(alloc, policy)?,
            signed_in: signed_in(alloc)?,
            anonymous: anonymous(alloc)?,
            nowhere: Word::new(alloc),
        })
    }

    // The rules that apply to everyone whom the principal stands for, wherever a binding in that
    // namespace, or in none, is live.
    pub(crate) fn rules_of(
        &self,
        alloc: Global,
        principal: &Principal,
        namespace: Option<&Word>,
    ) -> Result<Vec<&'p Rule>, AllocError>
        requires { ¬ (option_copied namespace ≡ Some []) }
        ensures { given_of principal.now ≡ [] → IfOk result
            (λ rules. AreStandInRules self.now principal.now (option_copied namespace.entry)
            rules.items) }
    {
        let namespace = namespace.unwrap_or(&self.nowhere);
        let (first, second) = self.stand_ins(principal);
        let mut rules = Vec::new(alloc);
        add_rules(self.policy, &self.subjects, first, namespace, &mut rules)?;
        let Some(second) = second else {
            return Ok(rules);
        };
        add_rules(self.policy, &self.subjects, second, namespace, &mut rules)?;
        Ok(rules)
    }

    // The one or two stand-ins of a principal: a binding that names a stand-in names everyone whom
    // the principal stands for.
    fn stand_ins<'a>(&'a self, principal: &'a Principal) -> (&'a Principal, Option<&'a Principal>)
        ensures { given_of principal.now ≡ []
            → one_or_two result.0.now (option_copied result.1) ≡ stand_ins principal.now }
    {
        let Some(group) = principal.member_of() else {
            return (principal, None);
        };
        if group == UNAUTHENTICATED {
            (&self.anonymous, None)
        } else {
            (principal, Some(&self.signed_in))
        }
    }
}

// The bindings of a policy by their subjects.
fn subjects_of<'p>(alloc: Global, policy: &'p Policy) -> Result<SubjectIndex<'p>, AllocError>
    ensures { IfOk result (λ subjects. subjects ≡ policy.now) }
{
    match SubjectIndex::build(alloc, policy) {
        Ok(subjects) => Ok(subjects),
        Err(_) => Err(AllocError),
    }
}

// A member of the group of all authenticated users.
fn signed_in(alloc: Global) -> Result<Principal, AllocError>
    ensures { IfOk result (λ member. member ≡ AsMember (codes "system:authenticated")) }
{
    let group = Word::from_slice(alloc, AUTHENTICATED)?;
    match Principal::group(alloc, &group) {
        Ok(member) => Ok(member),
        Err(_) => Err(AllocError),
    }
}

// The user of a request without credentials.
fn anonymous(alloc: Global) -> Result<Principal, AllocError>
    ensures { IfOk result (λ user. user ≡ AsUser (codes "system:anonymous") []) }
{
    let name = Word::from_slice(alloc, ANONYMOUS)?;
    match Principal::user(alloc, &name, &Words::new(alloc)) {
        Ok(user) => Ok(user),
        Err(_) => Err(AllocError),
    }
}

// Adds the rules of the grants whose bindings name the principal and are live in that namespace for
// some target.
#[tactic(auto, using(crate::proofs::BoundRules::run_within))]
fn add_rules<'p>(
    policy: &'p Policy,
    subjects: &SubjectIndex<'_>,
    principal: &Principal,
    namespace: &Word,
    rules: &mut Vec<&'p Rule>,
) -> Result<(), AllocError>
    requires { subjects.now ≡ policy.now }
    ensures { OnOk result
        (AddsRules policy.now principal.now namespace.now (length policy.now.grants)
        rules.old.items rules.new.items) }
{
    let mut from = 0;
    while let Some((start, end)) = subjects.next_run(principal, namespace, from) {
        add_run(policy, start, end, rules)?;
        from = end;
    }
    Ok(())
}

// Adds the rules of the grants numbered from `start` up to `end`.
fn add_run<'p>(
    policy: &'p Policy,
    start: u32,
    end: u32,
    rules: &mut Vec<&'p Rule>,
) -> Result<(), AllocError>
    requires ordered { start ≤ end }
    requires within { end ≤ length policy.now.grants }
    ensures { OnOk result (AddsRulesIn policy.now start end rules.old.items rules.new.items) }
{
    for no in start..end {
        rules.push(policy.grant(no).rule)?;
    }
    Ok(())
}
