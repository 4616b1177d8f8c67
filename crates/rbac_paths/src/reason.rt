//! Reasons: the grant or the rule by which a node takes over another node, or allows a request.

ghost use Rattle.std.specs.Prelude.{◌≡◌, ◌≤◌, ◌<◌, ◌↔◌, All, Any, Contains, IfOk, IsSomeAnd, IsTrue, List, MatchOption};
ghost use Rattle.std.specs.Prelude.{◌++◌, ◌∷◌, [], length, ℕ};
ghost use Rattle.std.specs.Option.{option_copied};
ghost use Rattle.rbac_model.specs.Lists.{IsFirstAt};
ghost use Rattle.rbac_model.specs.Policies.{GrantView, IsPolicy};
ghost use Rattle.rbac_paths.specs.Aims.{AimView, Attains, GrantServes, Serves, ToTakeOver, aim_of};
ghost use Rattle.rbac_paths.specs.Asked.{AllowsAskedRow, AreAskedBy};
ghost use Rattle.rbac_paths.specs.Deciding.{AreNumbersOf, AreTakingNumbers, IsLeastTaking};
ghost use Rattle.rbac_paths.specs.Nodes.{ClusterRoleIn, NodeView, OwnRole, Somebody, node_of};
ghost use Rattle.rbac_paths.specs.Reasons.{AnswersFirstIn, AnswersFirstServing, IsReason, reason_view};
ghost use Rattle.rbac_paths.specs.Told.{HasItsRole};
ghost use Rattle.rbac_steps.specs.declared.steps.Step.{Step};
ghost use Rattle.rbac_terms.specs.declared.matching.Rule.{Rule};

use crate::aim::Aim;
use crate::holding::{Holding, sources_of};
use crate::node::Node;
use crate::rows::AskedRow;
use crate::told::StepRows;
use rbac_model::{Grant, Policy, SourceRole};
use rbac_subjects::{SubjectIndex, SubjectPlaces};
use rbac_terms::{ClusterRole, Principal, Role, Rules, Word};
use std::alloc::{AllocError, Global};

/// Why a node takes over another node by a step, or allows a request (own).
#[derive(Clone, Copy)]
pub enum Reason<'p> {
    /// For a user or a group: the first grant that allows it the step or the request, and the
    /// place, from 0, of the first subject of the grant's binding that names the user or the group.
    Grant(Grant<'p>, usize),
    /// For a role: its first rule that allows the step or the request, by the role where the rule
    /// is written and the rule's place in that role, from 0.
    Rule(SourceRole<'p>, usize),
    /// For everything in a scope, which allows each request there.
    All,
}

/// The reason why the node `from` attains the aim; `None` only if it doesn't. For everything in a
/// scope the result is always `Reason::All`. Fails only if it runs out of memory.
pub(crate) fn reason_of<'p>(
    alloc: Global,
    policy: &'p Policy,
    index: &SubjectIndex<'p>,
    subjects: &SubjectPlaces<'p>,
    from: Node<'p>,
    aim: Aim<'_>,
) -> Result<Option<Reason<'p>>, AllocError>
    requires policy { IsPolicy policy.now }
    requires index { index.now ≡ policy.now }
    requires subjects { subjects.now ≡ policy.now }
    requires role { HasItsRole policy.now.held (node_of from) }
    ensures { IfOk result (λ r. MatchOption r
        (¬ Attains policy.now (node_of from.entry) (aim_of aim.entry))
        (λ r. IsReason policy.now (node_of from.entry) (aim_of aim.entry) (reason_view r))) }
{
    match from {
        Node::Somebody(who) => Ok(by_grant(policy, index, subjects, aim, who)),
        Node::ClusterRole(role, scope) => by_cluster_role(alloc, policy, aim, role, scope),
        Node::Role(role) => Ok(by_role(policy, aim, role)),
        Node::Everything(_) => Ok(Some(Reason::All)),
    }
}

/// The reason why the node `from` takes over the node `to` by the step of these rows; `None` only
/// if it doesn't. If `from` is a user or a group, `numbers` has exactly the numbers of its grants
/// whose rules match a row of some steps, and this step is one of them.
pub(crate) fn reason_by<'p>(
    alloc: Global,
    policy: &'p Policy,
    index: &SubjectIndex<'p>,
    subjects: &SubjectPlaces<'p>,
    from: Node<'p>,
    numbers: &[u32],
    rows: &StepRows,
    to: Node<'_>,
) -> Result<Option<Reason<'p>>, AllocError>
    requires policy { IsPolicy policy.now }
    requires index { index.now ≡ policy.now }
    requires subjects { subjects.now ≡ policy.now }
    requires role { HasItsRole policy.now.held (node_of from) }
    requires within { All (λ n. n < length policy.now.grants) numbers.now }
    ensures { (steps : List Step) → Contains steps rows.now
        → AreNumbersOf policy.now steps (node_of from.entry) numbers.now
        → IfOk result (λ r. MatchOption r
        (¬ Attains policy.now (node_of from.entry) (ToTakeOver rows.now (node_of to.entry)))
        (λ r. IsReason policy.now (node_of from.entry) (ToTakeOver rows.now (node_of to.entry))
        (reason_view r))) }
{
    match from {
        Node::Somebody(who) => by_numbers(alloc, policy, subjects, numbers, rows, who, to),
        _ => reason_of(
            alloc,
            policy,
            index,
            subjects,
            from,
            Aim::TakeOver(rows, to),
        ),
    }
}

// The first of a principal's grants by which it takes over the node `to`, as a reason.
fn by_numbers<'p>(
    alloc: Global,
    policy: &'p Policy,
    subjects: &SubjectPlaces<'p>,
    numbers: &[u32],
    rows: &StepRows,
    who: &Principal,
    to: Node<'_>,
) -> Result<Option<Reason<'p>>, AllocError>
    requires policy { IsPolicy policy.now }
    requires subjects { subjects.now ≡ policy.now }
    requires within { All (λ n. n < length policy.now.grants) numbers.now }
    ensures { (steps : List Step) → Contains steps rows.now
        → AreTakingNumbers policy.now steps who.now numbers.now
        → IfOk result (λ r. MatchOption r
        (¬ Attains policy.now (Somebody who.now) (ToTakeOver rows.now (node_of to.entry)))
        (λ r. IsReason policy.now (Somebody who.now) (ToTakeOver rows.now (node_of to.entry))
        (reason_view r))) }
{
    let asked = rows.asked_for(alloc, to)?;
    let Some(no) = least_taking(policy, numbers, asked.as_slice()) else {
        return Ok(None);
    };
    Ok(by_number(policy, subjects, who, no))
}

// The least of these numbers whose grant allows a request of one of these rows.
fn least_taking(policy: &Policy, numbers: &[u32], asked: &[AskedRow<'_>]) -> Option<u32>
    requires { All (λ n. n < length policy.now.grants) numbers.now }
    ensures { (step : Step) (y : NodeView) → AreAskedBy step y asked.now
        → IsLeastTaking policy.now step y numbers.now result }
{
    let mut least = None;
    for no in numbers {
        least = lesser_taking(policy, least, *no, asked);
    }
    least
}

// This number, if it is less than the least so far and its grant allows a request of one of these
// rows; otherwise the least so far.
fn lesser_taking(
    policy: &Policy,
    least: Option<u32>,
    no: u32,
    asked: &[AskedRow<'_>],
) -> Option<u32>
    requires { no < length policy.now.grants }
    ensures { (step : Step) (y : NodeView) (numbers : List ℕ) → AreAskedBy step y asked.now
        → IsLeastTaking policy.now step y numbers least
        → IsLeastTaking policy.now step y (numbers ++ no ∷ []) result }
{
    if !is_less(no, least) {
        return least;
    }
    if some_allowed(asked, &Holding::by(policy.grant(no))) {
        Some(no)
    } else {
        least
    }
}

// Whether the holding allows a request of one of these rows.
fn some_allowed(asked: &[AskedRow<'_>], held: &Holding<'_>) -> bool
    ensures { IsTrue result ↔ Any (AllowsAskedRow held.now) asked.now }
{
    asked.iter().any(|row| row.is_allowed_by(held))
}

// Whether the number is less than the other; true if there is no other.
fn is_less(number: u32, other: Option<u32>) -> bool
    ensures { IsTrue result ↔ MatchOption other (Unit {0}) (λ n. number < n) }
{
    match other {
        Some(other) => number < other,
        None => true,
    }
}

// The first grant by which a principal attains the aim, as a reason.
fn by_grant<'p>(
    policy: &'p Policy,
    index: &SubjectIndex<'p>,
    subjects: &SubjectPlaces<'p>,
    aim: Aim<'_>,
    who: &Principal,
) -> Option<Reason<'p>>
    requires policy { IsPolicy policy.now }
    requires index { index.now ≡ policy.now }
    requires subjects { subjects.now ≡ policy.now }
    ensures { MatchOption result
        (¬ Attains policy.now (Somebody who.now) (aim_of aim.entry))
        (λ r. IsReason policy.now (Somebody who.now) (aim_of aim.entry) (reason_view r)) }
{
    let no = first_serving(policy, index, who, aim)?;
    by_number(policy, subjects, who, no)
}

// The grant with this number as a reason, with the first subject of its binding that names the
// principal.
fn by_number<'p>(
    policy: &'p Policy,
    subjects: &SubjectPlaces<'p>,
    who: &Principal,
    no: u32,
) -> Option<Reason<'p>>
    requires subjects { subjects.now ≡ policy.now }
    requires within { no < length policy.now.grants }
    ensures { (aim : AimView) (g : GrantView)
        → IsFirstAt (GrantServes aim who.now) policy.now.grants no g
        → IsSomeAnd result (λ r. IsReason policy.now (Somebody who.now) aim (reason_view r)) }
{
    let grant = policy.grant(no);
    let subject = subjects.naming(grant.binding_place, grant.binding, who)?;
    Some(Reason::Grant(grant, subject))
}

// The number of the first grant by which a principal attains the aim.
fn first_serving(
    policy: &Policy,
    index: &SubjectIndex<'_>,
    who: &Principal,
    aim: Aim<'_>,
) -> Option<u32>
    requires { index.now ≡ policy.now }
    ensures { AnswersFirstServing policy.now (aim_of aim.entry) who.now result }
{
    let mut from = 0;
    while let Some((start, end)) = index.next_named(who, from) {
        if let Some(no) = first_in_run(policy, start, end, aim) {
            return Some(no);
        }
        from = end;
    }
    None
}

// The number of the first of the grants `start..end` whose rule serves the aim.
fn first_in_run(policy: &Policy, start: u32, end: u32, aim: Aim<'_>) -> Option<u32>
    requires ordered { start ≤ end }
    requires within { end ≤ length policy.now.grants }
    ensures { AnswersFirstIn policy.now (aim_of aim.entry) start end result }
{
    for no in start..end {
        if aim.is_served_by(&Holding::by(policy.grant(no))) {
            return Some(no);
        }
    }
    None
}

// The first rule by which a Role, bound in its namespace, attains the aim, as a reason.
fn by_role<'p>(policy: &Policy, aim: Aim<'_>, role: &'p Role) -> Option<Reason<'p>>
    requires { IsPolicy policy.now }
    ensures { MatchOption result
        (¬ Attains policy.now (OwnRole role.now) (aim_of aim.entry))
        (λ r. IsReason policy.now (OwnRole role.now) (aim_of aim.entry) (reason_view r)) }
{
    let place = first_rule(aim, Some(&role.namespace), &role.rules)?;
    Some(Reason::Rule(SourceRole::Role(role), place))
}

// The first rule by which a cluster role, bound in this scope, attains the aim, as a reason. It is
// a rule that is written in the role, or one that the role gathers.
fn by_cluster_role<'p>(
    alloc: Global,
    policy: &'p Policy,
    aim: Aim<'_>,
    role: &'p ClusterRole,
    scope: Option<&Word>,
) -> Result<Option<Reason<'p>>, AllocError>
    requires policy { IsPolicy policy.now }
    requires role { Contains policy.now.held.cluster_roles role.now }
    ensures { IfOk result (λ r. MatchOption r
        (¬ Attains policy.now
        (ClusterRoleIn role.now (option_copied scope.entry)) (aim_of aim.entry))
        (λ r. IsReason policy.now
        (ClusterRoleIn role.now (option_copied scope.entry)) (aim_of aim.entry)
        (reason_view r))) }
{
    let sources = sources_of(alloc, policy, role)?;
    for source in sources.as_slice() {
        if let Some(place) = first_rule(aim, scope, &source.rules) {
            return Ok(Some(Reason::Rule(SourceRole::ClusterRole(source), place)));
        }
    }
    Ok(None)
}

// The place of the first of these rules that serves the aim if the rules count in `home`: in this
// namespace, or in the whole cluster if there is none.
fn first_rule(aim: Aim<'_>, home: Option<&Word>, rules: &Rules) -> Option<usize>
    ensures { MatchOption result
        (¬ Any (Serves (aim_of aim.entry) (option_copied home.entry)) rules.now)
        (λ at. (r : Rule)
        × IsFirstAt (Serves (aim_of aim.entry) (option_copied home.entry)) rules.now at r) }
{
    for (place, rule) in rules.as_slice().iter().enumerate() {
        if aim.is_served_by(&Holding { home, rule }) {
            return Some(place);
        }
    }
    None
}
