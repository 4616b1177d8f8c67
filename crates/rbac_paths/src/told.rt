//! By which step one node takes over another. `bind` and `escalate` leave out nodes that are
//! included in others: such a node doesn't count as taken over by these steps.

ghost use Rattle.std.specs.Prelude.{◌≡◌, ◌↔◌, ◌⊎◌, Any, IfOk, IsTrue, MatchOption, None, Some};
ghost use Rattle.std.specs.Option.{option_copied};
ghost use Rattle.rbac_model.specs.Policies.{PolicyView};
ghost use Rattle.rbac_paths.specs.Asked.{AreAskedBy, AreAskedFor};
ghost use Rattle.rbac_paths.specs.Joints.{DecideOn, IsAboutNode, MatchesOverOthers, MayTakeBy};
ghost use Rattle.rbac_paths.specs.Nodes.{ClusterRoleIn, EverythingIn, node_of};
ghost use Rattle.rbac_paths.specs.Rows.{AreOfStep};
ghost use Rattle.rbac_paths.specs.Steps.{table};
ghost use Rattle.rbac_paths.specs.Taking.{RowTakes};
ghost use Rattle.rbac_paths.specs.TakingOver.{MayGoOn, TakesOver, WritesRoles};
ghost use Rattle.rbac_paths.specs.Told.{HoldingTakes, HoldingsBind, HoldingsHaveAll, HoldingsTake};
ghost use Rattle.rbac_paths.specs.Told.{HoldingsTell, IsFirstTold, IsUntoldOf};
ghost use Rattle.rbac_steps.specs.declared.steps.Step.TheVariants.{Bind};

use crate::holding::Holding;
use crate::node::Node;
use crate::rows::{AskedRow, WordRow, rows_of};
use rbac_steps::Step;
use rbac_terms::{ClusterRole, Rule, Word};
use std::alloc::{AllocError, Global};
use std::marker::Model;

/// A step, with its rows of the table. Contracts see the step alone.
#[derive(Drop)]
pub(crate) struct StepRows {
    step: Step,
    rows: Vec<WordRow>,
}

impl Model for StepRows {
    ghost use Rattle.rbac_paths.specs.Rows.{AreOfStep};
    ghost use Rattle.rbac_paths.specs.Steps.{table};
    ghost use Rattle.rbac_steps.specs.declared.steps.Step.{Step};

    ghost Value = { Step };

    ghost view = { λ s. s.step };

    ghost invariant = { λ s. AreOfStep s.step table s.rows.items };
}

impl StepRows {
    // The step with its rows.
    fn of(alloc: Global, step: Step) -> Result<Self, AllocError>
        ensures { IfOk result (λ rows. rows ≡ step) }
    {
        let rows = rows_of(alloc, step)?;
        Ok(StepRows { step, rows })
    }

    // The rows of the step.
    pub(crate) fn rows(&self) -> &[WordRow]
        ensures { AreOfStep self.now table result.now }
    {
        self.rows.as_slice()
    }

    // The step.
    pub(crate) fn step(&self) -> Step
        ensures { result ≡ self.now }
    {
        self.step
    }

    // Whether the rule matches a row of the step that takes over roles or everything.
    pub(crate) fn may_take(&self, rule: &Rule) -> bool
        ensures { IsTrue result ↔ MayTakeBy rule.now self.now }
    {
        some_matches_over_others(self.rows.as_slice(), rule)
    }

    // Whether a node with these holdings can take over the node `to` by the step.
    fn takes(&self, holdings: &[Holding<'_>], to: Node<'_>) -> bool
        ensures { IsTrue result ↔ HoldingsTake self.now holdings.now (node_of to.entry) }
    {
        some_takes(self.rows.as_slice(), holdings, to)
    }

    // The rows of the step that can take over the node, each with the namespace and the name in its
    // requests that do. These are found once, and not again for each holding.
    pub(crate) fn asked_for<'a>(
        &'a self,
        alloc: Global,
        to: Node<'a>,
    ) -> Result<Vec<AskedRow<'a>>, AllocError>
        ensures { IfOk result (λ asked. AreAskedBy self.now (node_of to.entry) asked.items) }
    {
        asked_rows(alloc, self.rows.as_slice(), to)
    }

    // Whether the holding allows a request of the step that takes over the node.
    pub(crate) fn is_taken_by(&self, held: &Holding<'_>, to: Node<'_>) -> bool
        ensures { IsTrue result ↔ HoldingTakes self.now held.now (node_of to.entry) }
    {
        takes_some(self.rows.as_slice(), held, to)
    }
}

// Whether the rule matches one of these rows that takes over roles or everything.
fn some_matches_over_others(rows: &[WordRow], rule: &Rule) -> bool
    ensures { IsTrue result ↔ Any (MatchesOverOthers rule.now) rows.now }
{
    rows.iter().any(|row| row.matches_over_others(rule))
}

// Whether the holding allows a request of one of these rows that takes over the node.
fn takes_some(rows: &[WordRow], held: &Holding<'_>, node: Node<'_>) -> bool
    ensures { IsTrue result
        ↔ Any (λ row. RowTakes row held.now.home held.now.rule (node_of node.entry)) rows.now }
{
    rows.iter().any(|row| row.is_taken_by(held, node))
}

// Whether one of these holdings allows a request of one of these rows that takes over the node.
fn some_takes(rows: &[WordRow], holdings: &[Holding<'_>], node: Node<'_>) -> bool
    ensures { IsTrue result
        ↔ Any (λ row. Any (λ h. RowTakes row h.home h.rule (node_of node.entry)) holdings.now)
        rows.now }
{
    rows.iter().any(|row| row.is_taken_by_some(holdings, node))
}

// The rows among these that can take over the node, each with the namespace and the name in its
// requests that do.
fn asked_rows<'a>(
    alloc: Global,
    rows: &'a [WordRow],
    node: Node<'a>,
) -> Result<Vec<AskedRow<'a>>, AllocError>
    ensures { IfOk result (λ asked. AreAskedFor rows.now (node_of node.entry) asked.items) }
{
    let mut asked = Vec::new(alloc);
    for row in rows {
        if let Some(one) = row.asked_for(node) {
            asked.push(one)?;
        }
    }
    Ok(asked)
}

/// These steps, in their order, each with its rows.
pub(crate) fn rows_of_steps(alloc: Global, steps: &[Step]) -> Result<Vec<StepRows>, AllocError>
    ensures { IfOk result (λ all. all.items ≡ steps.now) }
{
    let mut all = Vec::new(alloc);
    for step in steps {
        all.push(StepRows::of(alloc, *step)?)?;
    }
    Ok(all)
}

/// The first of these steps by which the node `from` takes over the node `to`; `None` exactly if it
/// doesn't. `holdings` are the holdings of `from`, or enough of them to decide that.
pub(crate) fn first_told<'s>(
    steps: &'s [StepRows],
    holdings: &[Holding<'_>],
    from: Node<'_>,
    to: Node<'_>,
) -> Option<&'s StepRows>
    ensures { (p : PolicyView) → DecideOn p steps.now (node_of from.entry) holdings.now
        (IsAboutNode (node_of to.entry))
        → MatchOption result
        (¬ TakesOver p steps.now (node_of from.entry) (node_of to.entry))
        (λ rows. IsFirstTold p steps.now (node_of from.entry) (node_of to.entry) rows.now) }
{
    if !goes_on(from, to) {
        return None;
    }
    for rows in steps {
        if is_told(rows, steps, holdings, to) {
            return Some(rows);
        }
    }
    None
}

// Whether the node `from` may lead to the node `to`. Everything in the whole cluster leads no
// further, and everything in a namespace leads only to users and groups.
fn goes_on(from: Node<'_>, to: Node<'_>) -> bool
    ensures { IsTrue result ↔ MayGoOn (node_of from.entry) (node_of to.entry) }
{
    match from {
        Node::Everything(None) => false,
        Node::Everything(Some(_)) => matches!(to, Node::Somebody(_)),
        _ => true,
    }
}

// Whether a node with these holdings can take over the node `to` by this one of the steps, and the
// step doesn't leave it out.
fn is_told(rows: &StepRows, steps: &[StepRows], holdings: &[Holding<'_>], to: Node<'_>) -> bool
    ensures { IsTrue result
        ↔ HoldingsTell steps.now holdings.now (node_of to.entry) rows.now }
{
    rows.takes(holdings, to) && !(writes(rows.step()) && is_untold(steps, holdings, to))
}

// Whether this step writes rules of roles, or bindings: `bind` and `escalate` do.
fn writes(step: Step) -> bool
    ensures { IsTrue result ↔ WritesRoles step }
{
    step == Step::Bind || step == Step::Escalate
}

// Whether `bind` and `escalate` leave out the node `to`, because a node with these holdings can
// take over a node that includes it by these steps.
fn is_untold(steps: &[StepRows], holdings: &[Holding<'_>], to: Node<'_>) -> bool
    ensures { IsTrue result ↔ IsUntoldOf steps.now holdings.now (node_of to.entry) }
{
    match to {
        Node::Somebody(_) => false,
        Node::ClusterRole(role, Some(namespace)) => {
            has_all(steps, holdings, None) || has_more(steps, holdings, role, namespace)
        }
        Node::ClusterRole(_, None) => has_all(steps, holdings, None),
        Node::Role(role) => {
            has_all(steps, holdings, None) || has_all(steps, holdings, Some(&role.namespace))
        }
        Node::Everything(scope) => scope.is_some() && has_all(steps, holdings, None),
    }
}

// Whether these holdings can take over everything in the namespace by `bind` or `escalate`, or the
// cluster role in the whole cluster by `bind`, if these are among the steps.
fn has_more(
    steps: &[StepRows],
    holdings: &[Holding<'_>],
    role: &ClusterRole,
    namespace: &Word,
) -> bool
    ensures { IsTrue result ↔ (HoldingsHaveAll steps.now holdings.now (Some namespace.now)
        ⊎ HoldingsBind steps.now holdings.now (ClusterRoleIn role.now None)) }
{
    has_all(steps, holdings, Some(namespace))
        || binds(steps, holdings, Node::ClusterRole(role, None))
}

// Whether these holdings can take over everything in the scope by `bind` or `escalate`, if these
// are among the steps.
#[tactic(auto, unfolding(crate::specs::Told::HoldingsHaveAll))]
pub(crate) fn has_all(steps: &[StepRows], holdings: &[Holding<'_>], scope: Option<&Word>) -> bool
    ensures { IsTrue result
        ↔ HoldingsHaveAll steps.now holdings.now (option_copied scope.entry) }
{
    steps.iter().any(|rows| takes_all(rows, holdings, scope))
}

// Whether this step is `bind` or `escalate`, and these holdings can take over everything in the
// scope by it.
fn takes_all(rows: &StepRows, holdings: &[Holding<'_>], scope: Option<&Word>) -> bool
    ensures { IsTrue result ↔ (WritesRoles rows.now
        × HoldingsTake rows.now holdings.now (EverythingIn (option_copied scope.entry))) }
{
    writes(rows.step()) && rows.takes(holdings, Node::Everything(scope))
}

// Whether these holdings can take over the node by `bind`, if that is among the steps.
#[tactic(auto, unfolding(crate::specs::Told::HoldingsBind))]
fn binds(steps: &[StepRows], holdings: &[Holding<'_>], to: Node<'_>) -> bool
    ensures { IsTrue result ↔ HoldingsBind steps.now holdings.now (node_of to.entry) }
{
    steps.iter().any(|rows| binds_by(rows, holdings, to))
}

// Whether this step is `bind`, and these holdings can take over the node by it.
fn binds_by(rows: &StepRows, holdings: &[Holding<'_>], to: Node<'_>) -> bool
    ensures { IsTrue result
        ↔ ((rows.now ≡ Bind) × HoldingsTake rows.now holdings.now (node_of to.entry)) }
{
    rows.step() == Step::Bind && rows.takes(holdings, to)
}
