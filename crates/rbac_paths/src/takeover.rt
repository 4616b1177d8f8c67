//! What rules take over by the rows of the table that they match.

ghost use Rattle.std.specs.Prelude.{◌≡◌, ◌↔◌, Any, IfOk, IsTrue, OnOk};
ghost use Rattle.rbac_paths.specs.Joints.{IsOverNobody};
ghost use Rattle.rbac_paths.specs.Rows.{MatchesRow};
ghost use Rattle.rbac_paths.specs.Takeovers.{AreTakeovers, HasTakeover, takeover_of};
ghost use Rattle.rbac_paths.specs.SharedWords.{AddsWhere};
ghost use Rattle.rbac_paths.specs.declared.takeover.Takeover.{Takeover};

use crate::rows::WordRow;
use crate::table::{Counts, Names, Over};
use crate::told::StepRows;
use rbac_terms::{Items, Rule};
use std::alloc::{AllocError, Global};

/// What a row of the table takes over, where its requests count, and which object names they have.
/// Many rows have the same takeover: for example, all rows of `run`, `exec` and `secrets`.
#[derive(Clone, Copy, PartialEq, Eq, Drop)]
pub(crate) struct Takeover {
    pub(crate) names: Names,
    pub(crate) counts: Counts,
    pub(crate) over: Over,
}

/// What a rule takes over by the rows of these steps that it matches, each takeover once.
pub(crate) fn takeovers_of(
    alloc: Global,
    steps: &[StepRows],
    rule: &Rule,
) -> Result<Items<Takeover>, AllocError>
    ensures { IfOk result (AreTakeovers steps.now rule.now) }
{
    let mut all = Vec::new(alloc);
    for step in steps {
        add_of_step(step, rule, &mut all)?;
    }
    Ok(Items::from_vec(all))
}

// Adds what the rule takes over by the rows of this step.
fn add_of_step(step: &StepRows, rule: &Rule, all: &mut Vec<Takeover>) -> Result<(), AllocError>
    ensures { OnOk result (AddsWhere
        (λ t. HasTakeover rule.now t step.now) all.old.items all.new.items) }
{
    for row in step.rows() {
        add_of_row(row, rule, all)?;
    }
    Ok(())
}

// Adds what the rule takes over by the row, if it matches the row. If the same takeover was added
// before, the rule isn't compared with the row.
fn add_of_row(row: &WordRow, rule: &Rule, all: &mut Vec<Takeover>) -> Result<(), AllocError>
    ensures { OnOk result (AddsWhere
        (λ t. (takeover_of row.now ≡ t) × MatchesRow row.now rule.now)
        all.old.items all.new.items) }
{
    let takeover = row.takeover();
    if !all.contains(&takeover) && row.matches(rule) {
        all.push(takeover)?;
    }
    Ok(())
}

/// Whether one of these takeovers is of roles or of everything.
pub(crate) fn some_is_over_nobody(all: &[Takeover]) -> bool
    ensures { IsTrue result ↔ Any (λ t. IsOverNobody t.over) all.now }
{
    all.iter().any(|takeover| is_over_nobody(takeover.over))
}

/// Whether this is roles or everything, and not users, groups, service accounts or nothing.
pub(crate) fn is_over_nobody(over: Over) -> bool
    ensures { IsTrue result ↔ IsOverNobody over }
{
    match over {
        Over::Users | Over::Groups | Over::Bootstrappers | Over::Accounts | Over::Nothing => false,
        Over::Everything | Over::EverythingInNamespace | Over::ClusterRoles | Over::Roles => true,
    }
}
