//! The grants of one binding whose rules somebody has.

ghost use Rattle.std.specs.Prelude.{ℕ, ◌≤◌, ◌<◌, ◌+◌, MatchOption, length};
ghost use Rattle.rbac_model.specs.Policies.{IsPolicy};
ghost use Rattle.rbac_rules.specs.Runs.{HasAt, HasNone, IsEffectiveRun, IsNextEffectiveRun};
ghost use Rattle.rbac_rules.specs.Runs.{IsRunOf};

use rbac_model::{Policy, may_be_live_in, naming_place};
use rbac_terms::{Principal, Scope};

// The grants of one binding that are left, from number `no` up to `end`, the place of the first
// subject that names the principal, and the place after the binding's.
#[derive(Clone, Copy)]
pub(crate) struct Run {
    pub(crate) no: u32,
    pub(crate) end: u32,
    pub(crate) subject_place: usize,
    pub(crate) next_place: usize,
}

// The grants of the binding at this place, if it has some and the principal has their rules.
fn run_of(policy: &Policy, who: &Principal, scope: &Scope, place: usize) -> Option<Run>
    requires { place < length policy.now.held.bindings }
    ensures run { MatchOption result
        (HasNone policy.now who.now scope.now place (place + 1))
        (IsRunOf policy.now who.now scope.now place) }
    ensures policy { IsPolicy policy.now }
{
    let binding = &policy.bindings()[place];
    if !may_be_live_in(scope, binding) {
        return None;
    }
    let subject_place = naming_place(binding, who)?;
    let (no, end) = policy.grants_of(place);
    if no == end {
        return None;
    }
    Some(Run {
        no,
        end,
        subject_place,
        next_place: place + 1,
    })
}

// The run of the next rule: this run if it has grants left, otherwise the next one.
pub(crate) fn next_run(policy: &Policy, who: &Principal, scope: &Scope, run: Run) -> Option<Run>
    requires { IsEffectiveRun policy.now who.now scope.now run }
    ensures next { MatchOption result
        ((n at : ℕ) → run.no ≤ n → ¬ HasAt policy.now who.now scope.now n at)
        (IsNextEffectiveRun policy.now who.now scope.now run.no) }
    ensures policy { IsPolicy policy.now }
{
    let places = policy.bindings().len();
    if run.no < run.end {
        return Some(run);
    }
    for place in run.next_place..places {
        if let Some(next) = run_of(policy, who, scope, place) {
            return Some(next);
        }
    }
    None
}
