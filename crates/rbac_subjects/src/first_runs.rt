//! The first runs of the grants of bindings at some places.

ghost use Rattle.std.specs.Prelude.{◌≤◌, length};
ghost use Rattle.std.specs.List.{AllZip};
ghost use Rattle.rbac_subjects.specs.Bound.{IsRunAt};
ghost use Rattle.rbac_subjects.specs.Least.{most_kept};

use crate::least_places::MOST_KEPT;
use arrayvec::ArrayVec;
use rbac_model::Policy;

/// Consecutive grants of a binding: those with the numbers `start..end`.
#[derive(Clone, Copy, Default)]
pub struct Run {
    /// The number of the first grant.
    pub start: u32,
    /// The number after the last grant's.
    pub end: u32,
}

/// The first runs of the grants whose bindings name a principal and may be live in a namespace.
#[derive(Drop)]
pub struct FirstRuns {
    /// The runs, in order of grants; at most `MOST_RUNS`.
    pub runs: ArrayVec<Run, MOST_KEPT>,
    /// Whether there are no other runs.
    pub are_all: bool,
}

// The grants of the bindings at these places, one run for each. Doesn't allocate.
pub(crate) fn runs_at(policy: &Policy, places: &[usize]) -> ArrayVec<Run, MOST_KEPT>
    requires { length places.now ≤ most_kept }
    ensures { AllZip (IsRunAt policy.now) places.now result.items }
{
    let mut runs = ArrayVec::new();
    for place in places {
        let (start, end) = policy.grants_of(*place);
        runs.push(Run { start, end });
    }
    runs
}
