//! The bindings of a policy, found by the principals that they name, and where bindings are live.
//! The contracts of this crate are about the policy alone, and not about an index.
#![tactic(auto)]

mod fault;
mod first_places;
mod first_runs;
mod least_places;
mod live_bindings;
mod named_places;
mod principal_keys;
mod subject_index;
mod subject_keys;
mod subject_places;
mod subject_principals;

pub use fault::IndexFault;
pub use first_runs::{FirstRuns, Run};
pub use least_places::MOST_KEPT as MOST_RUNS;
pub use live_bindings::{cluster_wide, live_role_bindings};
pub use subject_index::SubjectIndex;
pub use subject_places::SubjectPlaces;
