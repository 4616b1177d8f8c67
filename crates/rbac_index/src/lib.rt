//! An index over a policy. It answers which grants allow a verb on a target, whether a principal
//! may use the verb and why, and who may. The contracts of this crate are about the policy alone;
//! the index only makes the answers fast.
#![tactic(auto)]

mod alike;
mod deciding;
mod holders;
mod index;
mod laws;
mod merge;
mod numbers;
mod ranks;
mod reason;
mod requested;
mod rule_lists;
mod rule_rows;
mod sightings;
mod starts;

pub use deciding::why_allowed;
pub use holders::{Holder, Holders};
pub use index::Index;
pub use laws::{
    any_name_is_some_name, holders_are_one, holders_decide, keys_explain, listed_holders_are_one,
    listed_holders_decide,
};
pub use numbers::GrantNos;
pub use rbac_subjects::IndexFault;
pub use reason::why_held;
pub use requested::{Requested, matches_stem};
