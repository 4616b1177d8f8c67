//! The lists that a universe is made of: derived from the objects that are kept and from the
//! catalogue, or given by Universe documents, list by list.
#![tactic(auto)]

mod derived_lists;
mod given_lists;
mod naming;
mod principals;
mod texts;
mod universe_lists;
mod wide;

pub use given_lists::{Account, GivenLists};
pub use principals::users_of;
pub use universe_lists::{fault_of_wide_rule, has_wide_rule, lists_of};
