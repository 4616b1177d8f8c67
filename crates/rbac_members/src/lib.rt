//! The users whom documents list in the groups that hold a permission.
#![tactic(auto)]

mod candidates;
mod laws;
mod listings;
mod member;
mod members;

pub use laws::members_are_one;
pub use member::Member;
pub use members::members_of;
