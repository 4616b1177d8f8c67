//! The reaches of a policy's grants: which targets of a universe their rules match, and how many
//! entries of reaches were read.
#![tactic(auto)]

mod matches;
mod meter;
mod ordered_rule;
mod reach;
mod spans;
mod stems;
mod subresources;
mod url_prefixes;

pub use meter::Meter;
pub use reach::{Reach, reaches_of};
