//! Which permissions of which bindings a set of requests uses.
#![tactic(auto)]

mod asked;
mod bindings;
mod by_binding;
mod grouping;
mod laws;
mod least;
mod line;
mod log;
mod needs;
mod next_binding;
mod permission;
mod request;
mod rules;
mod unused;
mod usable;

pub use laws::{
    least_allows_what_is_needed, least_is_one, rules_are_used_by_permissions, unused_lines_are_one,
    what_is_unused_isnt_needed,
};
pub use least::{Least, NamespaceRules, least_of};
pub use line::put_unused;
pub use log::Log;
pub use permission::TargetPlaces;
pub use unused::{Part, Unused, unused_lines};
