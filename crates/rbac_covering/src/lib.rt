//! Covering: whether a rule allows everything that another rule allows, whatever the request.
#![tactic(auto)]

mod coverage;
mod ordered_rule;
mod word_lookup;

pub use coverage::{covers, has_resource, has_url};
pub use ordered_rule::{OrderedRule, ordered_rules};
pub use word_lookup::WordLookup;
