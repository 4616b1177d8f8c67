//! What deserves a second look in the roles of an export.
#![tactic(auto)]

mod accounts;
mod candidates;
mod dangling_role;
mod escalation;
mod finding;
mod laws;
mod linting;
mod prefixes;
mod redundant_rule;
mod replaced_object;
mod roles;
mod rule_set;
mod rules_by_word;
mod stale_aggregate;
mod unused_role;
mod wanted;

pub use finding::{Finding, Findings};
pub use laws::{findings_are_one_list, wanted_findings_are_one_list};
pub use linting::{lint, lint_export};
pub use wanted::Wanted;
