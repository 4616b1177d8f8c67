//! The rules that somebody has, from all bindings that name them.
#![tactic(auto)]

mod effective;
mod laws;
mod run;

pub use effective::{EffectiveRule, EffectiveRules, effective_rules};
pub use laws::{
    effective_rules_are_one, effective_rules_are_there, effective_rules_decide,
    effective_rules_explain,
};
