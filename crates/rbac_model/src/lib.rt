//! Policies: the objects of an export, and the grants that follow from them. `rbac_terms` defines
//! the terms that policies are made of; this crate re-exports those that its users need.
#![tactic(auto)]

mod aggregation;
mod fault;
mod grants;
mod labels;
mod laws;
mod live;
mod objects;
mod own_words;
mod place_set;
mod places;
mod policy;
mod reachability;
mod references;
mod replacement;
mod turned;
mod visit_order;
mod why;

pub use fault::ResolveFault;
pub use laws::{grants_are_one_list, kept_objects_are_one, words_match_themselves};
pub use live::{is_live, is_live_at, is_live_in, may_be_live_in};
pub use objects::{Named, Object, Objects};
pub use own_words::{allows_url_word, gives_path};
pub use places::{GrantPlace, RolePlace};
pub use policy::Policy;
pub use rbac_terms::{
    Binding, ClusterRole, Key, Labels, ModelFault, Principal, Requirement, Requirements, Role,
    RoleRef, Rule, Rules, SelectOp, Selector, Selectors, Subject, Subjects, Target, Word, Words,
    group_matches, name_matches, names, resource_matches, rule_allows, selects, url_matches,
    verb_matches,
};
pub use references::{Grant, SourceRole, ref_place};
pub use why::{Why, naming_place};
