//! Whom and what a user or a group can take over: the single steps that it can take (powers), the
//! nodes that it comes to step by step (paths), and who comes to a request (ways).
#![tactic(auto)]

mod access;
mod aim;
mod all_paths;
mod all_steps;
mod all_ways;
mod allowed;
mod binding_words;
mod bound_names;
mod deciding;
mod finding;
mod graph;
mod holding;
mod laws;
mod line;
mod listed;
mod node;
mod nodes;
mod one_path;
mod other_nodes;
mod path_line;
mod power;
mod principals;
mod reason;
mod rows;
mod rule_takeovers;
mod same_others;
mod searching;
mod seeking;
mod table;
mod takeover;
mod taking;
mod told;
mod tracing;
mod way_line;
mod words;

pub use access::Access;
pub use all_paths::{Path, paths};
pub use all_steps::powers;
pub use all_ways::{Next, Way, ways_to};
pub use laws::{
    one_path_is_one, paths_are_one, paths_begin_with_powers, paths_lead_back, powers_are_one,
    ways_agree_with_paths, ways_are_one, ways_lead_on,
};
pub use line::put_power;
pub use node::Node;
pub use one_path::path_to;
pub use path_line::put_path;
pub use power::{Power, Powers};
pub use rbac_steps::Step;
pub use reason::Reason;
pub use way_line::put_way;
