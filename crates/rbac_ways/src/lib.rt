//! Graphs whose edges go through lists of sets of nodes. They are made of the words that nodes
//! share, and searched for shortest ways.
#![tactic(auto)]

mod by_word;
mod graph;
mod joining;
mod listed;
mod meeting;
mod search;

pub use by_word::NodesByWord;
pub use graph::{Graph, Reached, Stop};
pub use listed::listed_in;
pub use search::shortest_ways;
