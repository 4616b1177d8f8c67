//! The steps of the table of powers: the ways to act as others.
#![tactic(auto)]

mod steps;

pub use steps::Step;
