//! The universe that a matrix ranges over: principals, namespaces, verbs and targets.
#![tactic(auto)]

mod fault;
mod laws;
mod lists;
mod principals;
mod sets;
mod stems;
mod unions;
mod universe;

pub use fault::UniverseFault;
pub use laws::{sets_are_one, universes_have_no_fault};
pub use lists::{ListedResource, ListedResources, Principals, UniverseLists};
pub use universe::Universe;
