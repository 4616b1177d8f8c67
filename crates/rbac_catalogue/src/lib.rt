//! The catalogue of API resources: their groups, names and scopes, from API resource lists, and the
//! resource that a type word such as `po`, `deploy` or `deployments.apps` means.
#![tactic(auto)]

mod catalogue;
mod entry;
mod lookup;
mod scope;

pub use catalogue::Catalogue;
pub use entry::{Entries, Entry};
pub use lookup::Found;
