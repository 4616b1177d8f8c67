//! Prints the lists of a universe as one Universe document, which is read back as these lists, and
//! a least policy as a List of roles and bindings.
#![tactic(auto)]

mod document;
mod entry;
mod laws;
mod least;
mod order;
mod quoted;

pub use document::put_document;
pub use laws::{documents_are_one, documents_are_taken_back, once_each_is_the_same_universe};
pub use least::put_least;
pub use order::{once_each, principals_once_each};
