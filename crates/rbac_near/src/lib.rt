//! What grants lack to allow a request.
#![tactic(auto)]

mod lacking;
mod laws;
mod line;
mod members;
mod named;
mod near;

pub use laws::{near_grants_are_one, near_grants_would_allow};
pub use line::put_near;
pub use near::{Missing, Near, Request, near_grants};
