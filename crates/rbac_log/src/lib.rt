//! The requests that a server's audit log tells of.
#![tactic(auto)]

mod acting;
mod asked;
mod counted;
mod event;
mod fault;
mod laws;
mod line;
mod log_fault;
mod logged;
mod part;
mod reading;
mod user;

pub use acting::account_parts;
pub use fault::LineFault;
pub use laws::{
    accounts_are_impersonated_in_their_namespaces, events_tell_in_order,
    what_was_not_allowed_tells_nothing,
};
pub use line::requests_in_line;
pub use log_fault::LogFault;
pub use logged::LoggedRequest;
pub use reading::{read_log, read_log_file, read_log_slice};
