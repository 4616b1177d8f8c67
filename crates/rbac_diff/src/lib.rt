//! What a change of policies lets users do, and what it takes from them, exactly, over all possible
//! requests.
#![tactic(auto)]

mod alike;
mod change;
mod changed;
mod covered_roles;
mod covering;
mod finding;
mod laws;
mod line;
mod listing;
mod named;
mod origin;
mod permission;
mod sharing;
mod stand_ins;
mod standing;
mod subjects;
mod unchanged;

pub use change::{Change, ChangeKind, changes};
pub use laws::{
    a_list_of_changes_is_there, changes_are_one, changes_tell_all, losses_are_gains_exchanged,
};
pub use line::put_change;
pub use listing::Changes;
