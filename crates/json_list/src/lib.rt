//! A JSON text, read without values of what nobody uses; a large list is read item by item, so that
//! only one item's value is in memory at a time. A text means what `serde_json` reads it as.
#![tactic(auto)]

mod fault;
mod kept;
mod one_pass;
mod pass;
mod value;
mod whole_text;

pub use fault::ReadFault;
pub use kept::{Kept, is_among};
pub use one_pass::{ListFront, Unread, open_front};
pub use whole_text::read_text;
