//! A reader and a writer that aren't called again after a failure, pages of output, and reading a
//! whole input.
#![tactic(auto)]

mod input;
mod page;
mod sink;
mod source;

pub use input::Input;
pub use page::{Page, PrintFault};
pub use sink::{Failed, Sink};
pub use source::{InputFault, Source, read_file, read_input, read_slice};
