//! The fields of a JSON value, each read as what its format says it has to be: an object, a list, a
//! text, a name, a boolean. A field whose value is null counts as missing.
#![tactic(auto)]

mod fields;
mod listed;
mod trouble;

pub use fields::{
    as_list, field, flag_field, list_field, name_of, object_in, text_field, word_field, word_of,
    words_field, words_in,
};
pub use listed::all_read;
pub use trouble::{ItemFault, Trouble};
