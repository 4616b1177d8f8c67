//! Tokens: a key, or a key and a binding's name, as one word, after which a listing continues. Each
//! key has one token, and so has each key with a binding's name.
#![tactic(auto)]

mod fault;
mod field;
mod mark;
mod print;
mod read;
mod token;

pub use fault::TokenFault;
pub use mark::{BindingName, Mark};
pub use token::{key_of_token, mark_of_token, token_of, token_of_mark};
