//! How keys and objects are printed. Each field has one spelling, which distinguishes tabs, line
//! ends and the empty text.
#![tactic(auto)]

mod choice;
mod field;
mod finding;
mod holder;
mod holder_why;
mod laws;
mod row;
mod rule;
mod why;

pub use choice::put_choice_and_tab;
pub use field::put_field;
pub use finding::put_finding;
pub use holder::put_holder;
pub use holder_why::put_holder_why;
pub use laws::fields_are_unlike;
pub use row::{put_binding, put_field_and_tab};
pub use rule::{put_grant, put_list, put_rule};
pub use why::{put_place, put_role, put_why};
