//! The matrix: every request that is allowed, in order of keys, with the first binding that grants
//! it, or with each binding that does.
#![tactic(auto)]

mod advance;
mod basis;
mod blocks;
mod bound_runs;
mod enumeration;
mod every_repeats;
mod every_rows;
mod every_start;
mod fault;
mod grant_verbs;
mod kept;
mod laws;
mod line;
mod matrix;
mod repeated_lines;
mod repeats;
mod row;
mod seat;
mod seats;
mod start;
mod steps;
mod unnamed;
mod verb_places;
mod walk;

pub use enumeration::Rows;
pub use every_rows::EveryRows;
pub use fault::MatrixFault;
pub use laws::{
    a_matrix_is_there, every_pages_join, every_rows_are_one, every_rows_are_there, pages_join,
    repeats_hold_in_the_whole_cluster, rows_after_a_binding, the_matrix_is_one,
};
pub use matrix::Matrix;
pub use rbac_token::{
    BindingName, Mark, TokenFault, key_of_token, mark_of_token, token_of, token_of_mark,
};
pub use row::Row;
pub use seat::Seat;
