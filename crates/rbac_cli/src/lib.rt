//! The inside of the program: loads the inputs of a command, answers the command over them and
//! writes the answer. Re-exports what a program needs besides [`run`]: the command line, the reader
//! and the writer.
#![tactic(auto)]

mod answer;
mod can_i;
mod diff;
mod exports;
mod groups;
mod laws;
mod least;
mod lines;
mod lint;
mod matrix;
mod matrix_rows;
mod meaning;
mod outcome;
mod output;
mod pages;
mod paths;
mod powers;
mod row_ends;
mod rows_left;
mod rules;
mod running;
mod stop;
mod universe;
mod unused;
mod ways;
mod who_can;

pub use laws::{
    answers_are_one, indirect_answers_agree_with_paths, memberships_are_groups_given,
    no_paths_without_powers, plus_lines_tell_all, runs_are_one, universes_are_taken_back,
};
pub use outcome::{RunFault, Status};
pub use rbac_command::{UsageFault, command_of};
pub use rbac_log::{LineFault, LogFault, read_log, read_log_file, read_log_slice};
pub use rbac_manifest::{At, Cause, LoadFault};
pub use rbac_question::{
    Action, Asked, AskedFor, Change, Command, HolderOptions, MatrixOptions, Question,
    QuestionFault, Scope, Step,
};
pub use rbac_streams::{
    Failed, Input, InputFault, Sink, Source, read_file, read_input, read_slice,
};
pub use rbac_universe::UniverseFault;
pub use rbac_use::Log;
pub use running::{run, run_into};
