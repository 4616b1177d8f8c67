//! The command line of `rbacaudit`, read with `clap`. Re-exports the names of `rbac_question`.
#![tactic(auto)]

mod build;
mod fault;
mod help;
mod holder_options;
mod matrix_options;
mod read;

pub use fault::UsageFault;
pub use rbac_question::{
    Action, Asked, AskedFor, Change, Command, HolderOptions, MatrixOptions, Question,
    QuestionFault, Scope, Step,
};
pub use read::command_of;
