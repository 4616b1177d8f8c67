//! What a command line asks: the command, its question, and what the texts of its words mean.
//! `rbac_command` sorts the words by option, and re-exports these names.
#![tactic(auto)]

mod asked;
mod command;
mod fault;
mod least_line;
mod line;
mod logs;
mod path_end;
mod paths_line;
mod steps_line;
mod unused_line;
mod who;
mod who_can_line;

pub use asked::{Asked, AskedFor};
pub use command::{
    Action, Change, Command, HolderOptions, MatrixOptions, Question, VerdictOptions,
};
pub use fault::QuestionFault;
pub use least_line::LeastLine;
pub use line::{CanILine, DiffLine, LintLine, MatrixLine, QuestionLine, RulesLine};
pub use path_end::PathEnd;
pub use paths_line::PathsLine;
pub use rbac_steps::Step;
pub use rbac_terms::Scope;
pub use unused_line::UnusedLine;
pub use who::WhoLine;
pub use who_can_line::WhoCanLine;
