//! What the texts of an `unused` line mean.

ghost use Rattle.std.specs.Prelude.{MatchResult};
ghost use Rattle.rbac_question.specs.UnusedLines.{MeansUnused, RefusesUnused};

use crate::command::Action;
use crate::fault::QuestionFault;
use crate::logs::has_bad_logs;
use std::marker::Model;

/// The parts of an `unused` line.
#[derive(Drop)]
pub struct UnusedLine<'m, 'a> {
    /// Whether `--skip-system` is given.
    pub skip_system: bool,
    /// The name after each `--log`, in order, if it is given.
    pub logs: Option<&'m [&'a str]>,
    /// How many files are given.
    pub files: usize,
}

impl<'m, 'a> Model for UnusedLine<'m, 'a> {
    ghost use Rattle.std.specs.Prelude.{map, option_map};
    ghost use Rattle.rbac_question.specs.Lines.{names_in};
    ghost use Rattle.rbac_question.specs.UnusedLines.{UnusedParts};

    ghost Value = { UnusedParts };

    ghost view = { λ l. record {
      skip_system = l.skip_system;
      logs = names_in (option_map (λ names. map (λ n. n.now) names.now) l.logs);
      files = l.files;
    } };
}

impl Action {
    /// What an `unused` line means.
    ///
    /// U11 if the line would read standard input more than once: for two logs, or for a log and,
    /// without a FILE, for the export. Allocates nothing.
    pub fn unused(line: &UnusedLine<'_, '_>) -> Result<Self, QuestionFault>
        ensures { MatchResult result (MeansUnused line.now) (RefusesUnused line.now) }
    {
        if has_bad_logs(line.logs, line.files) {
            return Err(QuestionFault::BadLogs);
        }
        Ok(Action::Unused {
            skip_system: line.skip_system,
        })
    }
}
