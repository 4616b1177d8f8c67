//! What a change lets users do, as an answer.

ghost use Rattle.std.specs.Prelude.{◌≡◌, ℕ, false};
ghost use Rattle.rbac_question.specs.declared.command.Action.TheVariants.{Diff};
ghost use Rattle.rbac_question.specs.declared.command.Change.{Change as ChangeTold};
ghost use Rattle.rbac_cli.specs.Out.{changes_text, changes_status};
ghost use Rattle.rbac_cli.specs.Printing.{EndsPrinting};
ghost use Rattle.rbac_cli.specs.declared.exports.Exports.TheVariants.{Pair};

use crate::lines::{Lines, print_lines};
use crate::outcome::Status;
use crate::output::Output;
use crate::stop::Stop;
use rbac_diff::{Changes, changes, put_change};
use rbac_model::Policy;
use std::alloc::{AllocError, Global};
use std::io::Write;

/// Prints what changes for users from one policy to the other, a line for each change.
pub(crate) fn print_changes<W: Write + Drop>(
    alloc: Global,
    before: &Policy,
    after: &Policy,
    output: &mut Output<'_, W>,
) -> Result<Status, Stop>
    requires { output.old.sink.now.has_failed ≡ false }
    ensures { (n : ℕ) (change : ChangeTold) → EndsPrinting W.contents output.old output.new
        (Pair before.now after.now) (Diff n change) result }
{
    let mut changes = changes(alloc, before, after)?;
    let status = status_of(&changes);
    print_lines(alloc, &mut changes, status, output)
}

// The status: 1 if anything changes.
fn status_of(changes: &Changes<'_>) -> Status
    ensures { result ≡ changes_status changes.now }
{
    if changes.is_empty() {
        return Status::Zero;
    }
    Status::One
}

impl Lines for Changes<'_> {
    ghost use Rattle.std.specs.Prelude.{length};

    ghost are_left = { λ changes text. text ≡ changes_text changes };

    ghost most_left = { λ changes. length changes };

    fn put_next(&mut self, line: &mut Vec<u8>) -> Result<bool, AllocError> {
        let Some(change) = self.next() else {
            return Ok(false);
        };
        put_change(line, &change)?;
        Ok(true)
    }
}
