//! Lines, printed one after another.

ghost use Rattle.std.specs.Prelude.{◌≡◌, ◌++◌, ℕ, [], false, IfOk, OnOk};
ghost use Rattle.rbac_terms.specs.Text.{Text};
ghost use Rattle.rbac_question.specs.declared.command.Action.{Action};
ghost use Rattle.rbac_cli.specs.Out.{Answers};
ghost use Rattle.rbac_cli.specs.Printing.{EndsPrinting, GivesLine};
ghost use Rattle.rbac_cli.specs.declared.exports.Exports.{Exports};

use crate::outcome::Status;
use crate::output::Output;
use crate::stop::Stop;
use std::alloc::{AllocError, Global};
use std::io::Write;
use std::slice::Iter;

/// Lines that are left to print.
pub(crate) trait Lines {
    // the lines that are left, one after the other
    ghost are_left: { Self → Text → Type 0 };

    // what holds between two calls
    ghost is_open: { Self → Type 0 } = { λ _. Unit {0} };

    // no more lines than this are left
    ghost most_left: { Self → ℕ };

    /// Puts the next line into `line`, which is empty, or answers `false` if none is left.
    fn put_next(&mut self, line: &mut Vec<u8>) -> Result<bool, AllocError>
        requires going { is_open self.old }
        requires empty { line.old.items ≡ [] }
        ensures { IfOk result
            (GivesLine are_left is_open most_left self.old line.new.items self.new) };
}

/// Something that has a line.
pub(crate) trait HasLine {
    // the line
    ghost line_text: { Self → Text };

    /// Adds the line to `line`. If it runs out of memory, a prefix of it may have been added.
    fn put_into(&self, line: &mut Vec<u8>) -> Result<(), AllocError>
        ensures { OnOk result (line.new.items ≡ line.old.items ++ line_text self.now) };
}

impl<T: HasLine> Lines for Iter<'_, T> {
    ghost use Rattle.std.specs.Prelude.{length};
    ghost use Rattle.std.specs.List.{flat_map};
    ghost use Rattle.std.specs.Slice.Iter.{iter_rest};

    ghost are_left = { λ items text. text ≡ flat_map T.line_text (iter_rest items) };

    ghost most_left = { λ items. length (iter_rest items) };

    fn put_next(&mut self, line: &mut Vec<u8>) -> Result<bool, AllocError> {
        let Some(item) = self.next() else {
            return Ok(false);
        };
        item.put_into(line)?;
        Ok(true)
    }
}

/// Prints the lines of an answer that has this status. Keeps one line at a time.
pub(crate) fn print_lines<L: Lines, W: Write + Drop>(
    alloc: Global,
    lines: &mut L,
    status: Status,
    output: &mut Output<'_, W>,
) -> Result<Status, Stop>
    requires going { L.is_open lines.old }
    requires works { output.old.sink.now.has_failed ≡ false }
    ensures { (e : Exports) (action : Action) (text : Text)
        → L.are_left lines.old text → Answers e action text status
        → EndsPrinting W.contents output.old output.new e action result }
{
    let mut line = Vec::new(alloc);
    while lines.put_next(&mut line)? {
        output.print(line.as_slice())?;
        line.clear();
    }
    Ok(status)
}
