//! What no logged request used, as an answer.

ghost use Rattle.std.specs.Prelude.{◌≡◌, false};
ghost use Rattle.rbac_question.specs.declared.command.Action.TheVariants.{Unused as ListsUnused};
ghost use Rattle.rbac_cli.specs.Out.{unused_status, unused_text};
ghost use Rattle.rbac_cli.specs.Printing.{EndsPrinting};
ghost use Rattle.rbac_cli.specs.declared.exports.Exports.TheVariants.{Used};

use crate::lines::{Lines, print_lines};
use crate::outcome::Status;
use crate::output::Output;
use crate::stop::Stop;
use rbac_manifest::Export;
use rbac_model::Policy;
use rbac_use::{Log, Unused, put_unused, unused_lines};
use std::alloc::{AllocError, Global};
use std::io::Write;
use std::slice::Iter;

/// Prints a line for each part of a binding that no request of the log used; with `skip_system` not
/// for bindings whose names begin with `system:`.
pub(crate) fn print_unused<W: Write + Drop>(
    alloc: Global,
    export: &Export,
    log: &Log,
    skip_system: bool,
    output: &mut Output<'_, W>,
) -> Result<Status, Stop>
    requires { output.old.sink.now.has_failed ≡ false }
    ensures { EndsPrinting W.contents output.old output.new (Used export.now log.now)
        (ListsUnused skip_system) result }
{
    let policy = export.policy();
    let found = unused_lines(alloc, policy, log, skip_system)?;
    let found = found.as_slice();
    let left = found.iter();
    let mut lines = UnusedLines {
        alloc,
        policy,
        left,
    };
    print_lines(alloc, &mut lines, status_of(found), output)
}

// The status: 1 if anything is unused.
fn status_of(found: &[Unused]) -> Status
    ensures { result ≡ unused_status found.now }
{
    match found.first() {
        Some(_) => Status::One,
        None => Status::Zero,
    }
}

// The lines of unused parts that are left to print.
#[derive(Drop)]
struct UnusedLines<'p, 'f> {
    alloc: Global,
    policy: &'p Policy,
    left: Iter<'f, Unused>,
}

impl Lines for UnusedLines<'_, '_> {
    ghost use Rattle.std.specs.Prelude.{length};
    ghost use Rattle.std.specs.Slice.Iter.{iter_rest};

    ghost are_left = { λ it text. text ≡ unused_text it.policy.now (iter_rest it.left) };

    ghost most_left = { λ it. length (iter_rest it.left) };

    fn put_next(&mut self, line: &mut Vec<u8>) -> Result<bool, AllocError> {
        let Some(unused) = self.left.next() else {
            return Ok(false);
        };
        put_unused(self.alloc, line, self.policy, *unused)?;
        Ok(true)
    }
}
