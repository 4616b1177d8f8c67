//! A run: load the inputs, answer the command, write the answer.

ghost use Rattle.std.specs.Prelude.{◌≡◌, ◌++◌, [], false, MatchResult};
ghost use Rattle.rbac_streams.specs.Taken.{Took, Printed};
ghost use Rattle.rbac_cli.specs.Ends.{Ends, Writes, is_write_fault};
ghost use Rattle.rbac_cli.specs.Exports.{IsForAction};
ghost use Rattle.rbac_cli.specs.Printing.{BorrowsTheSame, StopsWith};

use crate::answer::print_answer;
use crate::exports::{Exports, exports_from};
use crate::outcome::{RunFault, Status};
use crate::output::Output;
use crate::stop::Stop;
use rbac_question::{Action, Command};
use rbac_streams::{Input, Page, Sink};
use rbac_use::Log;
use std::alloc::Global;
use std::io::Write;

/// Loads the inputs, answers the command over them and writes the answer.
///
/// For a matrix it writes exactly one line for each request of the universe that is allowed and
/// whose key is greater than the token's, in key order, each with the first binding that grants it,
/// up to the limit. A last line follows: `next` and a token if there are more rows, otherwise
/// `end`. With `--every` there is one line for each pair of a request and a binding that grants it,
/// if the pair's row comes after the token's mark. With `--once` rows that have a namespace and a
/// ClusterRoleBinding are left out.
///
/// For `who-can --indirect` it writes exactly one line for each node from which steps, or none,
/// lead to a node that allows what is asked for. The nodes are the users and groups that bindings
/// and ServiceAccount objects name, and whom and what they come to by these steps.
///
/// For a `diff` the first inputs are the side before a change. The others are the side after it, or
/// the objects that the change takes away, and then those that it puts over.
///
/// For `unused` it writes exactly one line for each part of a binding that no request of the log
/// used. For `least` it writes the document of the least policy of the user by the log. The log has
/// the requests of the command's logs; no other command depends on it.
///
/// Refuses inputs that [`load`] refuses, for a matrix those whose lists make no universe, and for
/// `universe` those whose lists have more resources than a universe may have targets; nothing is
/// written then. If it runs out of memory or a write fails, what was written is a prefix of the
/// answer, and the fault has the number of its bytes.
#[tactic(auto, using(crate::proofs::Loads::ended))]
pub fn run<W: Write + Drop>(
    alloc: Global,
    command: &Command,
    inputs: &[Input],
    log: &Log,
    sink: &mut Sink<W>,
) -> Result<Status, RunFault>
    requires { sink.old.has_failed ≡ false }
    ensures ends { Ends (Took W.contents sink.old sink.new) command.now inputs.now log.now result }
    ensures failed { sink.new.has_failed ≡ is_write_fault result }
{
    let mut page = Page::start(alloc, sink);
    let exports = exports_from(alloc, &command.action, inputs, log)?;
    let mut output = Output {
        sink,
        page: &mut page,
    };
    write_answer(alloc, &exports, &command.action, &mut output)
}

/// Like [`run`], but with a writer that shows its bytes: a vector. This contract follows from the
/// contract of `run` alone.
///
/// This contract states which bytes a run writes. Contracts can't see the bytes of standard output:
/// for it the same holds as far as its calls take the bytes that they report as taken.
pub fn run_into(
    alloc: Global,
    command: &Command,
    inputs: &[Input],
    log: &Log,
    sink: &mut Sink<Vec<u8>>,
) -> Result<Status, RunFault>
    requires { sink.old.has_failed ≡ false }
    ensures ends { Ends
        (λ bytes. sink.new.writer.items
        ≡ sink.old.writer.items ++ bytes) command.now inputs.now log.now result }
    ensures failed { sink.new.has_failed ≡ is_write_fault result }
{
    run(alloc, command, inputs, log, sink)
}

// Writes the answer of an action over what was loaded, starting with an empty page.
fn write_answer<W: Write + Drop>(
    alloc: Global,
    exports: &Exports<'_>,
    action: &Action,
    output: &mut Output<'_, W>,
) -> Result<Status, RunFault>
    requires over { IsForAction action.now exports.now }
    requires works { output.old.sink.now.has_failed ≡ false }
    requires printed { Printed W.contents output.old.sink.now output.old.sink.now
        output.old.page.now [] }
    requires took { Took W.contents output.old.sink.now output.old.sink.now [] }
    requires empty { output.old.page.now.written ≡ 0 }
    ensures ends { MatchResult result
        (Writes (Took W.contents output.old.sink.now output.new.sink.now) exports.now action.now)
        (StopsWith (Took W.contents output.old.sink.now output.new.sink.now) exports.now
        action.now) }
    ensures failed { output.new.sink.now.has_failed ≡ is_write_fault result }
    ensures same { BorrowsTheSame output.old output.new }
{
    let status = match print_answer(alloc, exports, action, output) {
        Ok(status) => status,
        Err(stop) => return Err(stop.fault(output.page)),
    };
    match output.page.flush(output.sink) {
        Ok(()) => Ok(status),
        Err(fault) => Err(Stop::from(fault).fault(output.page)),
    }
}
