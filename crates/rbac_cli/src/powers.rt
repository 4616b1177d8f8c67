//! Who can act as others, as an answer.

ghost use Rattle.std.specs.Prelude.{◌≡◌, false};
ghost use Rattle.rbac_question.specs.declared.command.Action.TheVariants.{Powers as ListsPowers};
ghost use Rattle.rbac_cli.specs.Out.{powers_text};
ghost use Rattle.rbac_cli.specs.Printing.{EndsPrinting};
ghost use Rattle.rbac_cli.specs.declared.exports.Exports.TheVariants.{Single};

use crate::lines::{Lines, print_lines};
use crate::outcome::Status;
use crate::output::Output;
use crate::stop::Stop;
use rbac_manifest::Export;
use rbac_paths::{Powers, powers, put_power};
use std::alloc::{AllocError, Global};
use std::io::Write;

/// Prints the steps that users and groups can take by what was loaded, a line for each.
pub(crate) fn print_powers<W: Write + Drop>(
    alloc: Global,
    export: &Export,
    output: &mut Output<'_, W>,
) -> Result<Status, Stop>
    requires { output.old.sink.now.has_failed ≡ false }
    ensures { EndsPrinting W.contents output.old output.new (Single export.now) ListsPowers result }
{
    let mut powers = powers(alloc, export.policy())?;
    print_lines(alloc, &mut powers, Status::Zero, output)
}

impl Lines for Powers<'_> {
    ghost use Rattle.std.specs.Prelude.{length};

    ghost are_left = { λ powers text. text ≡ powers_text powers };

    ghost most_left = { λ powers. length powers };

    fn put_next(&mut self, line: &mut Vec<u8>) -> Result<bool, AllocError> {
        let Some(power) = self.next() else {
            return Ok(false);
        };
        put_power(line, &power)?;
        Ok(true)
    }
}
