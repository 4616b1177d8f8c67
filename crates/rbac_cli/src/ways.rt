//! Who can come to do something, as an answer.

ghost use Rattle.std.specs.Prelude.{◌≡◌, Vec, false, vec_items};
ghost use Rattle.std.specs.Global.{Global};
ghost use Rattle.rbac_steps.specs.declared.steps.Step.{Step as PathStep};
ghost use Rattle.rbac_question.specs.declared.command.Action.TheVariants.{WaysTo};
ghost use Rattle.rbac_cli.specs.Printing.{EndsPrinting};
ghost use Rattle.rbac_cli.specs.declared.exports.Exports.TheVariants.{Single};

use crate::lines::{HasLine, print_lines};
use crate::meaning::meant_by;
use crate::outcome::Status;
use crate::output::Output;
use crate::paths::named_principals;
use crate::stop::Stop;
use rbac_manifest::Export;
use rbac_paths::{Access, Step, Way, put_way, ways_to};
use rbac_question::Question;
use rbac_subjects::SubjectIndex;
use std::alloc::{AllocError, Global};
use std::io::Write;

/// Prints a line for each node that is allowed what the question asks, or comes to such a node by
/// these steps.
pub(crate) fn print_ways<W: Write + Drop>(
    alloc: Global,
    export: &Export,
    steps: &[Step],
    question: &Question,
    output: &mut Output<'_, W>,
) -> Result<Status, Stop>
    requires { output.old.sink.now.has_failed ≡ false }
    ensures { (chosen : Vec PathStep Global) → vec_items chosen ≡ steps.now
        → EndsPrinting W.contents output.old output.new (Single export.now)
        (WaysTo chosen question.now) result }
{
    let meant = meant_by(alloc, export.catalogue(), question)?;
    let access = Access {
        namespace: &meant.namespace,
        verb: &question.verb,
        target: &meant.target,
    };
    let policy = export.policy();
    let index = SubjectIndex::build(alloc, policy)?;
    let principals = named_principals(alloc, export, &index)?;
    let found = ways_to(alloc, policy, &index, principals.as_slice(), steps, access)?;
    print_lines(alloc, &mut found.as_slice().iter(), Status::Zero, output)
}

impl HasLine for Way<'_> {
    ghost use Rattle.rbac_paths.specs.WayLines.{way_text};

    ghost line_text = { way_text };

    fn put_into(&self, line: &mut Vec<u8>) -> Result<(), AllocError> {
        put_way(line, self)
    }
}
