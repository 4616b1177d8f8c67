//! What lint finds, as an answer.

ghost use Rattle.std.specs.Prelude.{◌≡◌, false, option_map, vec_items};
ghost use Rattle.rbac_question.specs.declared.command.Action.TheVariants.{Lint};
ghost use Rattle.rbac_cli.specs.Out.{finding_line, findings_status, wanted_meant};
ghost use Rattle.rbac_cli.specs.Printing.{EndsPrinting};
ghost use Rattle.rbac_cli.specs.declared.exports.Exports.TheVariants.{Single};

use crate::lines::{HasLine, print_lines};
use crate::outcome::Status;
use crate::output::Output;
use crate::stop::Stop;
use rbac_lint::{Finding, Wanted, lint_export};
use rbac_manifest::Export;
use rbac_text::put_finding;
use std::alloc::{AllocError, Global};
use std::io::Write;

/// Prints a line for each finding that is asked for: of the codes in `only`, if it is given, and
/// with `skip_system` not about Kubernetes' own objects.
pub(crate) fn print_findings<W: Write + Drop>(
    alloc: Global,
    export: &Export,
    only: &Option<Vec<u8>>,
    skip_system: bool,
    output: &mut Output<'_, W>,
) -> Result<Status, Stop>
    requires { output.old.sink.now.has_failed ≡ false }
    ensures { EndsPrinting W.contents output.old output.new (Single export.now)
        (Lint only.now skip_system) result }
{
    let findings = lint_export(alloc, export, wanted_by(only, skip_system))?;
    let findings = findings.as_slice();
    print_lines(alloc, &mut findings.iter(), status_of(findings), output)
}

// Which findings are asked for.
fn wanted_by(only: &Option<Vec<u8>>, skip_system: bool) -> Wanted<'_>
    ensures { result ≡ wanted_meant (option_map vec_items only.now) skip_system }
{
    let only = match only {
        Some(codes) => Some(codes.as_slice()),
        None => None,
    };
    Wanted { only, skip_system }
}

// The status: 1 if anything is found.
fn status_of(findings: &[Finding]) -> Status
    ensures { result ≡ findings_status findings.now }
{
    match findings.first() {
        Some(_) => Status::One,
        None => Status::Zero,
    }
}

impl HasLine for Finding {
    ghost line_text = { finding_line };

    fn put_into(&self, line: &mut Vec<u8>) -> Result<(), AllocError> {
        put_finding(line, self.code, &self.object, self.place, &self.other)
    }
}
