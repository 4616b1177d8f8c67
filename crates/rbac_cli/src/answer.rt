//! The answer of each action.

ghost use Rattle.std.specs.Prelude.{◌≡◌, false};
ghost use Rattle.rbac_cli.specs.Exports.{IsForAction};
ghost use Rattle.rbac_cli.specs.Printing.{EndsPrinting};
ghost use Rattle.rbac_cli.specs.declared.exports.Exports.TheVariants.{Used};

use crate::can_i::verdict_of;
use crate::diff::print_changes;
use crate::exports::Exports;
use crate::least::print_least;
use crate::lint::print_findings;
use crate::matrix::print_matrix;
use crate::outcome::Status;
use crate::output::Output;
use crate::paths::print_paths;
use crate::powers::print_powers;
use crate::rules::print_rules;
use crate::stop::Stop;
use crate::universe::print_universe;
use crate::unused::print_unused;
use crate::ways::print_ways;
use crate::who_can::print_holders;
use rbac_manifest::Export;
use rbac_question::Action;
use rbac_use::Log;
use std::alloc::Global;
use std::io::Write;

/// Prints the answer of an action over what was loaded.
pub(crate) fn print_answer<W: Write + Drop>(
    alloc: Global,
    exports: &Exports<'_>,
    action: &Action,
    output: &mut Output<'_, W>,
) -> Result<Status, Stop>
    requires over { IsForAction action.now exports.now }
    requires works { output.old.sink.now.has_failed ≡ false }
    ensures { EndsPrinting W.contents output.old output.new exports.now action.now result }
{
    let export = match exports {
        Exports::Single(export) => export,
        Exports::Pair(before, after) => return print_changes(alloc, before, after, output),
        Exports::Used(export, lent) => {
            return print_use(alloc, export, lent.log(), action, output);
        }
    };
    match action {
        Action::CanI {
            principal,
            options,
            question,
        } => {
            let verdict = verdict_of(alloc, export, principal, *options, question)?;
            output.print(verdict.text.as_slice())?;
            Ok(verdict.status)
        }
        Action::WhoCan { options, question } => {
            print_holders(alloc, export, *options, question, output)
        }
        Action::WaysTo { steps, question } => {
            print_ways(alloc, export, steps.as_slice(), question, output)
        }
        Action::Rules { principal, scope } => {
            print_rules(alloc, export, principal, scope, output)
        }
        Action::Matrix {
            options,
            after,
            limit,
        } => print_matrix(alloc, export, *options, after.as_ref(), *limit, output),
        Action::Universe => print_universe(alloc, export, output),
        Action::Lint { only, skip_system } => {
            print_findings(alloc, export, only, *skip_system, output)
        }
        Action::Powers => print_powers(alloc, export, output),
        Action::Paths {
            principal,
            steps,
            to,
        } => print_paths(alloc, export, principal, steps.as_slice(), to, output),
        Action::Diff { .. } | Action::Unused { .. } | Action::Least { .. } => unreachable!(),
    }
}

// Prints the answer of an action over an export and the requests of the logs.
fn print_use<W: Write + Drop>(
    alloc: Global,
    export: &Export,
    log: &Log,
    action: &Action,
    output: &mut Output<'_, W>,
) -> Result<Status, Stop>
    requires over { IsForAction action.now (Used export.now log.now) }
    requires works { output.old.sink.now.has_failed ≡ false }
    ensures { EndsPrinting W.contents output.old output.new (Used export.now log.now) action.now
        result }
{
    match action {
        Action::Unused { skip_system } => print_unused(alloc, export, log, *skip_system, output),
        Action::Least { user, names, name } => {
            print_least(alloc, export, log, user, *names, name, output)
        }
        Action::CanI { .. }
        | Action::WhoCan { .. }
        | Action::WaysTo { .. }
        | Action::Rules { .. }
        | Action::Matrix { .. }
        | Action::Universe
        | Action::Lint { .. }
        | Action::Powers
        | Action::Paths { .. }
        | Action::Diff { .. } => unreachable!(),
    }
}
