//! The least policy of a user, as an answer.

ghost use Rattle.std.specs.Prelude.{◌≡◌, false, IfOk};
ghost use Rattle.rbac_question.specs.declared.command.Action.TheVariants.{Least as PrintsLeast};
ghost use Rattle.rbac_cli.specs.Out.{IsLeastText};
ghost use Rattle.rbac_cli.specs.Printing.{EndsPrinting};
ghost use Rattle.rbac_cli.specs.declared.exports.Exports.TheVariants.{Used};

use crate::outcome::Status;
use crate::output::Output;
use crate::stop::Stop;
use rbac_document::put_least;
use rbac_manifest::Export;
use rbac_model::Policy;
use rbac_terms::Word;
use rbac_use::{Log, least_of};
use std::alloc::{AllocError, Global};
use std::io::Write;

/// Prints one document: roles and bindings of this name that let the user do what it did by the
/// log, and nothing else; with `names` on the objects of these names alone.
pub(crate) fn print_least<W: Write + Drop>(
    alloc: Global,
    export: &Export,
    log: &Log,
    user: &Word,
    names: bool,
    name: &Word,
    output: &mut Output<'_, W>,
) -> Result<Status, Stop>
    requires { output.old.sink.now.has_failed ≡ false }
    ensures { EndsPrinting W.contents output.old output.new (Used export.now log.now)
        (PrintsLeast user.now names name.now) result }
{
    let document = document_of(alloc, export.policy(), log, user, names, name)?;
    output.print(document.as_slice())?;
    Ok(Status::Zero)
}

// The document of the least policy of the user.
fn document_of(
    alloc: Global,
    policy: &Policy,
    log: &Log,
    user: &Word,
    names: bool,
    name: &Word,
) -> Result<Vec<u8>, AllocError>
    ensures { IfOk result
        (λ document. IsLeastText policy.now log.now user.now names name.now document.items) }
{
    let least = least_of(alloc, policy, log, user, names)?;
    let mut document = Vec::new(alloc);
    put_least(&mut document, name, user, &least)?;
    Ok(document)
}
