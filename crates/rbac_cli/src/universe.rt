//! The universe of a matrix, as an answer.

ghost use Rattle.std.specs.Prelude.{◌≡◌, ◌≢◌, false, IfOk, IfErr};
ghost use Rattle.rbac_document.specs.Document.{IsDocument, document_text};
ghost use Rattle.rbac_document.specs.Names.{resource_name};
ghost use Rattle.rbac_lists.specs.Wide.{AreTooMany};
ghost use Rattle.rbac_question.specs.declared.command.Action.TheVariants.{Universe};
ghost use Rattle.rbac_universe.specs.declared.fault.UniverseFault.TheVariants.{TooLarge};
ghost use Rattle.rbac_universe.specs.declared.fault.UniverseFault.TheVariants.{NoMemory as LacksMemory};
ghost use Rattle.rbac_cli.specs.Printing.{EndsPrinting};
ghost use Rattle.rbac_cli.specs.declared.exports.Exports.TheVariants.{Single};

use crate::outcome::Status;
use crate::output::Output;
use crate::stop::Stop;
use rbac_document::{once_each, put_document};
use rbac_manifest::Export;
use rbac_universe::{UniverseFault, UniverseLists};
use std::alloc::{AllocError, Global};
use std::io::Write;

// How many resources a document has at most, which is how many targets a universe may have.
const MOST_RESOURCES: usize = 1_000_000;

/// Prints the lists that a matrix of what was loaded is made of, as one Universe document.
pub(crate) fn print_universe<W: Write + Drop>(
    alloc: Global,
    export: &Export,
    output: &mut Output<'_, W>,
) -> Result<Status, Stop>
    requires { output.old.sink.now.has_failed ≡ false }
    ensures { EndsPrinting W.contents output.old output.new (Single export.now) Universe result }
{
    let document = document_of(alloc, export)?;
    output.print(document.as_slice())?;
    Ok(Status::Zero)
}

// The document of the lists of what was loaded, each entry once and in order. P4 TooLarge if there
// are too many resources: if a rule by itself names too many, they aren't listed.
fn document_of(alloc: Global, export: &Export) -> Result<Vec<u8>, UniverseFault>
    ensures ok { IfOk result (λ document. IsDocument export.now.lists document.items
        × (¬ AreTooMany resource_name export.now.lists.resources)) }
    ensures fault { IfErr result (λ fault. fault ≢ LacksMemory
        → (fault ≡ TooLarge) × AreTooMany resource_name export.now.lists.resources) }
{
    if export.has_wide_rule(alloc)? {
        return Err(UniverseFault::TooLarge);
    }
    let lists = once_each(export.lists(alloc)?)?;
    if lists.resources.as_slice().len() > MOST_RESOURCES {
        return Err(UniverseFault::TooLarge);
    }
    Ok(text_of(alloc, &lists)?)
}

// The document of these lists.
fn text_of(alloc: Global, lists: &UniverseLists) -> Result<Vec<u8>, AllocError>
    ensures { IfOk result (λ document. document.items ≡ document_text lists.now) }
{
    let mut document = Vec::new(alloc);
    put_document(&mut document, lists)?;
    Ok(document)
}
