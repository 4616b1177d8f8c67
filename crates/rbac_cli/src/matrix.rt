//! The matrix, as an answer.

ghost use Rattle.std.specs.Prelude.{◌≡◌, length, false, IfOk, MatchResult};
ghost use Rattle.std.specs.Option.{option_copied};
ghost use Rattle.rbac_universe.specs.Sets.{IsUniverseOf, HasUniverseFault};
ghost use Rattle.rbac_reaches.specs.Reaches.{AreReaches};
ghost use Rattle.rbac_manifest.specs.Load.{LoadedView};
ghost use Rattle.rbac_question.specs.declared.command.Action.TheVariants.{Matrix as ListsMatrix};
ghost use Rattle.rbac_cli.specs.Printing.{EndsPrinting};
ghost use Rattle.rbac_cli.specs.declared.exports.Exports.TheVariants.{Single};

use crate::lines::print_lines;
use crate::outcome::Status;
use crate::output::Output;
use crate::pages::PageLines;
use crate::row_ends::RowEnds;
use crate::rows_left::RowsLeft;
use crate::stop::Stop;
use rbac_index::{Index, IndexFault};
use rbac_manifest::Export;
use rbac_matrix::{Matrix, Seat};
use rbac_model::Policy;
use rbac_question::MatrixOptions;
use rbac_reaches::{Reach, reaches_of};
use rbac_token::Mark;
use rbac_universe::{Universe, UniverseFault};
use std::alloc::{AllocError, Global};
use std::io::Write;

/// Prints a page of the matrix of what was loaded: a line for each row after the mark, at most as
/// many as the limit, and a last line: `next` and a token if more rows follow, otherwise `end`.
/// With `options.every` each binding that grants a request has a row, otherwise the first alone;
/// with `options.once` rows that have a namespace and a ClusterRoleBinding are left out.
pub(crate) fn print_matrix<W: Write + Drop>(
    alloc: Global,
    export: &Export,
    options: MatrixOptions,
    after: Option<&Mark>,
    limit: Option<u32>,
    output: &mut Output<'_, W>,
) -> Result<Status, Stop>
    requires { output.old.sink.now.has_failed ≡ false }
    ensures { EndsPrinting W.contents output.old output.new (Single export.now)
        (ListsMatrix options (option_copied after.entry) limit) result }
{
    let basis = basis_of(alloc, export)?;
    print_rows(alloc, &basis, options, after, limit, output)
}

// Prints a page of the rows of a matrix over this basis.
fn print_rows<W: Write + Drop>(
    alloc: Global,
    basis: &MatrixBasis<'_>,
    options: MatrixOptions,
    after: Option<&Mark>,
    limit: Option<u32>,
    output: &mut Output<'_, W>,
) -> Result<Status, Stop>
    requires works { output.old.sink.now.has_failed ≡ false }
    requires reaches { AreReaches basis.now.index basis.now.universe basis.now.reaches.items }
    ensures { (l : LoadedView) → IsUniverseOf l.lists basis.now.universe
        → basis.now.index ≡ l.policy
        → EndsPrinting W.contents output.old output.new (Single l)
        (ListsMatrix options (option_copied after.entry) limit) result }
{
    let Ok(mut seats) = seats_for(alloc, &basis.index) else {
        return Err(Stop::NoMemory);
    };
    let mut matrix = Matrix::build(
        &basis.index,
        &basis.universe,
        basis.reaches.as_slice(),
        seats.as_mut_slice(),
    );
    let left = RowsLeft::after(&mut matrix, options, after);
    let mut lines = PageLines {
        alloc,
        left,
        limit,
        last: None,
        ends: RowEnds::new(alloc),
        has_ended: false,
    };
    print_lines(alloc, &mut lines, Status::Zero, output)
}

// What a matrix is built on: a universe, an index, and the reach of each grant.
struct MatrixBasis<'p> {
    universe: Universe,
    index: Index<'p>,
    reaches: Vec<Reach>,
}

impl Drop for MatrixBasis<'_> {
    fn drop(self) {
        let Self {
            universe,
            index,
            reaches,
        } = self;
    }
}

// What the matrix of what was loaded is built on.
fn basis_of(alloc: Global, export: &Export) -> Result<MatrixBasis<'_>, UniverseFault>
    ensures universe { MatchResult result
        (λ basis. IsUniverseOf export.now.lists basis.universe)
        (HasUniverseFault export.now.lists) }
    ensures index { IfOk result (λ basis. basis.index ≡ export.now.policy) }
    ensures reaches { IfOk result
        (λ basis. AreReaches basis.index basis.universe basis.reaches.items) }
{
    let universe = universe_of(alloc, export)?;
    match basis_over(alloc, export.policy(), universe) {
        Ok(basis) => Ok(basis),
        Err(_) => Err(UniverseFault::NoMemory),
    }
}

// The universe of what was loaded. Its resources aren't listed if a rule by itself names too many of
// them. Its lists are dropped once it is built.
fn universe_of(alloc: Global, export: &Export) -> Result<Universe, UniverseFault>
    ensures { MatchResult result
        (IsUniverseOf export.now.lists) (HasUniverseFault export.now.lists) }
{
    if let Some(fault) = export.fault_of_wide_rule(alloc)? {
        return Err(fault);
    }
    let lists = export.lists(alloc)?;
    Universe::build(alloc, &lists)
}

// What the matrix of a policy over a universe is built on.
fn basis_over(
    alloc: Global,
    policy: &Policy,
    universe: Universe,
) -> Result<MatrixBasis<'_>, IndexFault>
    ensures universe { IfOk result (λ basis. basis.universe ≡ universe) }
    ensures index { IfOk result (λ basis. basis.index ≡ policy.now) }
    ensures reaches { IfOk result
        (λ basis. AreReaches basis.index basis.universe basis.reaches.items) }
{
    let index = Index::build(alloc, policy)?;
    let reaches = reaches_of(alloc, &index, &universe)?;
    Ok(MatrixBasis {
        universe,
        index,
        reaches,
    })
}

// A seat for each grant.
fn seats_for(alloc: Global, index: &Index<'_>) -> Result<Vec<Seat>, AllocError>
    ensures { IfOk result (λ seats. length seats.items ≡ length index.now.grants) }
{
    vec![in alloc; Seat::new(); index.len() as usize]
}
