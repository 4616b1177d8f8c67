//! Passes namespaces where no RoleBinding names the principal.

ghost use Rattle.std.specs.Prelude.{◌≡◌, ◌≢◌, ◌<◌, ◌⊎◌, IsTrue, Some, length, option_copied};
ghost use Rattle.std.specs.declared.cmp.Ordering.TheVariants.{Less};
ghost use Rattle.rbac_terms.specs.Text.{Text, text_cmp};
ghost use Rattle.rbac_subjects.specs.Bound.{AnswersNextNamespace};
ghost use Rattle.rbac_matrix.specs.Lines.{lines_from};
ghost use Rattle.rbac_matrix.specs.Shown.{line_of};
ghost use Rattle.rbac_matrix.specs.Unnamed.{BeginsFrom, PassesUnnamed};

use crate::line::{Line, Place};
use rbac_index::Index;
use rbac_terms::Word;
use rbac_universe::Universe;

// The place of the first namespace, from this place on, that doesn't come before `named`; past all
// namespaces if there is no `named`. `named` is the first namespace, from the line's own on, where
// a RoleBinding names the principal. The line is in the namespace at the place, or in an earlier
// one.
pub(crate) fn past_unnamed(
    index: &Index<'_>,
    universe: &Universe,
    at: Place,
    line: Line<'_>,
    named: Option<&Word>,
) -> Place
    requires begins { BeginsFrom universe.now at line.principal.now line.namespace.now }
    requires named { AnswersNextNamespace index.now line.principal.now line.namespace.now
        (option_copied named) }
    ensures passes { PassesUnnamed index.now universe.now line.entry.principal.now
        line.entry.namespace.now at result }
    ensures principal { result.principal ≡ at.principal }
    ensures same { result.namespace ≡ at.namespace → result ≡ at }
    ensures moved { (result ≡ at) ⊎ (result.verb ≡ 0) }
    ensures fewer { result.namespace ≢ at.namespace
        → length (lines_from universe.now result) < length (lines_from universe.now at) }
{
    let namespaces = universe.namespaces();
    let mut past = at;
    while let Some(namespace) = namespaces.get(past.namespace) {
        if !is_before(namespace, named) {
            return past;
        }
        past = Place::of_namespace(past.principal, past.namespace + 1);
    }
    past
}

// Whether the namespace comes before `named`; true if there is no `named`.
fn is_before(namespace: &Word, named: Option<&Word>) -> bool
    ensures { IsTrue result → (found : Text) → option_copied named.entry ≡ Some found
        → text_cmp namespace.now found ≡ Less }
{
    match named {
        Some(named) => namespace < named,
        None => true,
    }
}
