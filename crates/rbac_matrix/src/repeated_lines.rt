//! Lines that have a namespace, and no cursor of a RoleBinding: each of their rows is a repeat.

ghost use Rattle.std.specs.Prelude.{◌≡◌, ◌<◌, ◌≤◌, ◌⊎◌, ◌↔◌, ℕ, IsTrue, MatchOption, Some};
ghost use Rattle.std.specs.Prelude.{false, option_copied};
ghost use Rattle.rbac_matrix.specs.RepeatedLines.{AreClusterWide, PassesRepeated};
ghost use Rattle.rbac_matrix.specs.Cursors.{AreRuns, IsCursorAt};
ghost use Rattle.rbac_model.specs.Universes.{most_words};
ghost use Rattle.rbac_matrix.specs.Lines.{IsSettled, next_verb};
ghost use Rattle.rbac_matrix.specs.Shown.{line_of};

use crate::bound_runs::Runs;
use crate::line::{Line, Place, after, line_at, settled};
use crate::unnamed::past_unnamed;
use crate::walk::{next_bound, whole_walk};
use rbac_index::Index;
use rbac_terms::{Word, verb_matches};
use rbac_universe::Universe;

// How many grants belong to ClusterRoleBindings. These grants come first.
pub(crate) fn cluster_grants(index: &Index<'_>) -> u32
    ensures { AreClusterWide index.now result }
{
    let policy = index.policy();
    let bindings = policy.bindings();
    let count = bindings.partition_point(|binding| binding.namespace.is_none());
    if count == 0 {
        return 0;
    }
    let (_, end) = policy.grants_of(count - 1);
    end
}

// Whether a grant from this number on is a cursor of the line.
pub(crate) fn has_cursor_from(index: &Index<'_>, line: Line<'_>, runs: &Runs, first: u32) -> bool
    requires { AreRuns index.now (line_of line) runs.now }
    ensures { ¬ IsTrue result
        → (k : ℕ) → first ≤ k → ¬ IsCursorAt index.now (line_of line.entry) k }
{
    let mut walk = whole_walk();
    while let Some(no) = next_bound(index, line, runs, &mut walk) {
        if no < first {
            continue;
        }
        if verb_matches(index.grant(no).rule, line.verb) {
            return true;
        }
    }
    false
}

// The place from which rows are searched for after a line that has a namespace is left. `named` is
// whether a RoleBinding names the principal in that namespace. If so, this is the next line there,
// so nothing is looked up within a namespace. Otherwise, and after the last line of the namespace,
// the lines of namespaces where no RoleBinding names their principal are passed.
pub(crate) fn after_repeats(index: &Index<'_>, universe: &Universe, at: Place, named: bool) -> Place
    requires few { at.verb < most_words }
    ensures passes { PassesRepeated index.now universe.now (next_verb at) result }
    ensures moved { (result ≡ next_verb at) ⊎ (result.verb ≡ 0) }
{
    let next = after(at);
    if named && next.verb < universe.verbs().len() {
        return next;
    }
    past_repeated(index, universe, next)
}

// The place of the first line, from this place on, whose namespace is empty, or is one where a
// RoleBinding names the line's principal; past all lines if there is none.
pub(crate) fn past_repeated(index: &Index<'_>, universe: &Universe, at: Place) -> Place
    ensures settled { IsSettled universe.now result }
    ensures passes { PassesRepeated index.now universe.now at result }
    ensures moved { (result ≡ at) ⊎ (result.verb ≡ 0) }
{
    let mut at = settled(universe, at);
    while let Some(line) = line_at(universe, at) {
        if line.namespace.is_empty() {
            return at;
        }
        let named = index
            .subjects()
            .next_namespace(line.principal, line.namespace);
        let past = past_unnamed(index, universe, at, line, named);
        if past.namespace == at.namespace {
            return at;
        }
        at = settled(universe, past);
        if is_named(universe.namespaces().get(past.namespace), named) {
            return at;
        }
    }
    at
}

// Whether both namespaces are given and are the same.
fn is_named(here: Option<&Word>, named: Option<&Word>) -> bool
    ensures { MatchOption (option_copied named.entry) (result ≡ false)
        (λ text. IsTrue result ↔ (option_copied here.entry ≡ Some text)) }
{
    match (here, named) {
        (Some(here), Some(named)) => here == named,
        _ => false,
    }
}
