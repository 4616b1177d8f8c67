//! The lines of a universe. A line is a principal, a namespace and a verb.

ghost use Rattle.std.specs.Prelude.{◌≡◌, ◌∷◌, [], ◌<◌, ◌≤◌, ◌+◌, ◌⊎◌, length, IfSome};
ghost use Rattle.std.specs.Prelude.{MatchOption};
ghost use Rattle.rbac_model.specs.Universes.{IsUniverse, most_words};
ghost use Rattle.rbac_universe.specs.Sets.{IsWithinLimits};
ghost use Rattle.rbac_matrix.specs.Lines.{IsLineAt, IsMoved, IsSettled, lines_from};
ghost use Rattle.rbac_matrix.specs.Lines.{next_verb, place};
ghost use Rattle.rbac_matrix.specs.Shown.{HasItsVerb, line_of};

use rbac_terms::{Principal, Word};
use rbac_universe::Universe;

/// The places of a line's principal, namespace and verb in the lists of a universe.
#[derive(Clone, Copy, PartialEq)]
pub(crate) struct Place {
    pub(crate) principal: usize,
    pub(crate) namespace: usize,
    pub(crate) verb: usize,
}

impl Place {
    // The place of the first line of a principal.
    pub(crate) fn of_principal(principal: usize) -> Self
        ensures { result ≡ place principal 0 0 }
    {
        Place::of_namespace(principal, 0)
    }

    // The place of the first line of a principal in a namespace.
    pub(crate) fn of_namespace(principal: usize, namespace: usize) -> Self
        ensures { result ≡ place principal namespace 0 }
    {
        Place {
            principal,
            namespace,
            verb: 0,
        }
    }
}

/// A line: a principal, a namespace and a verb, with the place of the verb in the universe.
#[derive(Clone, Copy)]
pub(crate) struct Line<'a> {
    pub(crate) principal: &'a Principal,
    pub(crate) namespace: &'a Word,
    pub(crate) verb: &'a Word,
    pub(crate) verb_place: usize,
}

// The line at this place; `None` past the last line.
pub(crate) fn line_at<'a>(universe: &'a Universe, at: Place) -> Option<Line<'a>>
    requires { IsSettled universe.now at }
    ensures universe { IsUniverse universe.now }
    ensures limits { IsWithinLimits universe.now }
    ensures few { IfSome result
        (λ _. (at.principal < most_words) × (at.namespace < most_words) × (at.verb < most_words)) }
    ensures place { IfSome result (λ line. IsLineAt universe.now at (line_of line)) }
    ensures verb { IfSome result (HasItsVerb universe.now) }
    ensures line { MatchOption result (lines_from universe.now at ≡ [])
        (λ line. lines_from universe.now at
        ≡ line_of line ∷ lines_from universe.now (next_verb at)) }
{
    let universe: &'a Universe = universe;
    Some(Line {
        principal: universe.principals().get(at.principal)?,
        namespace: universe.namespaces().get(at.namespace)?,
        verb: universe.verbs().get(at.verb)?,
        verb_place: at.verb,
    })
}

// The place after that of this line: the next verb's, or one past the last verb.
pub(crate) fn after(at: Place) -> Place
    requires { at.verb < most_words }
    ensures { result ≡ next_verb at }
{
    Place {
        principal: at.principal,
        namespace: at.namespace,
        verb: at.verb + 1,
    }
}

// The place, or, if it is past the last verb, the first place of the next namespace.
fn after_verbs(universe: &Universe, at: Place) -> Place
    ensures same { lines_from universe.now result ≡ lines_from universe.now at }
    ensures moved { (result ≡ at) ⊎ ((result.verb ≡ 0) × (result.principal ≡ at.principal)
        × (length universe.now.verbs ≤ at.verb)) }
    ensures verb { 0 < length universe.now.verbs → result.namespace < length universe.now.namespaces
        → result.verb < length universe.now.verbs }
{
    let namespaces = universe.namespaces().len();
    let verbs = universe.verbs().len();
    if at.namespace < namespaces && verbs <= at.verb {
        return Place::of_namespace(at.principal, at.namespace + 1);
    }
    at
}

// The place, or, if it is past the last namespace, the first place of the next principal.
fn after_namespaces(universe: &Universe, at: Place) -> Place
    requires { at.namespace < length universe.now.namespaces → at.verb < length universe.now.verbs }
    ensures same { lines_from universe.now result ≡ lines_from universe.now at }
    ensures moved { (result ≡ at) ⊎ ((result.verb ≡ 0) × (result.namespace ≡ 0)) }
    ensures settled { 0 < length universe.now.namespaces → 0 < length universe.now.verbs
        → IsSettled universe.now result }
{
    let principals = universe.principals().len();
    let namespaces = universe.namespaces().len();
    if at.principal < principals && namespaces <= at.namespace {
        return Place::of_principal(at.principal + 1);
    }
    at
}

// The place itself if a line is there, otherwise the place of the next line; past all lines if
// there is none.
pub(crate) fn settled(universe: &Universe, at: Place) -> Place
    ensures settled { IsSettled universe.now result }
    ensures same { lines_from universe.now result ≡ lines_from universe.now at }
    ensures moved { IsMoved at result }
{
    if universe.namespaces().is_empty() {
        return at;
    }
    if universe.verbs().is_empty() {
        return at;
    }
    after_namespaces(universe, after_verbs(universe, at))
}
