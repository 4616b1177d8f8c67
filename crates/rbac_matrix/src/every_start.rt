//! Where the rows of every granting binding that come after a mark begin.

ghost use Rattle.std.specs.Prelude.{Some, ◌≡◌, ◌⊎◌, ◌<◌, ◌≤◌, MatchOption, length};
ghost use Rattle.std.specs.Option.{option_copied};
ghost use Rattle.std.specs.Cmp.Lexicographic.{slice_cmp};
ghost use Rattle.rbac_terms.specs.Text.{text_cmp};
ghost use Rattle.rbac_model.specs.Lists.{IsAscendingBy};
ghost use Rattle.rbac_model.specs.Policies.{IsPolicy, binding_name};
ghost use Rattle.rbac_model.specs.Universes.{IsUniverse, most_targets};
ghost use Rattle.rbac_token.specs.Marks.{name_texts};
ghost use Rattle.rbac_matrix.specs.EveryLeft.{AreBelow};
ghost use Rattle.rbac_matrix.specs.EveryStart.{ArePastName, HasNoRequest, IsEveryStart, IsKeyStart};
ghost use Rattle.rbac_matrix.specs.EveryStart.{IsOwnRequest, key_of_mark};
ghost use Rattle.rbac_matrix.specs.Lines.{IsSettled};
ghost use Rattle.rbac_matrix.specs.Starting.{BeginsOnLine, IsStart};

use crate::start::{Start, line_place, start_after, target_place};
use rbac_index::Index;
use rbac_terms::{Binding, Key};
use rbac_token::{BindingName, Mark};
use rbac_universe::Universe;
use std::cmp::Ordering;

/// The start at a request's line and target, the place of the binding from which that request's
/// rows are included, and where the grants of the bindings before this one end.
#[derive(Clone, Copy)]
pub(crate) struct EveryStart {
    pub(crate) request: Start,
    pub(crate) binding: usize,
    pub(crate) upto: u32,
}

// How the binding compares to this name: ClusterRoleBindings come first.
fn cmp_binding(binding: &Binding, name: &BindingName) -> Ordering
    ensures { result ≡ slice_cmp text_cmp (binding_name binding.now) (name_texts (Some name.now)) }
{
    match (&binding.namespace, &name.namespace) {
        (None, None) => binding.name.cmp(&name.name),
        (None, Some(_)) => Ordering::Less,
        (Some(_), None) => Ordering::Greater,
        (Some(mine), Some(theirs)) => mine.cmp(theirs).then(binding.name.cmp(&name.name)),
    }
}

// The place of the first binding that comes after this name; past all bindings if there is none.
fn place_past(bindings: &[Binding], name: &BindingName) -> usize
    requires { IsAscendingBy binding_name bindings.now }
    ensures { ArePastName bindings.now name.now result }
{
    match bindings.binary_search_by(|binding| cmp_binding(binding, name)) {
        Ok(place) => place + 1,
        Err(place) => place,
    }
}

// Where the grants of the bindings before this place end.
fn grants_before(index: &Index<'_>, place: usize) -> u32
    ensures { AreBelow index.now result place }
{
    if place == 0 {
        return 0;
    }
    let (_, end) = index.policy().grants_of(place - 1);
    end
}

// The start at the key's own line and target; `None` if no request of the universe has this key.
fn own_request(universe: &Universe, key: &Key) -> Option<Start>
    ensures found { MatchOption result (HasNoRequest universe.now key.now)
        (λ own. IsOwnRequest universe.now key.now own.at own.from) }
    ensures universe { IsUniverse universe.now }
    ensures few { length universe.now.targets ≤ most_targets }
{
    let target = target_place(universe, key);
    let Ok(at) = line_place(universe, key) else {
        return None;
    };
    let Ok(place) = target else {
        return None;
    };
    Some(Start {
        at,
        from: place as u32,
    })
}

// Where the rows after this key begin, each request with all its bindings.
fn whole_start(universe: &Universe, key: Option<&Key>) -> EveryStart
    ensures settled { IsSettled universe.now result.request.at }
    ensures start { IsStart universe.now
        (option_copied key.entry) result.request.at result.request.from }
    ensures line { BeginsOnLine universe.now
        (option_copied key.entry) result.request.at result.request.from }
    ensures few { result.request.from ≤ most_targets }
    ensures whole { (result.binding ≡ 0) × (result.upto ≡ 0) }
{
    EveryStart {
        request: start_after(universe, key),
        binding: 0,
        upto: 0,
    }
}

// Where the rows after this mark begin; without a mark, where all rows begin.
pub(crate) fn every_start(index: &Index<'_>, universe: &Universe, mark: Option<&Mark>) -> EveryStart
    ensures settled { IsSettled universe.now result.request.at }
    ensures few { result.request.from ≤ most_targets }
    ensures start { IsPolicy index.now → IsUniverse universe.now
        → IsEveryStart index.now.held universe.now
        (option_copied mark.entry) result.request.at result.request.from result.binding }
    ensures key { IsKeyStart universe.now
        (key_of_mark (option_copied mark.entry)) result.request.at result.request.from }
    ensures below { AreBelow index.now result.upto result.binding }
    ensures within { (result.binding ≡ 0) ⊎ (result.request.from < length universe.now.targets) }
{
    let Some(mark) = mark else {
        return whole_start(universe, None);
    };
    let Some(name) = &mark.binding else {
        return whole_start(universe, Some(&mark.key));
    };
    let Some(request) = own_request(universe, &mark.key) else {
        return whole_start(universe, Some(&mark.key));
    };
    let binding = place_past(index.policy().bindings(), name);
    EveryStart {
        request,
        binding,
        upto: grants_before(index, binding),
    }
}
