//! The grants of the bindings that name a principal and may be live in a namespace, as runs.

ghost use Rattle.std.specs.Prelude.{◌≡◌, ◌<◌, ◌≤◌, ◌↔◌, [], ℕ, IsTrue, Some, length, slice_get};
ghost use Rattle.std.specs.Prelude.{Any, false};
ghost use Rattle.rbac_matrix.specs.Shown.{line_of};
ghost use Rattle.rbac_subjects.specs.Bound.{AreRunsFrom, HasRoleBindings};
ghost use Rattle.rbac_model.specs.Policies.{GrantView, IsPolicy, PolicyView};
ghost use Rattle.rbac_model.specs.Universes.{UniverseView};
ghost use Rattle.rbac_matrix.specs.Cursors.{AreRuns, AreRunsOf, AreVerbs, ServeBare, KeepGrantVerbs};
ghost use Rattle.rbac_matrix.specs.Cursors.{end_after};
ghost use Rattle.rbac_matrix.specs.Lines.{LineView};
ghost use Rattle.rbac_matrix.specs.GrantVerbs.{AreVerbsOfGrant, AreVerbsOfGrants};
ghost use Rattle.rbac_matrix.specs.VerbPlaces.{AddsVerbs, LacksPlace};

use crate::grant_verbs::{GrantVerbs, MOST_VERBS};
use crate::line::Line;
use crate::verb_places::VerbPlaces;
use crate::walk::{next_bound, whole_walk};
use arrayvec::ArrayVec;
use rbac_index::Index;
use rbac_subjects::{FirstRuns, Run};
use rbac_terms::Word;
use rbac_universe::Universe;

// The most runs of a line that are kept.
const MOST_RUNS: usize = 1_024;

// For how many of a line's grants the verbs are kept.
const MOST_GRANTS: usize = 128;

/// The first runs of a line's grants: those whose bindings name the line's principal and may be
/// live in its namespace.
#[derive(Drop)]
pub(crate) struct Runs {
    // At most `MOST_RUNS`. If there are more, walks look up the other runs, or step over grants
    // until they come to them.
    kept: ArrayVec<Run, MOST_RUNS>,
    // Whether it is known that there are no other runs.
    are_all: bool,
    // If true, the namespace of the line has no RoleBinding. So the runs are those of
    // ClusterRoleBindings, and the principal has the same runs in every such namespace.
    is_bare: bool,
    // A set that has each verb of the line's grants, and maybe other verbs. If a grant has all
    // verbs, the set has no room, so it lacks no verb.
    verbs: VerbPlaces,
    // Which verbs the rule of each of the first grants has.
    grants: ArrayVec<GrantVerbs, MOST_GRANTS>,
}

impl Runs {
    // No runs, for when there is no line.
    pub(crate) fn new() -> Self
        ensures { result.grants.items ≡ [] }
    {
        Runs {
            kept: ArrayVec::new(),
            are_all: true,
            is_bare: false,
            verbs: VerbPlaces::new(),
            grants: ArrayVec::new(),
        }
    }

    // The first runs of the line, with the verbs that its grants have.
    pub(crate) fn of(index: &Index<'_>, universe: &Universe, line: Line<'_>) -> Self
        ensures runs { AreRunsOf index.now universe.now (line_of line.entry) result }
        ensures bare { ServeBare index.now universe.now line.entry.principal.now result }
    {
        let mut runs = Runs::new();
        runs.fill(index, universe, line);
        runs
    }

    // Replaces the runs and verbs with those of this line. Verbs that are known of a grant are
    // kept. Not inlined: a function clears the room for its own values at each call, so callers
    // would clear the room for this function's values too.
    #[inline(never)]
    pub(crate) fn fill(&mut self, index: &Index<'_>, universe: &Universe, line: Line<'_>)
        requires { KeepGrantVerbs index.now universe.now self.old }
        ensures runs { AreRunsOf index.now universe.now (line_of line.entry) self.new }
        ensures bare { ServeBare index.now universe.now line.entry.principal.now self.new }
    {
        self.fill_runs(index, line);
        self.fill_verbs(index, universe, line);
    }

    // Replaces the runs with the first runs of this line, but doesn't fill in the verbs. The first
    // runs are found together. If there are more, each of the others is looked up.
    fn fill_runs(&mut self, index: &Index<'_>, line: Line<'_>)
        ensures runs { AreRuns index.now (line_of line.entry) self.new }
        ensures bare { IsTrue self.new.is_bare
            → ¬ HasRoleBindings index.now.held line.entry.namespace.now }
        ensures policy { IsPolicy index.now }
        ensures grants { self.new.grants ≡ self.old.grants }
    {
        let subjects = index.subjects();
        let found = subjects.first_runs(line.principal, line.namespace);
        self.keep_first(&found);
        self.keep_others(index, line);
        self.is_bare = !subjects.has_role_bindings(line.namespace);
    }

    // Replaces all runs with these.
    fn keep_first(&mut self, found: &FirstRuns)
        ensures runs { (p : PolicyView) (l : LineView)
            → AreRunsFrom p l.who l.namespace found.now.are_all 0 found.now.runs.items
            → AreRuns p l self.new }
        ensures same { self.new
            ≡ record self.old { kept = self.new.kept; are_all = self.new.are_all } }
    {
        self.kept.clear();
        match self.kept.try_extend_from_slice(found.runs.as_slice()) {
            Ok(()) => self.are_all = found.are_all,
            // There is always room. Without room, no run would be kept.
            Err(_) => self.are_all = false,
        }
    }

    // Adds the runs that follow the kept ones, as many as there is room for.
    fn keep_others(&mut self, index: &Index<'_>, line: Line<'_>)
        requires { AreRuns index.now (line_of line) self.old }
        ensures runs { AreRuns index.now (line_of line.entry) self.new }
        ensures same { self.new
            ≡ record self.old { kept = self.new.kept; are_all = self.new.are_all } }
    {
        if self.are_all {
            return;
        }
        let subjects = index.subjects();
        let mut from = self.kept_end();
        while !self.kept.is_full() {
            let Some((start, end)) = subjects.next_run(line.principal, line.namespace, from) else {
                self.are_all = true;
                return;
            };
            self.kept.push(Run { start, end });
            from = end;
        }
    }

    // Where the last kept run ends; 0 if no run is kept.
    fn kept_end(&self) -> u32
        ensures { result ≡ end_after 0 self.now.kept.items }
    {
        match self.kept.as_slice().last() {
            Some(last) => last.end,
            None => 0,
        }
    }

    // Fills in which verbs the line's grants have, and which verbs each of the first grants has.
    // Later grants are looked at only as long as some verb is lacking.
    fn fill_verbs(&mut self, index: &Index<'_>, universe: &Universe, line: Line<'_>)
        requires runs { AreRuns index.now (line_of line) self.old }
        requires told { KeepGrantVerbs index.now universe.now self.old }
        ensures verbs { AreVerbs index.now universe.now
            line.entry.principal.now line.entry.namespace.now self.new.verbs.words.items }
        ensures told { KeepGrantVerbs index.now universe.now self.new }
        ensures same { self.new ≡ record self.old { grants = self.new.grants; verbs = self.new.verbs } }
    {
        let all = universe.verbs().len();
        self.verbs.clear(all);
        let mut walk = whole_walk();
        let mut nth: usize = 0;
        let mut had = 0;
        while let Some(no) = next_bound(index, line, self, &mut walk) {
            self.add_grant(index, universe, nth, no);
            nth = nth.saturating_add(1);
            had = self.past_had(nth, had, all);
            if had == all {
                return;
            }
        }
    }

    // A place before which no verb is lacking, given that none is before `had`. Among the first
    // `MOST_GRANTS` grants it stays `had`: the walk goes on there, to fill in the verbs of each.
    fn past_had(&self, nth: usize, had: usize, all: usize) -> usize
        requires { had ≤ all }
        ensures within { result ≤ all }
        ensures had { (place : ℕ) → had ≤ place → place < result
            → ¬ LacksPlace self.now.verbs.words.items place }
    {
        if nth < MOST_GRANTS {
            return had;
        }
        self.verbs.past_had(had, all)
    }

    // Adds the verbs of this grant, which is the `nth` of the line's grants, counted from 0.
    fn add_grant(&mut self, index: &Index<'_>, universe: &Universe, nth: usize, no: u32)
        requires within { no < length index.now.grants }
        requires told { KeepGrantVerbs index.now universe.now self.old }
        ensures adds { (g : GrantView) → slice_get index.now.grants no ≡ Some g
            → AddsVerbs g.rule.rule universe.now.verbs
            self.old.verbs.words.items self.new.verbs.words.items }
        ensures told { KeepGrantVerbs index.now universe.now self.new }
        ensures same { self.new ≡ record self.old { grants = self.new.grants; verbs = self.new.verbs } }
    {
        let verbs = universe.verbs();
        if nth < MOST_GRANTS {
            let told = GrantVerbs::of(index, universe, no, self.grants.as_slice(), nth);
            keep_at(&mut self.grants, nth, told);
            if verbs.len() <= MOST_VERBS {
                self.verbs.add_bits(told.bits());
                return;
            }
        }
        self.verbs.add_rule(index.grant(no).rule, verbs);
    }

    // Marks the runs as those of one namespace, so that they serve no other.
    pub(crate) fn keep_here(&mut self)
        ensures { self.new ≡ record self.old { is_bare = false } }
    {
        self.is_bare = false;
    }

    // Whether these runs of a principal are known to be the same in this namespace.
    pub(crate) fn serve(&self, index: &Index<'_>, namespace: &Word) -> bool
        ensures { IsTrue result
            → IsTrue self.now.is_bare × (¬ HasRoleBindings index.now.held namespace.now) }
    {
        self.is_bare && !index.subjects().has_role_bindings(namespace)
    }

    // Whether it is known that none of the line's grants has the verb at this place.
    pub(crate) fn lack_verb(&self, place: usize) -> bool
        ensures { IsTrue result ↔ LacksPlace self.now.verbs.words.items place }
    {
        self.verbs.lack(place)
    }

    // The first place, from this one on, for which `lack_verb` is false.
    pub(crate) fn next_verb(&self, from: usize) -> usize
        ensures on { from ≤ result }
        ensures none { (place : ℕ) → from ≤ place → place < result
            → LacksPlace self.now.verbs.words.items place }
        ensures here { ¬ LacksPlace self.now.verbs.words.items result }
    {
        self.verbs.next(from)
    }

    // The runs that are kept.
    pub(crate) fn kept(&self) -> &[Run]
        ensures { result.now ≡ self.now.kept.items }
    {
        self.kept.as_slice()
    }

    // The verbs of each of the line's first grants.
    pub(crate) fn grants(&self) -> &[GrantVerbs]
        ensures { result.now ≡ self.now.grants.items }
    {
        self.grants.as_slice()
    }

    // Whether one of the kept runs has a grant from this number on.
    pub(crate) fn have_from(&self, first: u32) -> bool
        ensures { IsTrue result ↔ Any (λ run. first < run.end) self.now.kept.items }
    {
        self.kept.as_slice().iter().any(|run| first < run.end)
    }

    // Whether it is known that all runs are kept.
    pub(crate) fn are_all(&self) -> bool
        ensures { result ≡ self.now.are_all }
    {
        self.are_all
    }

    // Whether no run is kept at this place, but there may be one.
    pub(crate) fn are_unknown_at(&self, place: usize) -> bool
        ensures { IsTrue result
            ↔ ((length self.now.kept.items ≤ place) × (self.now.are_all ≡ false)) }
    {
        self.kept.len() <= place && !self.are_all
    }

    // Whether the line has no runs.
    pub(crate) fn is_empty(&self) -> bool
        ensures { IsTrue result ↔ ((self.now.kept.items ≡ []) × IsTrue self.now.are_all) }
    {
        self.kept.is_empty() && self.are_all
    }
}

// Puts a grant's verbs at this place, or after all others if the list is shorter and has room.
fn keep_at(kept: &mut ArrayVec<GrantVerbs, MOST_GRANTS>, nth: usize, told: GrantVerbs)
    ensures { (p : PolicyView) (u : UniverseView) → AreVerbsOfGrants p u kept.old.items
        → AreVerbsOfGrant p u told → AreVerbsOfGrants p u kept.new.items }
{
    if nth < kept.as_slice().len() {
        kept.as_mut_slice()[nth] = told;
        return;
    }
    if !kept.is_full() {
        kept.push(told);
    }
}
