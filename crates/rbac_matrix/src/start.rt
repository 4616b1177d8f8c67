//! Where the rows after a key begin.

ghost use Rattle.std.specs.Prelude.{length, Some, ◌≡◌, [], ◌∷◌, ◌≤◌, IfOk, IfErr};
ghost use Rattle.std.specs.Option.{option_copied};
ghost use Rattle.std.specs.Cmp.Lexicographic.{slice_cmp};
ghost use Rattle.rbac_terms.specs.Text.{text_cmp};
ghost use Rattle.rbac_terms.specs.Principals.{who_key};
ghost use Rattle.rbac_model.specs.Lists.{IsAscendingBy};
ghost use Rattle.rbac_matrix.specs.Blocks.{AreBlocksAt};
ghost use Rattle.rbac_matrix.specs.Cursors.{AreRunsAt};
ghost use Rattle.rbac_matrix.specs.Lines.{IsSettled, lines_from};
ghost use Rattle.rbac_model.specs.Policies.{IsPolicy};
ghost use Rattle.rbac_model.specs.Universes.{IsUniverse, most_targets};
ghost use Rattle.rbac_matrix.specs.Metering.{AreSought, IsMetered, IsReady};
ghost use Rattle.rbac_reaches.specs.Reaches.{AreReaches};
ghost use Rattle.rbac_matrix.specs.Seats.{AreEmpty};
ghost use Rattle.rbac_matrix.specs.Starting.{BeginsOnLine, HasNoLine, IsFoundAt, IsGapAt};
ghost use Rattle.rbac_matrix.specs.Starting.{IsOwnPlace, IsStart, IsTargetPlace, target_part};
ghost use Rattle.rbac_reaches.specs.Matched.{what_texts};
ghost use Rattle.rbac_matrix.specs.Starting.{whats};

use crate::basis::Basis;
use crate::bound_runs::Runs;
use crate::kept::Kept;
use crate::line::{Place, line_at, settled};
use crate::seat::Seat;
use crate::seats::seat_line;
use rbac_reaches::Meter;
use rbac_terms::{Key, Target, Word};
use rbac_universe::Universe;
use std::cmp::Ordering;

/// A start: the place of a line, and the place of the target from which its rows are included.
#[derive(Clone, Copy)]
pub(crate) struct Start {
    pub(crate) at: Place,
    pub(crate) from: u32,
}

// The place of the key's principal; as an error, the place where it would go.
fn principal_place(universe: &Universe, key: &Key) -> Result<usize, usize>
    ensures found { IfOk result
        (IsFoundAt text_cmp who_key universe.now.principals key.now.principal) }
    ensures gap { IfErr result
        (IsGapAt text_cmp who_key universe.now.principals key.now.principal) }
    ensures universe { IsUniverse universe.now }
{
    let wanted = key.field(0);
    let principals = universe.principals();
    principals.binary_search_by(|principal| principal.key().cmp(wanted))
}

// The place of the word; as an error, the place where it would go.
pub(crate) fn word_place(words: &[Word], word: &Word) -> Result<usize, usize>
    requires { IsAscendingBy (λ w. w ∷ []) words.now }
    ensures found { IfOk result (IsFoundAt text_cmp (λ w. w) words.now word.now) }
    ensures gap { IfErr result (IsGapAt text_cmp (λ w. w) words.now word.now) }
{
    words.binary_search_by(|held| held.cmp(word))
}

// How the target compares to the target of the key.
fn cmp_target(target: &Target, key: &Key) -> Ordering
    ensures { result ≡ slice_cmp text_cmp (what_texts target.now) (target_part key.now) }
{
    let by_name = target.name().cmp(key.field(5));
    let by_text = target.text().cmp(key.field(4));
    target.group().cmp(key.field(3)).then(by_text.then(by_name))
}

// The place of the key's target; as an error, the place where it would go.
pub(crate) fn target_place(universe: &Universe, key: &Key) -> Result<usize, usize>
    ensures found { IfOk result
        (IsFoundAt (slice_cmp text_cmp) what_texts (whats universe.now) (target_part key.now)) }
    ensures gap { IfErr result
        (IsGapAt (slice_cmp text_cmp) what_texts (whats universe.now) (target_part key.now)) }
    ensures few { length universe.now.targets ≤ most_targets }
    ensures universe { IsUniverse universe.now }
{
    let targets = universe.targets();
    targets.binary_search_by(|target| cmp_target(target, key))
}

// The place of the first target that comes after the key's target.
fn place_after(universe: &Universe, key: &Key) -> usize
    ensures place { IsTargetPlace universe.now key.now result }
    ensures few { result ≤ most_targets }
{
    match target_place(universe, key) {
        Ok(place) => place + 1,
        Err(place) => place,
    }
}

// The place of the key's own line; as an error, the place where the lines after it begin.
pub(crate) fn line_place(universe: &Universe, key: &Key) -> Result<Place, Place>
    ensures found { IfOk result (IsOwnPlace universe.now key.now) }
    ensures gap { IfErr result (λ at. IsStart universe.now (Some key.now) at 0) }
    ensures absent { IfErr result (λ _. HasNoLine universe.now key.now) }
    ensures universe { IsUniverse universe.now }
{
    let principal = match principal_place(universe, key) {
        Ok(place) => place,
        Err(place) => return Err(Place::of_principal(place)),
    };
    let namespace = match word_place(universe.namespaces(), key.field(1)) {
        Ok(place) => place,
        Err(place) => return Err(Place::of_namespace(principal, place)),
    };
    let verb = match word_place(universe.verbs(), key.field(2)) {
        Ok(place) => place,
        Err(place) => {
            return Err(Place {
                principal,
                namespace,
                verb: place,
            });
        }
    };
    Ok(Place {
        principal,
        namespace,
        verb,
    })
}

// The start of the line at the place, or of the next line if none is there.
fn line_start(universe: &Universe, at: Place) -> Start
    ensures settled { IsSettled universe.now result.at }
    ensures same { lines_from universe.now result.at ≡ lines_from universe.now at }
    ensures whole { result.from ≡ 0 }
{
    Start {
        at: settled(universe, at),
        from: 0,
    }
}

// Where the rows after this key begin.
fn start_at(universe: &Universe, key: &Key) -> Start
    ensures settled { IsSettled universe.now result.at }
    ensures start { IsStart universe.now (Some key.now) result.at result.from }
    ensures line { BeginsOnLine universe.now (Some key.now) result.at result.from }
    ensures few { result.from ≤ most_targets }
{
    match line_place(universe, key) {
        Ok(at) => Start {
            at,
            from: place_after(universe, key) as u32,
        },
        Err(at) => line_start(universe, at),
    }
}

// Where the rows after this key begin; without a key, where all rows begin.
pub(crate) fn start_after(universe: &Universe, key: Option<&Key>) -> Start
    ensures settled { IsSettled universe.now result.at }
    ensures start { IsStart universe.now (option_copied key.entry) result.at result.from }
    ensures line { BeginsOnLine universe.now (option_copied key.entry) result.at result.from }
    ensures few { result.from ≤ most_targets }
{
    match key {
        Some(key) => start_at(universe, key),
        None => line_start(universe, Place::of_principal(0)),
    }
}

// Seats the cursors of the line where the rows begin, if there is one. Returns for how many cursors
// the first entry was searched for: 0 if the rows begin with the line's first target. Expects all
// seats to be empty.
pub(crate) fn seat_start(
    basis: Basis<'_>,
    start: Start,
    kept: &mut Kept,
    seats: &mut [Seat],
    meter: &mut Meter,
) -> usize
    requires policy { IsPolicy basis.index.now }
    requires reaches { AreReaches basis.index.now basis.universe.now basis.reaches.now }
    requires settled { IsSettled basis.universe.now start.at }
    requires few { start.from ≤ most_targets }
    requires empty { AreEmpty basis.index.now seats.old }
    requires fresh { meter.old ≡ 0 }
    ensures ready { IsReady basis.entry.index.now basis.entry.universe.now basis.entry.reaches.now
        start.at start.from 0 seats.new }
    ensures runs { AreRunsAt basis.entry.index.now basis.entry.universe.now start.at kept.new.runs }
    ensures blocks { AreBlocksAt basis.entry.index.now basis.entry.universe.now
        start.at kept.new seats.new }
    ensures metered { IsMetered basis.entry.index.now basis.entry.universe.now
        start.at result start.at seats.new 0 meter.new }
    ensures whole { start.from ≡ 0 → result ≡ 0 }
    ensures sought { AreSought basis.entry.index.now basis.entry.universe.now start.at result }
    ensures universe { IsUniverse basis.entry.universe.now }
{
    let index = basis.index;
    let Some(line) = line_at(basis.universe, start.at) else {
        return 0;
    };
    kept.runs = Runs::of(index, basis.universe, line);
    let filled = seat_line(basis, line, &kept.runs, start.from, seats, meter);
    kept.blocks.fill(index, line, &kept.runs, filled, seats);
    if start.from == 0 {
        return 0;
    }
    filled
}
