//! The places of a universe's targets that the rules of grants match.

ghost use Rattle.std.specs.Prelude.{◌≡◌, ◌<◌, ◌≤◌, ◌+◌, IfOk, OnOk, length, slice_index};
ghost use Rattle.std.specs.List.Sorted.{IsStrictlyIncreasing};
ghost use Rattle.rbac_reaches.specs.Matched.{AreStemEndsOf};
ghost use Rattle.rbac_reaches.specs.Reaches.{raised, IsReachAt, AreReachesBelow, AreReaches};
ghost use Rattle.rbac_model.specs.Universes.{most_targets};

use crate::matches::matched;
use crate::meter::Meter;
use crate::spans::Spans;
use crate::stems::stem_ends;
use rbac_index::{Index, IndexFault};
use rbac_universe::Universe;
use std::alloc::{AllocError, Global};
use std::marker::Model;
use std::rc::Rc;

/// The places, ascending, of the targets of a universe that a grant's rule matches, verbs aside: at
/// most a million. Neighbouring places are kept as one run, and the reaches of grants by the same
/// rule share their places.
#[derive(Drop)]
pub struct Reach {
    places: Rc<Spans>,
}

impl Model for Reach {
    ghost use Rattle.std.specs.Prelude.{ℕ, List};

    ghost Value = { List ℕ };

    ghost view = { λ r. r.places.value };
}

impl Reach {
    /// The reach of the grant with this number, from 0. X1 NoMemory if it runs out of memory.
    pub fn of(
        alloc: Global,
        index: &Index<'_>,
        no: u32,
        universe: &Universe,
    ) -> Result<Self, IndexFault>
        requires { no < length index.now.grants }
        ensures { IfOk result (λ r. IsReachAt index.now universe.now no r) }
    {
        let ends = stem_ends_of(alloc, universe)?;
        Self::by_stem_ends(alloc, index, no, universe, ends.as_slice())
    }

    // The reach of a grant's rule, given where the stems of the universe's targets end.
    fn by_stem_ends(
        alloc: Global,
        index: &Index<'_>,
        no: u32,
        universe: &Universe,
        ends: &[u32],
    ) -> Result<Self, IndexFault>
        requires number { no < length index.now.grants }
        requires ends { AreStemEndsOf universe.now ends.now }
        ensures { IfOk result (λ r. IsReachAt index.now universe.now no r) }
    {
        let rule = index.grant(no).rule;
        let places = matched(alloc, rule, universe.targets(), ends)?;
        Ok(Reach {
            places: Rc::new(alloc, places)?,
        })
    }

    // Another reach that shares this one's places.
    fn share(&self) -> Result<Self, AllocError>
        ensures { IfOk result (λ r. r ≡ self.now) }
    {
        Ok(Reach {
            places: self.places.clone()?,
        })
    }

    /// How many places the reach has. Doesn't allocate.
    pub fn len(&self) -> usize
        ensures len { result ≡ length self.now }
        ensures few { length self.now ≤ most_targets }
        ensures ascending { IsStrictlyIncreasing self.now }
    {
        self.places.len()
    }

    /// The `i`-th of the reach's places, from 0. Counts as one read. Doesn't allocate.
    pub fn place(&self, i: usize, meter: &mut Meter) -> u32
        requires { i < length self.now }
        ensures place { result ≡ slice_index self.now i }
        ensures read { meter.new ≡ raised meter.old 1 }
    {
        meter.raise();
        self.places.get(i)
    }
}

/// The reach of each grant, in order of the grants' numbers. What a rule matches is computed once
/// for all grants by this rule. X1 NoMemory if it runs out of memory.
pub fn reaches_of(
    alloc: Global,
    index: &Index<'_>,
    universe: &Universe,
) -> Result<Vec<Reach>, IndexFault>
    ensures { IfOk result (λ v. AreReaches index.now universe.now v.items) }
{
    let ends = stem_ends_of(alloc, universe)?;
    let mut reaches = Vec::new(alloc);
    for no in 0..index.len() {
        push_next(alloc, index, universe, ends.as_slice(), &mut reaches, no)?;
    }
    Ok(reaches)
}

// Adds the reach of the grant with this number to those of all grants before it.
fn push_next(
    alloc: Global,
    index: &Index<'_>,
    universe: &Universe,
    ends: &[u32],
    reaches: &mut Vec<Reach>,
    no: u32,
) -> Result<(), IndexFault>
    requires number { no < length index.now.grants }
    requires ends { AreStemEndsOf universe.now ends.now }
    requires before { AreReachesBelow index.now universe.now no reaches.old.items }
    ensures { OnOk result (AreReachesBelow index.now universe.now (no + 1) reaches.new.items) }
{
    let reach = next_reach(alloc, index, universe, ends, reaches.as_slice(), no)?;
    reaches.push(reach)?;
    Ok(())
}

// The reach of the grant with this number, given those of all grants before it.
fn next_reach(
    alloc: Global,
    index: &Index<'_>,
    universe: &Universe,
    ends: &[u32],
    reaches: &[Reach],
    no: u32,
) -> Result<Reach, IndexFault>
    requires number { no < length index.now.grants }
    requires ends { AreStemEndsOf universe.now ends.now }
    requires before { AreReachesBelow index.now universe.now no reaches.now }
    ensures { IfOk result (λ r. IsReachAt index.now universe.now no r) }
{
    match index.earlier_alike(no) {
        Some(first) => Ok(reaches[first as usize].share()?),
        None => Reach::by_stem_ends(alloc, index, no, universe, ends),
    }
}

// Where the stems of a universe's targets end.
fn stem_ends_of(alloc: Global, universe: &Universe) -> Result<Vec<u32>, AllocError>
    ensures { IfOk result (λ v. AreStemEndsOf universe.now v.items) }
{
    stem_ends(alloc, universe.targets())
}
