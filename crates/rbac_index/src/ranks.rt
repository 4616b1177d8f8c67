//! The ranks of labels.

ghost use Rattle.std.specs.Prelude.{◌≡◌, IfOk, IsSorted};
ghost use Rattle.rbac_index.specs.HolderViews.{labels_seen, once_in};
ghost use Rattle.rbac_index.specs.Ranks.{AreRanks, ArePlaced, IsRankAfter, placed_cmp};
ghost use Rattle.rbac_index.specs.Ranks.{placed_label};

use crate::sightings::Sighting;
use rbac_terms::Word;
use std::alloc::{AllocError, Global};
use std::cmp::Ordering;

// A sighting's label, and its place. Each label is listed once. It is a key after a number: the
// binding's place if each key is listed once for each binding, otherwise 0.
#[derive(Clone, Copy)]
pub(crate) struct Placed<'a> {
    pub(crate) once_in: usize,
    pub(crate) key: &'a Word,
    pub(crate) place: usize,
}

// The rank of each sighting's label among the labels of all sightings, from 0.
pub(crate) fn ranks_of(
    alloc: Global,
    every: bool,
    seen: &[Sighting<'_>],
) -> Result<Vec<u32>, AllocError>
    ensures { IfOk result (λ ranks. AreRanks (labels_seen every seen.now) ranks.items) }
{
    let mut ranks = vec![in alloc; 0; seen.len()]?;
    let sorted = sorted_by_label(alloc, every, seen)?;
    let Some(least) = sorted.first() else {
        return Ok(ranks);
    };
    let mut rank = 0;
    let mut last = *least;
    for placed in sorted.as_slice() {
        rank = rank_after(rank, last, *placed)?;
        last = *placed;
        ranks[placed.place] = rank;
    }
    Ok(ranks)
}

// The rank of `next`, which is the label with this rank or comes right after it.
fn rank_after(rank: u32, last: Placed<'_>, next: Placed<'_>) -> Result<u32, AllocError>
    ensures { IfOk result
        (IsRankAfter rank (placed_label last.entry) (placed_label next.entry)) }
{
    if last.once_in == next.once_in && last.key == next.key {
        Ok(rank)
    } else {
        // An `IndexMap` holds fewer keys than there are ranks.
        rank.checked_add(1).ok_or(AllocError)
    }
}

// The labels of the sightings with their places, in the order of the labels.
fn sorted_by_label<'a>(
    alloc: Global,
    every: bool,
    seen: &'a [Sighting<'_>],
) -> Result<Vec<Placed<'a>>, AllocError>
    ensures sorted { IfOk result (λ v. IsSorted placed_cmp v.items) }
    ensures all { IfOk result (λ v. ArePlaced (labels_seen every seen.now) v.items) }
{
    let mut placed = Vec::new(alloc);
    for (place, sighting) in seen.iter().enumerate() {
        placed.push(Placed {
            once_in: once_in_binding(every, sighting.binding_place),
            key: &sighting.key,
            place,
        })?;
    }
    placed.sort_unstable_by(|a, b| cmp_labels(*a, *b));
    Ok(placed)
}

// The number before the key in a label: with `every` the binding's place, otherwise 0.
fn once_in_binding(every: bool, binding_place: usize) -> usize
    ensures { result ≡ once_in every binding_place }
{
    if every { binding_place } else { 0 }
}

// How the labels compare: by their numbers, and then by their keys.
fn cmp_labels(a: Placed<'_>, b: Placed<'_>) -> Ordering
    ensures { result ≡ placed_cmp a.entry b.entry }
{
    a.once_in.cmp(&b.once_in).then(a.key.cmp(b.key))
}
