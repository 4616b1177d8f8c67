//! The holders of a verb on a target: each once, or once with each binding.

ghost use Rattle.std.specs.Prelude.{◌≡◌, ◌<◌, Bool, OnOk, IfOk, AllPairs, slice_get, Some};
ghost use Rattle.std.specs.Prelude.{length};
ghost use Rattle.indexmap.specs.IndexMap.{values};
ghost use Rattle.rbac_index.specs.HolderViews.{sighted, labels_seen, KeepsFirst};
ghost use Rattle.rbac_index.specs.Holding.{AreFirsts, IsEarlier};
ghost use Rattle.rbac_index.specs.Ranks.{AreRanks};

use crate::ranks::ranks_of;
use crate::sightings::Sighting;
use indexmap::IndexMap;
use rbac_terms::{Binding, Word};
use std::alloc::{AllocError, Global};
use std::marker::Model;

/// A holder: a principal's key, with a binding and the first subject of this binding through which
/// the key holds the permission.
#[derive(Clone, Copy)]
pub struct Holder<'a> {
    /// The principal's key: `u:` and a user's name, or `g:` and a group's (own).
    pub principal: &'a Word,
    /// A binding through which the key holds the permission: the first one, or, if every binding is
    /// listed, any.
    pub binding: &'a Binding,
    /// The place of that binding among the policy's bindings, from 0.
    pub binding_place: usize,
    /// The place, in that binding, of the first subject with the key, from 0.
    pub subject_place: usize,
}

/// Holders, in order of the bindings and subjects through which they hold the permission. Each is
/// listed once, or, if every binding is listed, once with each binding.
#[derive(Drop)]
pub struct Holders<'p> {
    // The first sighting of each label, by the label's rank among all labels. Ranks are always 0,
    // 1, 2 and so on, so the author of an export, who chooses the keys, can't force hash
    // collisions.
    firsts: IndexMap<u32, Sighting<'p>>,
}

impl<'p> Model for Holders<'p> {
    ghost use Rattle.std.specs.Prelude.{List};
    ghost use Rattle.indexmap.specs.IndexMap.{values};
    ghost use Rattle.rbac_model.specs.Holders.{HolderView};
    ghost use Rattle.rbac_index.specs.HolderViews.{sighted};

    ghost Value = { List HolderView };

    ghost view = { λ hs. sighted (values hs.firsts) };
}

impl<'p> Holders<'p> {
    ghost use Rattle.rbac_index.specs.HolderViews.{holder_shown};

    // The first sighting of each key, or with `every` of each key in each binding, in order.
    pub(crate) fn first_of(
        alloc: Global,
        every: bool,
        seen: Vec<Sighting<'p>>,
    ) -> Result<Self, AllocError>
        requires { AllPairs IsEarlier (sighted seen.items) }
        ensures { IfOk result (λ hs. AreFirsts every (sighted seen.entry.items) hs) }
    {
        let ranks = ranks_of(alloc, every, seen.as_slice())?;
        let firsts = first_by_rank(alloc, ranks.as_slice(), seen)?;
        Ok(Holders { firsts })
    }

    /// How many holders there are.
    pub fn len(&self) -> usize
        ensures { result ≡ length self.now }
    {
        self.firsts.len()
    }

    /// The holder at this place, from 0.
    pub fn get(&self, place: usize) -> Holder<'_>
        requires { place < length self.now }
        ensures { slice_get self.now place ≡ Some (holder_shown result) }
    {
        let first = &self.firsts[place];
        Holder {
            principal: &first.key,
            binding: first.binding,
            binding_place: first.binding_place,
            subject_place: first.subject_place,
        }
    }
}

// The first sighting of each rank, in order.
fn first_by_rank<'p>(
    alloc: Global,
    ranks: &[u32],
    seen: Vec<Sighting<'p>>,
) -> Result<IndexMap<u32, Sighting<'p>>, AllocError>
    requires { AllPairs IsEarlier (sighted seen.items) }
    ensures { (every : Bool) → AreRanks (labels_seen every seen.entry.items) ranks.now
        → IfOk result
        (λ firsts. AreFirsts every (sighted seen.entry.items) (sighted (values firsts))) }
{
    let mut firsts = IndexMap::new(alloc);
    for (rank, sighting) in ranks.iter().zip(seen) {
        keep_first(&mut firsts, *rank, sighting)?;
    }
    Ok(firsts)
}

// Keeps the sighting under its rank, unless the rank has one.
fn keep_first<'p>(
    firsts: &mut IndexMap<u32, Sighting<'p>>,
    rank: u32,
    sighting: Sighting<'p>,
) -> Result<(), AllocError>
    ensures { OnOk result (KeepsFirst firsts.old firsts.new rank sighting.entry) }
{
    if !firsts.contains_key(&rank) {
        firsts.insert(rank, sighting)?;
    }
    Ok(())
}
