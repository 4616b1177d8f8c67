//! The members that are listed after the holders.

ghost use Rattle.std.specs.Prelude.{◌≡◌, AllPairs, Contains, IfOk, List, MatchBool, OnOk};
ghost use Rattle.rbac_groups.specs.declared.membership.Membership.{Membership as OneDocument};
ghost use Rattle.rbac_index.specs.HolderViews.{holder_shown};
ghost use Rattle.rbac_index.specs.Holding.{IsEarlier};
ghost use Rattle.rbac_members.specs.Candidates.{AreCandidates};
ghost use Rattle.rbac_members.specs.Members.{AreMembers};
ghost use Rattle.rbac_members.specs.Told.{AddsLabel, AreLabels, KeepsUntold, label_of};

use crate::candidates::candidates_of;
use crate::listings::listings_of;
use crate::member::Member;
use rbac_groups::Membership;
use rbac_index::{Holder, Holders};
use rbac_terms::Word;
use std::alloc::{AllocError, Global};
use std::collections::BTreeSet;

// What is listed once: a key, after the binding's place if each key is listed with every binding,
// otherwise after 0.
type Label = (usize, Word);

/// The users whom documents list in the groups among the holders, in order of these groups, and of
/// one group in order of their names (own). A user who is a holder is left out, and each other user
/// is listed once, by the first group; or, if every binding is listed, all of this with each
/// binding. Fails only if it runs out of memory.
pub fn members_of<'h>(
    alloc: Global,
    memberships: &[Membership],
    every: bool,
    holders: &'h Holders<'_>,
) -> Result<Vec<Member<'h>>, AllocError>
    ensures { AllPairs IsEarlier holders.now
        → IfOk result (λ ys. AreMembers memberships.now every holders.now ys.items) }
{
    let listings = listings_of(alloc, memberships)?;
    let candidates = candidates_of(alloc, holders, listings.as_slice())?;
    first_told(alloc, every, holders, candidates)
}

// The candidates whose label no holder and no candidate before them has.
fn first_told<'h>(
    alloc: Global,
    every: bool,
    holders: &Holders<'_>,
    candidates: Vec<Member<'h>>,
) -> Result<Vec<Member<'h>>, AllocError>
    ensures { (ms : List OneDocument) → AllPairs IsEarlier holders.now
        → AreCandidates ms holders.now candidates.entry.items
        → IfOk result (λ ys. AreMembers ms every holders.now ys.items) }
{
    let mut told = labels_of(alloc, every, holders)?;
    let mut firsts = Vec::new(alloc);
    for member in candidates {
        keep_first(every, member, &mut told, &mut firsts)?;
    }
    Ok(firsts)
}

// Adds a member, unless its label is told already.
fn keep_first<'h>(
    every: bool,
    member: Member<'h>,
    told: &mut BTreeSet<Label>,
    firsts: &mut Vec<Member<'h>>,
) -> Result<(), AllocError>
    ensures kept { OnOk result
        (KeepsUntold (label_of every member.entry) told.old.keys member.entry firsts.old.items
        firsts.new.items) }
    ensures told { OnOk result
        (AddsLabel told.old.keys told.new.keys (label_of every member.entry)) }
{
    if tell(every, member.as_holder(), told)? {
        firsts.push(member)?;
    }
    Ok(())
}

// The labels of the holders.
fn labels_of(
    alloc: Global,
    every: bool,
    holders: &Holders<'_>,
) -> Result<BTreeSet<Label>, AllocError>
    ensures { IfOk result (λ told. AreLabels every holders.now told.keys) }
{
    let mut told = BTreeSet::new(alloc);
    for place in 0..holders.len() {
        tell(every, holders.get(place), &mut told)?;
    }
    Ok(told)
}

// Adds the label of a holder, and returns whether it is new.
fn tell(every: bool, holder: Holder<'_>, told: &mut BTreeSet<Label>) -> Result<bool, AllocError>
    ensures new { IfOk result (λ new. MatchBool new
        (¬ Contains told.old.keys (label_of every (holder_shown holder.entry)))
        (Contains told.old.keys (label_of every (holder_shown holder.entry)))) }
    ensures told { OnOk result
        (AddsLabel told.old.keys told.new.keys (label_of every (holder_shown holder.entry))) }
{
    Ok(told.insert(label_of(every, holder)?)?)
}

// The label of a holder.
fn label_of(every: bool, holder: Holder<'_>) -> Result<Label, AllocError>
    ensures { IfOk result (λ l. l ≡ label_of every (holder_shown holder.entry)) }
{
    let place = if every { holder.binding_place } else { 0 };
    Ok((place, holder.principal.clone()?))
}
