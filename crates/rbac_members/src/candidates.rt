//! The users whom documents list in the groups among holders, with repeats.

ghost use Rattle.std.specs.Prelude.{◌≡◌, ◌≢◌, ◌++◌, AllPairs, IfOk, List, MatchOption, OnOk};
ghost use Rattle.std.specs.Prelude.{map};
ghost use Rattle.std.specs.List.Sorted.{IsSorted};
ghost use Rattle.rbac_terms.specs.Text.{Text};
ghost use Rattle.rbac_groups.specs.declared.membership.Membership.{Membership as OneDocument};
ghost use Rattle.rbac_index.specs.HolderViews.{holder_shown};
ghost use Rattle.rbac_index.specs.Holding.{IsEarlier};
ghost use Rattle.rbac_model.specs.Holders.{HolderView};
ghost use Rattle.rbac_model.specs.Lists.{by_name};
ghost use Rattle.rbac_members.specs.Candidates.{AreCandidates, AreListedIn};
ghost use Rattle.rbac_members.specs.Listings.{AreListings, listing_name};
ghost use Rattle.rbac_members.specs.Members.{member_by};

use crate::listings::{Listing, listings_of_group};
use crate::member::Member;
use rbac_index::{Holder, Holders};
use rbac_terms::{MEMBER_PREFIX, Word};
use std::alloc::{AllocError, Global};

// The members of all groups among the holders: in order of the groups, those of a group in order of
// their names.
pub(crate) fn candidates_of<'h>(
    alloc: Global,
    holders: &'h Holders<'_>,
    listings: &[Listing<'_>],
) -> Result<Vec<Member<'h>>, AllocError>
    requires { IsSorted (by_name listing_name) listings.now }
    ensures { (ms : List OneDocument) → AreListings ms listings.now
        → AllPairs IsEarlier holders.now
        → IfOk result (λ ys. AreCandidates ms holders.now ys.items) }
{
    let mut members = Vec::new(alloc);
    for place in 0..holders.len() {
        add_members(alloc, holders.get(place), listings, &mut members)?;
    }
    Ok(members)
}

// Adds the members of the holder, if it is a group.
fn add_members<'h>(
    alloc: Global,
    holder: Holder<'h>,
    listings: &[Listing<'_>],
    members: &mut Vec<Member<'h>>,
) -> Result<(), AllocError>
    requires { IsSorted (by_name listing_name) listings.now }
    ensures { OnOk result ((more : List HolderView) × AreListedIn listings.now (holder_shown holder.entry) more
        × (members.new.items ≡ members.old.items ++ more)) }
{
    let Some(group) = group_behind(holder.principal, MEMBER_PREFIX) else {
        return Ok(());
    };
    add_listed(alloc, holder, listings_of_group(listings, group), members)
}

// What follows the prefix of a key; `None` if the key has another one.
fn group_behind<'a>(key: &'a Word, prefix: &[u8]) -> Option<&'a [u8]>
    ensures { MatchOption result ((group : Text) → key.now ≢ prefix.now ++ group)
        (λ group. key.now ≡ prefix.now ++ group.now) }
{
    key.as_bytes().strip_prefix(prefix)
}

// Adds the users of these listings as members of the group, in order.
fn add_listed<'h>(
    alloc: Global,
    group: Holder<'h>,
    listings: &[Listing<'_>],
    members: &mut Vec<Member<'h>>,
) -> Result<(), AllocError>
    ensures { OnOk result
        (members.new.items ≡ members.old.items
        ++ map (λ l. member_by (holder_shown group.entry) l.user) listings.now) }
{
    for listing in listings {
        members.push(Member::of(alloc, group, listing.user)?)?;
    }
    Ok(())
}
