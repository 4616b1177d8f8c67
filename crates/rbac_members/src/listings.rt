//! The users whom documents list in groups, in order of the groups.

ghost use Rattle.std.specs.Prelude.{◌≡◌, ◌↔◌, ◌≤◌, ◌<◌, ◌++◌, ℕ, IfOk, OnOk, Some, length, slice_get};
ghost use Rattle.std.specs.Cmp.Lexicographic.{slice_cmp};
ghost use Rattle.std.specs.List.Sorted.{IsSorted};
ghost use Rattle.rbac_model.specs.Lists.{by_name};
ghost use Rattle.rbac_terms.specs.Text.{text_cmp};
ghost use Rattle.rbac_members.specs.Listings.{AreListings, AreOfGroup, ListingView};
ghost use Rattle.rbac_members.specs.Listings.{listing_name, listings_in};

use rbac_groups::Membership;
use rbac_terms::Word;
use std::alloc::{AllocError, Global};
use std::cmp::Ordering;
use std::marker::Model;

// A group, and one user whom a document lists in it.
#[derive(Drop)]
pub(crate) struct Listing<'m> {
    group: &'m Word,
    pub(crate) user: &'m Word,
}

impl<'m> Model for Listing<'m> {
    ghost use Rattle.rbac_members.specs.Listings.{ListingView};

    ghost Value = { ListingView };

    ghost view = { λ l. record {
      group = l.group.now;
      user = l.user.now;
    } };
}

impl Listing<'_> {
    // How the listings compare: by their groups, and then by their users.
    fn cmp_listing(&self, other: &Listing<'_>) -> Ordering
        ensures { result ≡ by_name listing_name self.now other.now }
    {
        self.group.cmp(other.group).then(self.user.cmp(other.user))
    }
}

// All listings of these documents, in order of groups and users, with repeats.
pub(crate) fn listings_of<'m>(
    alloc: Global,
    memberships: &'m [Membership],
) -> Result<Vec<Listing<'m>>, AllocError>
    ensures { IfOk result (λ ls. AreListings memberships.now ls.items) }
{
    let mut listings = Vec::new(alloc);
    for membership in memberships {
        add_listings(membership, &mut listings)?;
    }
    listings.sort_unstable_by(|a, b| a.cmp_listing(b));
    Ok(listings)
}

// Adds the listings of one document, in its order.
fn add_listings<'m>(
    membership: &'m Membership,
    listings: &mut Vec<Listing<'m>>,
) -> Result<(), AllocError>
    ensures { OnOk result
        (listings.new.items ≡ listings.old.items ++ listings_in membership.now) }
{
    let users: &'m [Word] = membership.users.as_slice();
    for user in users {
        listings.push(Listing {
            group: &membership.group,
            user,
        })?;
    }
    Ok(())
}

// The listings of a group, in order.
pub(crate) fn listings_of_group<'a, 'm>(
    listings: &'a [Listing<'m>],
    group: &[u8],
) -> &'a [Listing<'m>]
    requires { IsSorted (by_name listing_name) listings.now }
    ensures { AreOfGroup listings.now group.now result.now }
{
    let (from, end) = range_of(listings, group);
    &listings[from..end]
}

// The range of the listings of a group: from the first place up to, but not including, the second.
fn range_of(listings: &[Listing<'_>], group: &[u8]) -> (usize, usize)
    requires { IsSorted (by_name listing_name) listings.now }
    ensures ordered { result.0 ≤ result.1 }
    ensures within { result.1 ≤ length listings.now }
    ensures between { (at : ℕ) (l : ListingView) → slice_get listings.now at ≡ Some l
        → ((result.0 ≤ at) × (at < result.1)) ↔ (l.group ≡ group.now) }
{
    (
        listings.partition_point(|listing| listing.group.as_bytes().cmp(group).is_lt()),
        listings.partition_point(|listing| listing.group.as_bytes().cmp(group).is_le()),
    )
}
