//! The groups that documents give users, found by a user's name.

ghost use Rattle.std.specs.Prelude.{◌≡◌, ◌∷◌, [], IfOk, OnOk};
ghost use Rattle.rbac_groups.specs.ByUser.{AreGroupsOf, GivesEach, groups_under};
ghost use Rattle.rbac_groups.specs.Memberships.{groups_listing};

use crate::membership::Membership;
use rbac_terms::{Word, Words, sorted_copy};
use std::alloc::{AllocError, Global};
use std::collections::BTreeMap;
use std::marker::Model;

/// The groups that some documents give each user whom they list. Contracts see the documents.
pub(crate) struct GroupsByUser<'m> {
    memberships: &'m [Membership],
    groups: BTreeMap<Word, Words>,
}

impl Drop for GroupsByUser<'_> {
    fn drop(self) {
        let Self {
            memberships,
            groups,
        } = self;
    }
}

impl<'m> Model for GroupsByUser<'m> {
    ghost use Rattle.std.specs.Prelude.{List};
    ghost use Rattle.rbac_groups.specs.ByUser.{AreGroupsOf};
    ghost use Rattle.rbac_groups.specs.declared.membership.Membership.{Membership as MembershipView};

    ghost Value = { List MembershipView };

    ghost view = { λ g. g.memberships.now };

    ghost invariant = { λ g. AreGroupsOf g.memberships.now g.groups };
}

impl<'m> GroupsByUser<'m> {
    /// The groups that these documents give users. Takes time n log n for n listed users in all.
    /// Fails only if it runs out of memory.
    pub(crate) fn build(alloc: Global, memberships: &'m [Membership]) -> Result<Self, AllocError>
        ensures { IfOk result (λ g. g ≡ memberships.now) }
    {
        let mut groups = BTreeMap::new(alloc);
        for membership in memberships {
            give_group(alloc, &membership.group, &membership.users, &mut groups)?;
        }
        Ok(GroupsByUser {
            memberships,
            groups,
        })
    }

    /// The groups whose documents list the user, in order of documents. Doesn't allocate.
    pub(crate) fn groups_of(&self, user: &Word) -> &[Word]
        ensures { result.now ≡ groups_listing self.now user.now }
    {
        match self.groups.get(user) {
            Some(groups) => groups.as_slice(),
            None => &[],
        }
    }
}

// Gives each of these users the group, once.
fn give_group(
    alloc: Global,
    group: &Word,
    users: &Words,
    groups: &mut BTreeMap<Word, Words>,
) -> Result<(), AllocError>
    ensures { OnOk result (GivesEach groups.old groups.new users.now group.now) }
{
    let mut once = sorted_copy(users)?;
    once.dedup();
    for user in &once {
        give_one(alloc, group, user.clone()?, groups)?;
    }
    Ok(())
}

// Gives a user the group.
fn give_one(
    alloc: Global,
    group: &Word,
    user: Word,
    groups: &mut BTreeMap<Word, Words>,
) -> Result<(), AllocError>
    ensures { OnOk result (GivesEach groups.old groups.new (user ∷ []) group.now) }
{
    match groups.get_mut(&user) {
        Some(given) => given.push(group.clone()?)?,
        None => {
            let mut given = Words::new(alloc);
            given.push(group.clone()?)?;
            groups.insert(user, given)?;
        }
    }
    Ok(())
}
