//! The groups that a user is given.

ghost use Rattle.std.specs.Prelude.{◌≡◌, ◌++◌, ◌↔◌, [], IsTrue, IfOk, OnOk, OnErr, Contains};

use crate::sorted::{is_among, sorted_copy};
use crate::text::{Word, Words};
use std::alloc::{AllocError, Global};
use std::marker::Model;

// The groups given to a user, in the given order, with repeats. Contracts see them as a list.
pub(crate) struct GivenGroups {
    given: Words,
    // The same texts, sorted for look-up: a user may have thousands of groups, and be compared with
    // a million subjects. `None` for a member of a group, who has no given groups, and after
    // `append`. A user may have a million entries in a universe, and sorting after each of them
    // would take quadratic time.
    sorted: Option<Vec<Word>>,
}

impl Drop for GivenGroups {
    fn drop(self) {
        let Self { given, sorted } = self;
    }
}

impl Model for GivenGroups {
    ghost use Rattle.std.specs.Prelude.{ℕ, List, MatchOption, ⊤};
    ghost use Rattle.rbac_terms.specs.Sorted.{IsSortedCopy};

    ghost Value = { List (List ℕ) };

    ghost view = { λ g. g.given };

    ghost invariant = { λ g. MatchOption g.sorted ⊤ (λ sorted. IsSortedCopy g.given sorted.items) };
}

impl GivenGroups {
    // No groups. Doesn't allocate.
    pub(crate) fn new(alloc: Global) -> Self
        ensures { result ≡ [] }
    {
        GivenGroups {
            given: Words::new(alloc),
            sorted: None,
        }
    }

    // Copies of these groups. Fails only if it runs out of memory.
    pub(crate) fn of(groups: &Words) -> Result<Self, AllocError>
        ensures { IfOk result (λ given. given ≡ groups.now) }
    {
        let given = groups.clone()?;
        let sorted = sorted_copy(&given)?;
        Ok(GivenGroups {
            given,
            sorted: Some(sorted),
        })
    }

    // The given groups, in order.
    pub(crate) fn as_slice(&self) -> &[Word]
        ensures { result.now ≡ self.now }
    {
        self.given.as_slice()
    }

    // Whether the given groups contain the group of this name.
    pub(crate) fn contains(&self, group: &[u8]) -> bool
        ensures { IsTrue result ↔ Contains self.now group.now }
    {
        match &self.sorted {
            Some(sorted) => is_among(sorted.as_slice(), group),
            None => self.given.contains_bytes(group),
        }
    }

    // Adds all of these groups at the end, in order. Fails only if it runs out of memory, and then
    // leaves the groups unchanged.
    pub(crate) fn append(&mut self, more: Self) -> Result<(), AllocError>
        ensures ok { OnOk result (self.new ≡ self.old ++ more) }
        ensures err { OnErr result (self.new ≡ self.old) }
    {
        let GivenGroups { given, sorted: _ } = more;
        self.given.append(given)?;
        self.sorted = None;
        Ok(())
    }
}

impl Clone for GivenGroups {
    ghost is_clone = { λ groups copy. copy ≡ groups };

    fn clone(&self) -> Result<Self, AllocError> {
        GivenGroups::of(&self.given)
    }
}
