//! The users whom a document lists in a group.

use rbac_terms::{Word, Words};

/// A group, and the users whom one document lists in it (OpenShift, "Group"). Several documents may
/// be about one group.
pub struct Membership {
    /// The group's name.
    pub group: Word,
    /// The names of the users, in their written order, with repeats.
    pub users: Words,
}

impl Drop for Membership {
    fn drop(self) {
        let Self { group, users } = self;
    }
}
