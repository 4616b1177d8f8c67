//! Entries of API resource lists.

use rbac_terms::{Items, Word, Words};

/// An entry of an API resource list (Kubernetes API, APIResource). Entries with the same group and
/// name, from several versions of the group, are about one resource.
pub struct Entry {
    /// The API group, empty for the core group.
    pub group: Word,
    /// The resource, like `pods`, or a subresource of one, like `pods/log`.
    pub name: Word,
    /// The singular name, empty if there is none.
    pub singular: Word,
    /// Short names, like `po`. An empty short name names nothing.
    pub short_names: Words,
    /// Whether the resource's objects are in namespaces.
    pub namespaced: bool,
    /// The verbs that the API server supports for the resource.
    pub verbs: Words,
}

impl Drop for Entry {
    fn drop(self) {
        let Self {
            group,
            name,
            singular,
            short_names,
            namespaced,
            verbs,
        } = self;
    }
}

/// The entries of an API resource list, in the order given.
pub type Entries = Items<Entry>;
