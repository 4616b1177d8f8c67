//! The lists that a universe is made of, in any order and with repeats.

use rbac_terms::{Items, Principal, Word, Words};

/// The lists that a universe is made of: principals, namespaces, verbs, resources, object names and
/// URLs (own).
#[derive(Drop)]
pub struct UniverseLists {
    /// Users and groups. A user with several entries has the groups of all of them.
    pub principals: Principals,
    /// Namespaces; the empty text is the whole cluster.
    pub namespaces: Words,
    /// Verbs.
    pub verbs: Words,
    /// Resources; each is combined with each object name.
    pub resources: ListedResources,
    /// Object names; the empty text is for a request without an object name.
    pub names: Words,
    /// Paths of URLs.
    pub urls: Words,
}

/// A list of principals.
pub type Principals = Items<Principal>;

/// A resource as it is listed.
#[derive(Clone)]
pub struct ListedResource {
    /// The API group, empty for the core group.
    pub group: Word,
    /// The resource, with `/` and its subresource if it has one.
    pub text: Word,
    /// Whether the resource is namespaced, by this entry.
    pub namespaced: bool,
}

impl Drop for ListedResource {
    fn drop(self) {
        let Self {
            group,
            text,
            namespaced,
        } = self;
    }
}

/// A list of resources.
pub type ListedResources = Items<ListedResource>;
