//! What documents give besides roles and bindings: service accounts, and the lists of Universe
//! documents.

use rbac_terms::{Word, Words};
use rbac_universe::{ListedResources, Principals};

/// A ServiceAccount object.
pub struct Account {
    /// Its namespace.
    pub namespace: Word,
    /// Its name there.
    pub name: Word,
}

impl Drop for Account {
    fn drop(self) {
        let Self { namespace, name } = self;
    }
}

/// The lists that a Universe document gives (own). A list that it leaves out is taken from the
/// documents before it, or derived if none of them gives it.
pub struct GivenLists {
    /// Users, with the groups given to them, and members of groups.
    pub principals: Option<Principals>,
    /// Namespaces; the empty text means a request without a namespace.
    pub namespaces: Option<Words>,
    /// Verbs.
    pub verbs: Option<Words>,
    /// Resources; each is asked about with each object name.
    pub resources: Option<ListedResources>,
    /// Object names; the empty text means a request without a name.
    pub names: Option<Words>,
    /// Paths of URLs.
    pub urls: Option<Words>,
}

impl Drop for GivenLists {
    fn drop(self) {
        let Self {
            principals,
            namespaces,
            verbs,
            resources,
            names,
            urls,
        } = self;
    }
}
