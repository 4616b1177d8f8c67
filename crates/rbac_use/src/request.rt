//! Requests that were made.

use rbac_terms::{Principal, Target, Word};

// A request that was made.
#[derive(Clone, Copy)]
pub(crate) struct Request<'a> {
    // Who asked.
    pub(crate) who: &'a Principal,
    // The namespace; empty for the whole cluster, and for a URL.
    pub(crate) namespace: &'a Word,
    // The verb.
    pub(crate) verb: &'a Word,
    // The resource or the URL.
    pub(crate) target: &'a Target,
}
