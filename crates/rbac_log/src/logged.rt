//! A request that a log tells of.

use rbac_terms::{Principal, Target, Word};

/// A request that a server was asked, as its audit log tells it (Auditing).
#[derive(Drop)]
pub struct LoggedRequest {
    /// Who asked, with exactly the groups that the log tells.
    pub who: Principal,
    /// The namespace; empty for the whole cluster, and for a URL.
    pub namespace: Word,
    /// The verb.
    pub verb: Word,
    /// The resource or the URL.
    pub target: Target,
}
