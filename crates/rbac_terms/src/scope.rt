//! Where something is asked.

use crate::text::Word;

/// Where something is asked (own).
pub enum Scope {
    /// Anywhere: wherever a binding may be live.
    Anywhere,
    /// In this namespace; the empty namespace is the whole cluster.
    Namespace(Word),
    /// In the whole cluster at once, where ClusterRoleBindings alone are live.
    ClusterWide,
}

impl Drop for Scope {
    fn drop(self) {
        match self {
            Self::Anywhere => {}
            Self::Namespace(_) => {}
            Self::ClusterWide => {}
        }
    }
}
