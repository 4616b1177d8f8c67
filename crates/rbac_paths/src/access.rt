//! Requests that may be allowed.

ghost use Rattle.std.specs.Prelude.{◌↔◌, IsTrue};
ghost use Rattle.rbac_paths.specs.Access.{access_of};
ghost use Rattle.rbac_paths.specs.Aims.{Serves, ToBeAllowed};

use crate::holding::Holding;
use rbac_model::is_live_at;
use rbac_terms::{Target, Word, rule_allows};

/// A request that a node may allow: a verb on a target in a namespace. The empty namespace means
/// the whole cluster. The namespace doesn't matter for a URL (own).
#[derive(Clone, Copy)]
pub struct Access<'a> {
    /// The namespace of the request; empty for the whole cluster.
    pub namespace: &'a Word,
    /// The verb.
    pub verb: &'a Word,
    /// The target.
    pub target: &'a Target,
}

impl Access<'_> {
    // Whether the holding's rule allows the request, and counts where the request is made.
    #[tactic(auto, unfolding(crate::specs::Aims::Serves))]
    pub(crate) fn is_given_by(self, held: &Holding<'_>) -> bool
        ensures { IsTrue result
            ↔ Serves (ToBeAllowed (access_of self.entry)) held.now.home held.now.rule }
    {
        is_live_at(held.home, self.namespace, self.target)
            && rule_allows(held.rule, self.verb, self.target)
    }
}
