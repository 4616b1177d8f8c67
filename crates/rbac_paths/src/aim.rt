//! What a node may be able to do by its rules.

ghost use Rattle.std.specs.Prelude.{◌↔◌, IsTrue};
ghost use Rattle.rbac_paths.specs.Aims.{Serves, aim_of};

use crate::access::Access;
use crate::holding::Holding;
use crate::node::Node;
use crate::told::StepRows;

/// What a node may be able to do: take over another node by a step, or allow a request (own).
#[derive(Clone, Copy)]
pub(crate) enum Aim<'a> {
    /// Take over this node by this step.
    TakeOver(&'a StepRows, Node<'a>),
    /// Allow this request.
    Access(Access<'a>),
}

impl Aim<'_> {
    // Whether the holding's rule, where it counts, allows this: a request of the step that takes
    // over the node, or the request itself.
    #[tactic(auto, unfolding(crate::specs::Aims::Serves, crate::specs::Told::HoldingTakes))]
    pub(crate) fn is_served_by(self, held: &Holding<'_>) -> bool
        ensures { IsTrue result ↔ Serves (aim_of self.entry) held.now.home held.now.rule }
    {
        match self {
            Aim::TakeOver(rows, node) => rows.is_taken_by(held, node),
            Aim::Access(access) => access.is_given_by(held),
        }
    }
}
