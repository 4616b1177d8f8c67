//! What one document gives.

use rbac_catalogue::Entries;
use rbac_groups::Membership;
use rbac_lists::{Account, GivenLists};
use rbac_model::Object;
use rbac_terms::Word;

// What a document gives, if its kind is read.
#[derive(Drop)]
pub(crate) enum Content {
    // A Role, a ClusterRole, a RoleBinding or a ClusterRoleBinding.
    Object(Object),
    // The name of a Namespace.
    Namespace(Word),
    Account(Account),
    ApiList(Entries),
    Lists(GivenLists),
    Membership(Membership),
}
