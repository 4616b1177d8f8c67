//! The members of groups, as documents list them. Exports of objects tell the groups of nobody: an
//! identity provider does. On OpenShift, Group objects tell the members of groups; anybody else may
//! write such documents from a directory.
#![tactic(auto)]

mod by_user;
mod each;
mod giving;
mod laws;
mod membership;
mod users;

pub use each::each_with_memberships;
pub use giving::with_memberships;
pub use laws::listed_groups_are_given;
pub use membership::Membership;
pub use users::users_listed;
