//! The groups of whoever a question is about.

ghost use Rattle.std.specs.Prelude.{◌≡◌, IfOk};
ghost use Rattle.rbac_groups.specs.Memberships.{with_memberships};

use rbac_groups::with_memberships;
use rbac_manifest::Export;
use rbac_terms::Principal;
use std::alloc::{AllocError, Global};

/// The principal, with the groups that documents give it after its own.
pub(crate) fn with_groups(
    alloc: Global,
    export: &Export,
    principal: &Principal,
) -> Result<Principal, AllocError>
    ensures { IfOk result
        (λ given. given ≡ with_memberships export.now.memberships principal.now) }
{
    with_memberships(alloc, export.memberships(), principal)
}
