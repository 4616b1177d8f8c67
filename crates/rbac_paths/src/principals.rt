//! The users and groups among the nodes.

ghost use Rattle.std.specs.Prelude.{◌≢◌, ◌↔◌, AllPairs, Contains, IfOk, map};
ghost use Rattle.rbac_terms.specs.Principals.{Who, who_key};
ghost use Rattle.rbac_model.specs.Lists.{IsAscendingBy};
ghost use Rattle.rbac_model.specs.Unions.{who_texts};
ghost use Rattle.rbac_paths.specs.Principals.{IsOneWith};

use rbac_terms::Principal;
use std::alloc::{AllocError, Global};

/// These users and groups, with the principal `asked` in place of one with the same key, which may
/// have other groups (own). Fails only if it runs out of memory.
pub(crate) fn principals_with<'p>(
    alloc: Global,
    principals: &'p [Principal],
    asked: &'p Principal,
) -> Result<Vec<&'p Principal>, AllocError>
    ensures exact { IfOk result (λ all. (who : Who)
        → Contains (map (λ each. each.now) all.items) who
        ↔ IsOneWith principals.now asked.now who) }
    ensures apart { IsAscendingBy who_texts principals.now
        → IfOk result (λ all. AllPairs (λ a b. who_key a.now ≢ who_key b.now) all.items) }
{
    let mut all = vec![in alloc; asked]?;
    for who in principals {
        if who.key() != asked.key() {
            all.push(who)?;
        }
    }
    Ok(all)
}
