//! Why a holder has a permission.

ghost use Rattle.std.specs.Prelude.{◌≡◌, IsSomeAnd, MatchOption};
ghost use Rattle.rbac_terms.specs.Text.{Text};
ghost use Rattle.rbac_terms.specs.Targets.{What};
ghost use Rattle.rbac_terms.specs.declared.scope.Scope.{Scope};
ghost use Rattle.rbac_model.specs.Holders.{IsHolder};
ghost use Rattle.rbac_index.specs.Deciding.{NoneAllowing};
ghost use Rattle.rbac_index.specs.HolderViews.{holder_shown, requested_of};
ghost use Rattle.rbac_index.specs.Requested.{ThisTarget};
ghost use Rattle.rbac_index.specs.WhoCan.{IsHolderBy};
ghost use Rattle.rbac_index.specs.WhyHeld.{IsFirstShown, IsHeldShown, IsShownBy};

use crate::deciding::first_allowing;
use crate::holders::Holder;
use crate::requested::Requested;
use rbac_model::{Policy, Why};
use rbac_terms::{Binding, Word};

/// Why a holder may use the verb on what is requested (own): the first grant of the holder's
/// binding that allows the request, and the first subject of the binding with the holder's key. If
/// the binding is the first through which the holder has the permission, no earlier grant allows
/// the request to the key. But an earlier grant may allow it to the user with this key, as a member
/// of a group. `None` if no grant of the binding allows the request. Doesn't allocate.
pub fn why_held<'p>(
    policy: &'p Policy,
    holder: Holder<'_>,
    verb: &Word,
    requested: Requested<'_>,
) -> Option<Why<'p>>
    ensures first { MatchOption result
        (NoneAllowing policy.now verb.now (requested_of requested.entry)
        holder.entry.binding_place)
        (IsFirstShown policy.now verb.now (requested_of requested.entry)
        holder.entry.binding_place holder.entry.subject_place) }
    ensures held { (namespace : Text) (target : What)
        → requested_of requested.entry ≡ ThisTarget target
        → IsHolder policy.now.held namespace verb.now target (holder_shown holder.entry)
        → IsSomeAnd result
        (IsHeldShown policy.now holder.entry.principal.now namespace verb.now target) }
    ensures listed { (scope : Scope)
        → IsHolderBy policy.now.held scope verb.now (requested_of requested.entry)
        (holder_shown holder.entry)
        → IsSomeAnd result
        (IsShownBy policy.now verb.now (requested_of requested.entry)
        (holder_shown holder.entry)) }
{
    let bindings: &'p [Binding] = policy.bindings();
    let binding = bindings.get(holder.binding_place)?;
    let no = first_allowing(policy, holder.binding_place, verb, requested)?;
    let grant = policy.grant(no);
    Some(Why {
        binding,
        source: grant.source,
        rule_place: grant.place,
        subject_place: holder.subject_place,
    })
}
