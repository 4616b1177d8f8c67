//! The first places of live bindings that name a principal. Each key of the principal is looked up
//! once.

ghost use Rattle.std.specs.List.Sorted.{IsSorted};
ghost use Rattle.rbac_model.specs.Holders.{IsKeyFor};
ghost use Rattle.rbac_subjects.specs.Keyed.{keyed_cmp, IsLiveUnder, IsLiveUnderAny, IsUnderBetween};
ghost use Rattle.rbac_subjects.specs.Least.{Takes, no_places};

use crate::least_places::LeastPlaces;
use crate::live_bindings::Live;
use crate::principal_keys::{PrincipalKey, keys_of};
use crate::subject_keys::{Keyed, first_entry, is_before};
use rbac_terms::Principal;

// The first places where a live binding is listed under a key of the principal.
pub(crate) fn first_places(entries: &[Keyed], principal: &Principal, live: Live) -> LeastPlaces
    requires { IsSorted keyed_cmp entries.now }
    ensures { Takes
        (IsLiveUnderAny entries.now live (IsKeyFor principal.now)) no_places result }
{
    let mut places = LeastPlaces::new();
    for key in keys_of(principal) {
        take_live(entries, &key, live, &mut places);
    }
    places
}

// Takes in the places under this key where a binding is live.
fn take_live(entries: &[Keyed], key: &PrincipalKey<'_>, live: Live, places: &mut LeastPlaces)
    requires { IsSorted keyed_cmp entries.now }
    ensures { Takes (IsLiveUnder entries.now live key.now) places.old places.new }
{
    take_between(entries, key, 0, live.cluster_wide, places);
    take_between(entries, key, live.from, live.to, places);
}

// Takes in the places `from..to` under this key. The first is looked up; the others follow it
// directly.
fn take_between(
    entries: &[Keyed],
    key: &PrincipalKey<'_>,
    from: usize,
    to: usize,
    places: &mut LeastPlaces,
)
    requires { IsSorted keyed_cmp entries.now }
    ensures { Takes (IsUnderBetween entries.now key.now from to) places.old places.new }
{
    let mut at = first_entry(entries, key, from);
    while at < entries.len() {
        let entry = &entries[at];
        if !is_before(entry, key, to) || !places.take_in(entry.place) {
            return;
        }
        at += 1;
    }
}
