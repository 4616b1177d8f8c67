//! The places of the bindings that name a principal. Each key of the principal is looked up once.

ghost use Rattle.std.specs.Prelude.{◌↔◌, Contains, IfOk, OnOk, ℕ};
ghost use Rattle.std.specs.List.Sorted.{IsSorted};
ghost use Rattle.rbac_model.specs.Holders.{IsKeyFor};
ghost use Rattle.rbac_subjects.specs.Keyed.{AddsPlaces, IsUnderAny, IsUnderBetween, keyed_cmp};

use crate::principal_keys::{PrincipalKey, keys_of};
use crate::subject_keys::{Keyed, first_entry};
use rbac_terms::Principal;
use std::alloc::{AllocError, Global};

// The places below `end` that are listed under a key of the principal, in any order and with
// repeats.
pub(crate) fn places_under(
    alloc: Global,
    entries: &[Keyed],
    principal: &Principal,
    end: usize,
) -> Result<Vec<usize>, AllocError>
    requires { IsSorted keyed_cmp entries.now }
    ensures { IfOk result (λ places. (place : ℕ) → Contains places.items place
        ↔ IsUnderAny entries.now (IsKeyFor principal.now) end place) }
{
    let mut places = Vec::new(alloc);
    for key in keys_of(principal) {
        push_under(entries, &key, end, &mut places)?;
    }
    Ok(places)
}

// Adds the places below `end` that are listed under this key. They stand side by side: where they
// begin is looked up, and where they end.
fn push_under(
    entries: &[Keyed],
    key: &PrincipalKey<'_>,
    end: usize,
    places: &mut Vec<usize>,
) -> Result<(), AllocError>
    requires { IsSorted keyed_cmp entries.now }
    ensures { OnOk result (AddsPlaces (IsUnderBetween entries.now key.now 0 end)
        places.old.items places.new.items) }
{
    let mut at = first_entry(entries, key, 0);
    let past = first_entry(entries, key, end);
    while at < past {
        let entry = &entries[at];
        places.push(entry.place)?;
        at += 1;
    }
    Ok(())
}
