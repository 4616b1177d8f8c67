//! The bindings under the keys of their subjects, in a sorted list. The bindings that name a
//! principal are looked up by the principal's keys, so no export can make a look-up slow.

ghost use Rattle.std.specs.Prelude.{◌≡◌, ◌≤◌, ◌↔◌, IfOk, OnOk, Contains, length};
ghost use Rattle.std.specs.Ordering.{is_lt};
ghost use Rattle.std.specs.List.Sorted.{IsSorted};
ghost use Rattle.rbac_model.specs.Holders.{IsKeyFor};
ghost use Rattle.rbac_subjects.specs.Keyed.{keyed, keyed_cmp, AreKeyed, HasKeysOf, AnswersNext};
ghost use Rattle.rbac_subjects.specs.Keyed.{IsFirstEntry, IsLiveUnder, IsLiveUnderAny};
ghost use Rattle.rbac_subjects.specs.Keyed.{sooner as sooner_of};

use crate::live_bindings::Live;
use crate::principal_keys::{PrincipalKey, keys_of};
use rbac_model::Policy;
use rbac_terms::{Binding, Principal, Word, subject_key};
use std::alloc::{AllocError, Global};
use std::cmp::Ordering;

// The key of a subject, and the place of a binding that has this subject.
#[derive(Drop)]
pub(crate) struct Keyed {
    pub(crate) key: Word,
    pub(crate) place: usize,
}

// The keys of the subjects of all bindings that have grants, in order.
pub(crate) fn keyed_by(alloc: Global, policy: &Policy) -> Result<Vec<Keyed>, AllocError>
    ensures { IfOk result (λ v. AreKeyed policy.now v.items) }
{
    let bindings = policy.bindings();
    let mut entries = Vec::new(alloc);
    let mut last = None;
    for number in 0..policy.len() {
        let place = policy.place(number).binding;
        // The grants of a binding follow each other.
        if last != Some(place) {
            push_keys(alloc, &bindings[place], place, &mut entries)?;
            last = Some(place);
        }
    }
    entries.sort_unstable_by(|a, b| cmp_keyed(a, b));
    Ok(entries)
}

// Adds the keys of the binding's subjects.
fn push_keys(
    alloc: Global,
    binding: &Binding,
    place: usize,
    entries: &mut Vec<Keyed>,
) -> Result<(), AllocError>
    ensures { OnOk result (HasKeysOf entries.old.items entries.new.items binding.now place) }
{
    for subject in binding.subjects.as_slice() {
        if let Some(key) = subject_key(alloc, subject, binding.namespace.as_ref())? {
            entries.push(Keyed { key, place })?;
        }
    }
    Ok(())
}

pub(crate) fn cmp_keyed(a: &Keyed, b: &Keyed) -> Ordering
    ensures { result ≡ keyed_cmp a.now b.now }
{
    match a.key.cmp(&b.key) {
        Ordering::Equal => a.place.cmp(&b.place),
        by_key => by_key,
    }
}

// Whether the entry comes before one with this key and place.
pub(crate) fn is_before(entry: &Keyed, key: &PrincipalKey<'_>, place: usize) -> bool
    ensures { result ≡ is_lt (keyed_cmp entry.now (keyed key.now place)) }
{
    match key.cmp_listed(entry.key.as_bytes()) {
        Ordering::Less => true,
        Ordering::Equal => entry.place < place,
        Ordering::Greater => false,
    }
}

// The place of the first entry that doesn't come before an entry with this key and place.
pub(crate) fn first_entry(entries: &[Keyed], key: &PrincipalKey<'_>, place: usize) -> usize
    requires { IsSorted keyed_cmp entries.now }
    ensures first { IsFirstEntry entries.now (keyed key.now place) result }
    ensures bound { result ≤ length entries.now }
{
    entries.partition_point(|entry| is_before(entry, key, place))
}

// The first place from `from` on that is listed under this key.
fn next_under(entries: &[Keyed], key: &PrincipalKey<'_>, from: usize) -> Option<usize>
    requires { IsSorted keyed_cmp entries.now }
    ensures { AnswersNext (λ place. Contains entries.now (keyed key.now place)) from result }
{
    let at = first_entry(entries, key, from);
    if at == entries.len() {
        return None;
    }
    let entry = &entries[at];
    if key.cmp_listed(entry.key.as_bytes()).is_eq() {
        Some(entry.place)
    } else {
        None
    }
}

// The next place from `from` on under this key where a binding is live.
fn next_live(entries: &[Keyed], key: &PrincipalKey<'_>, live: Live, from: usize) -> Option<usize>
    requires { IsSorted keyed_cmp entries.now }
    ensures { AnswersNext (IsLiveUnder entries.now live key.now) from result }
{
    let Some(first) = next_under(entries, key, from) else {
        return None;
    };
    if live.has(first) {
        return Some(first);
    }
    // No ClusterRoleBinding is left, and no RoleBinding of the namespace comes earlier.
    let Some(next) = next_under(entries, key, first.max(live.from)) else {
        return None;
    };
    if next < live.to { Some(next) } else { None }
}

// The lesser of the given places; `None` if neither is given.
fn sooner(a: Option<usize>, b: Option<usize>) -> Option<usize>
    ensures { result ≡ sooner_of a b }
{
    match (a, b) {
        (Some(a), Some(b)) => Some(a.min(b)),
        (Some(a), None) => Some(a),
        (None, b) => b,
    }
}

// The first place from this one on where a live binding is listed under a key of the principal.
pub(crate) fn next_for(
    entries: &[Keyed],
    principal: &Principal,
    live: Live,
    from: usize,
) -> Option<usize>
    requires { IsSorted keyed_cmp entries.now }
    ensures { AnswersNext (IsLiveUnderAny entries.now live (IsKeyFor principal.now)) from result }
{
    let mut next = None;
    for key in keys_of(principal) {
        let found = next_live(entries, &key, live, from);
        // No place comes sooner than the first.
        if found == Some(from) {
            return found;
        }
        next = sooner(next, found);
    }
    next
}
