//! The principals that the subjects of bindings stand for. Those of bindings that have grants are
//! made from the entries, in order of keys, and each once; so to sort them takes one look at each.

ghost use Rattle.std.specs.Prelude.{◌≡◌, ◌↔◌, ◌<◌, ℕ, All, Contains, IfOk, IsTrue, OnOk};
ghost use Rattle.std.specs.Prelude.{false, length, slice_index_or};
ghost use Rattle.rbac_terms.specs.Principals.{Who};
ghost use Rattle.rbac_model.specs.Policies.{HasSubject};
ghost use Rattle.rbac_subjects.specs.Keyed.{AreKeyed, HasEntry, IsListed};

use crate::subject_keys::Keyed;
use rbac_model::Policy;
use rbac_terms::{Principal, put_principals};
use std::alloc::{AllocError, Global};

// The principals that the subjects of a policy's bindings stand for, with repeats.
pub(crate) fn principals_of(
    alloc: Global,
    policy: &Policy,
    entries: &[Keyed],
) -> Result<Vec<Principal>, AllocError>
    requires { AreKeyed policy.now entries.now }
    ensures { IfOk result
        (λ found. (who : Who) → Contains found.items who ↔ HasSubject policy.now.held who) }
{
    let bindings = policy.bindings();
    let marks = marks_of_listed(alloc, entries, bindings.len())?;
    let mut found = listed_principals(alloc, entries)?;
    for (place, binding) in bindings.iter().enumerate() {
        if !marks[place] {
            put_principals(alloc, binding, &mut found)?;
        }
    }
    Ok(found)
}

// The principals that have the keys of these entries.
fn listed_principals(alloc: Global, entries: &[Keyed]) -> Result<Vec<Principal>, AllocError>
    ensures { IfOk result
        (λ found. (who : Who) → Contains found.items who ↔ IsListed entries.now who) }
{
    let mut found: Vec<Principal> = Vec::new(alloc);
    for entry in entries {
        if matches!(found.last(), Some(last) if last.key() == &entry.key) {
            continue;
        }
        if let Some(principal) = Principal::from_key(alloc, &entry.key)? {
            found.push(principal)?;
        }
    }
    Ok(found)
}

// For each of `count` bindings, whether it has an entry.
fn marks_of_listed(alloc: Global, entries: &[Keyed], count: usize) -> Result<Vec<bool>, AllocError>
    requires { All (λ entry. entry.place < count) entries.now }
    ensures len { IfOk result (λ marks. length marks.items ≡ count) }
    ensures marks { IfOk result (λ marks. (place : ℕ)
        → IsTrue (slice_index_or marks.items place false) ↔ HasEntry entries.now place) }
{
    let mut marks = vec![in alloc; false; count]?;
    for entry in entries {
        marks[entry.place] = true;
    }
    Ok(marks)
}
