//! Sightings of holders: the subjects to which a verb on what is requested is granted.

ghost use Rattle.std.specs.Prelude.{◌≡◌, ◌+◌, ◌<◌, All, IfOk, OnOk, length, slice_get, Some};
ghost use Rattle.rbac_terms.specs.Text.{Text};
ghost use Rattle.rbac_terms.specs.declared.scope.Scope.{Scope};
ghost use Rattle.rbac_model.specs.Policies.{Held};
ghost use Rattle.rbac_index.specs.HolderViews.{requested_of, sighted};
ghost use Rattle.rbac_index.specs.Holding.{AreAllSeen, AreSeen, BringsAt, BringsRuleAt};
ghost use Rattle.rbac_index.specs.Indexed.{AreCandidates};
ghost use Rattle.rbac_index.specs.Requested.{RequestedView};

use crate::requested::Requested;
use rbac_model::{Policy, is_live_in};
use rbac_terms::{Binding, Scope, Word, subject_key};
use std::alloc::{AllocError, Global};

// A holder's key, and where it was seen: a binding through which the key holds the permission, and
// a subject of this binding.
#[derive(Drop)]
pub(crate) struct Sighting<'p> {
    pub(crate) key: Word,
    pub(crate) binding: &'p Binding,
    pub(crate) binding_place: usize,
    pub(crate) subject_place: usize,
}

// The sightings of all keys that hold a permission in this scope, given the numbers, ascending, of
// the grants whose rule allows the request.
pub(crate) fn sightings_of<'p>(
    alloc: Global,
    policy: &'p Policy,
    numbers: &[u32],
    scope: &Scope,
    requested: Requested<'_>,
) -> Result<Vec<Sighting<'p>>, AllocError>
    requires { All (λ no. no < length policy.now.grants) numbers.now }
    ensures { (verb : Text)
        → AreCandidates policy.now verb (requested_of requested.entry) numbers.now
        → IfOk result
        (λ v. AreAllSeen policy.now.held scope.now verb (requested_of requested.entry)
        (sighted v.items)) }
{
    let bindings: &'p [Binding] = policy.bindings();
    let mut seen = Vec::new(alloc);
    // The place after the last binding that was looked at.
    let mut next = 0;
    for no in numbers {
        let place = policy.place(*no).binding;
        if next <= place {
            see_binding(alloc, &bindings[place], place, scope, requested, &mut seen)?;
            next = place + 1;
        }
    }
    Ok(seen)
}

// Adds the sightings among the subjects of this binding, which is at `place`, if the binding is
// live in this scope.
fn see_binding<'p>(
    alloc: Global,
    binding: &'p Binding,
    place: usize,
    scope: &Scope,
    requested: Requested<'_>,
    seen: &mut Vec<Sighting<'p>>,
) -> Result<(), AllocError>
    ensures { (held : Held) (verb : Text) → slice_get held.bindings place ≡ Some binding.now
        → BringsRuleAt held verb (requested_of requested.entry) place
        → AreSeen held scope.now verb (requested_of requested.entry) place 0
        (sighted seen.old.items)
        → OnOk result
        (AreSeen held scope.now verb (requested_of requested.entry) (place + 1) 0
        (sighted seen.new.items)) }
{
    if is_live_in(scope, binding, requested.target()) {
        see_subjects(alloc, binding, place, seen)?;
    }
    Ok(())
}

// Adds a sighting for each subject of this binding, which is at `binding_place`, that has a key.
fn see_subjects<'p>(
    alloc: Global,
    binding: &'p Binding,
    binding_place: usize,
    seen: &mut Vec<Sighting<'p>>,
) -> Result<(), AllocError>
    ensures { (held : Held) (scope : Scope) (verb : Text) (t : RequestedView)
        → slice_get held.bindings binding_place ≡ Some binding.now
        → BringsAt held scope verb t binding_place
        → AreSeen held scope verb t binding_place 0 (sighted seen.old.items)
        → OnOk result
        (AreSeen held scope verb t (binding_place + 1) 0 (sighted seen.new.items)) }
{
    for (subject_place, subject) in binding.subjects.as_slice().iter().enumerate() {
        if let Some(key) = subject_key(alloc, subject, binding.namespace.as_ref())? {
            seen.push(Sighting {
                key,
                binding,
                binding_place,
                subject_place,
            })?;
        }
    }
    Ok(())
}
