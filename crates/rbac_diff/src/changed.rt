//! Which bindings of one policy may grant what another policy doesn't.

ghost use Rattle.std.specs.Prelude.{◌≡◌, ◌<◌, IfOk, false, length};
ghost use Rattle.rbac_model.specs.Policies.{IsPolicy};
ghost use Rattle.rbac_diff.specs.CoveredRoles.{AreCoveredRoles};
ghost use Rattle.rbac_diff.specs.Unchanged.{AreFlags, GrantsNoMore};

use crate::alike::Alike;
use crate::covered_roles::CoveredRoles;
use crate::named::namesake_from;
use crate::unchanged::grants_no_more;
use rbac_model::Policy;
use std::alloc::{AllocError, Global};

// Flags for the bindings of two policies, one for each in order. A binding that isn't flagged
// grants nothing that the other policy doesn't.
pub(crate) struct Changed {
    pub(crate) before: Vec<bool>,
    pub(crate) after: Vec<bool>,
}

impl Drop for Changed {
    fn drop(self) {
        let Self { before, after } = self;
    }
}

impl Changed {
    // Compares each binding with the other policy's binding of the same name. A binding that stays
    // flagged is then looked up by its content among the other policy's flagged ones: most bindings
    // of an export stay, and many others are renamed.
    pub(crate) fn between(
        alloc: Global,
        before: &Policy,
        after: &Policy,
    ) -> Result<Self, AllocError>
        ensures before { IfOk result (λ c. AreFlags before.now c.before.items after.now) }
        ensures after { IfOk result (λ c. AreFlags after.now c.after.items before.now) }
        ensures policies { IsPolicy before.now × IsPolicy after.now }
    {
        let gone = without_namesakes(alloc, before, after)?;
        let new = without_namesakes(alloc, after, before)?;
        Ok(Changed {
            before: without_alike(alloc, before, gone.as_slice(), after, new.as_slice())?,
            after: without_alike(alloc, after, new.as_slice(), before, gone.as_slice())?,
        })
    }
}

// Flags the bindings that may grant more than the other policy's binding of the same name, and
// those without such a namesake.
fn without_namesakes(alloc: Global, own: &Policy, other: &Policy) -> Result<Vec<bool>, AllocError>
    ensures flags { IfOk result (λ flags. AreFlags own.now flags.items other.now) }
    ensures policies { IsPolicy own.now × IsPolicy other.now }
{
    let bindings = own.bindings();
    let others = other.bindings();
    let covered = CoveredRoles::between(alloc, own, other)?;
    let mut flags = Vec::new(alloc);
    let mut from = 0;
    for (place, binding) in bindings.iter().enumerate() {
        let namesake = namesake_from(others, &mut from, binding);
        flags.push(exceeds(alloc, own, place, other, namesake, &covered)?)?;
    }
    Ok(flags)
}

// Whether the binding at `place` may grant more than the other policy's binding at `at`; true if
// there is no `at`.
fn exceeds(
    alloc: Global,
    own: &Policy,
    place: usize,
    other: &Policy,
    at: Option<usize>,
    covered: &CoveredRoles,
) -> Result<bool, AllocError>
    requires within { place < length own.now.held.bindings }
    requires covered { AreCoveredRoles own.now.held covered.now other.now.held }
    ensures { IfOk result (λ exceeds. exceeds ≡ false → GrantsNoMore own.now place other.now) }
{
    match at {
        Some(at) => Ok(!grants_no_more(alloc, own, place, other, at, covered)?),
        None => Ok(true),
    }
}

// Removes the flag of each binding that grants no more than a flagged binding of the other policy
// with the same content.
fn without_alike(
    alloc: Global,
    own: &Policy,
    flags: &[bool],
    other: &Policy,
    other_flags: &[bool],
) -> Result<Vec<bool>, AllocError>
    requires { AreFlags own.now flags.now other.now }
    ensures { IfOk result (λ left. AreFlags own.now left.items other.now) }
{
    let alike = Alike::of(alloc, other.bindings(), other_flags)?;
    let mut left = Vec::new(alloc);
    for (place, flagged) in flags.iter().enumerate() {
        left.push(stays_flagged(alloc, *flagged, own, place, other, &alike)?)?;
    }
    Ok(left)
}

// Whether the binding stays flagged: it may grant more than the listed binding of the other policy
// with the same content, or no listed binding has this content.
fn stays_flagged(
    alloc: Global,
    flagged: bool,
    own: &Policy,
    place: usize,
    other: &Policy,
    alike: &Alike,
) -> Result<bool, AllocError>
    requires within { place < length own.now.held.bindings }
    requires unflagged { flagged ≡ false → GrantsNoMore own.now place other.now }
    ensures { IfOk result (λ stays. stays ≡ false → GrantsNoMore own.now place other.now) }
{
    if !flagged {
        return Ok(false);
    }
    let at = alike.place_of(alloc, &own.bindings()[place])?;
    exceeds(alloc, own, place, other, at, &CoveredRoles::none(alloc))
}
