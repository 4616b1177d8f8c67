//! What a change of policies lets people do, and what it takes from them.

ghost use Rattle.std.specs.Prelude.{IfOk};
ghost use Rattle.rbac_model.specs.Policies.{IsPolicy};
ghost use Rattle.rbac_diff.specs.Changes.{AreChanges};

use crate::changed::Changed;
use crate::finding::add_gained;
use crate::listing::Changes;
use crate::origin::Origin;
use rbac_model::Policy;
use rbac_terms::{Binding, Word};
use std::alloc::{AllocError, Global};
use std::collections::BTreeMap;

/// Whether a permission is gained or lost.
#[derive(Clone, Copy, PartialEq, Eq, Debug, Drop)]
pub enum ChangeKind {
    /// The second policy has the permission, and the first doesn't allow all requests that it
    /// stands for.
    Gained,
    /// The first policy has the permission, and the second doesn't allow all requests that it
    /// stands for.
    Lost,
}

/// A permission of one policy that stands for a request which the other policy doesn't allow.
#[derive(Drop)]
pub struct Change<'p> {
    /// Whether it is gained or lost.
    pub kind: ChangeKind,
    /// The permission as it is printed, each field with a tab after it: who, the namespace, the
    /// verb, the API group, the resource or URL, and the object name.
    pub permission: Word,
    /// The first binding with the permission, in the policy that has it.
    pub binding: &'p Binding,
}

// The changes that were found, under their permissions' texts.
pub(crate) type FoundChanges<'p> = BTreeMap<Word, Origin<'p>>;

/// What changes for users when the second policy replaces the first: each permission that one
/// policy has and the other doesn't allow, in order of the printed permissions (own). Fails only if
/// it runs out of memory.
pub fn changes<'p>(
    alloc: Global,
    before: &'p Policy,
    after: &'p Policy,
) -> Result<Changes<'p>, AllocError>
    ensures changes { IfOk result (λ xs. AreChanges before.now after.now xs) }
    ensures before { IsPolicy before.now }
    ensures after { IsPolicy after.now }
{
    let changed = Changed::between(alloc, before, after)?;
    let new = changed.after.as_slice();
    let gone = changed.before.as_slice();
    let mut findings = BTreeMap::new(alloc);
    add_gained(alloc, ChangeKind::Gained, before, after, new, &mut findings)?;
    add_gained(alloc, ChangeKind::Lost, after, before, gone, &mut findings)?;
    Ok(Changes::of(findings))
}
