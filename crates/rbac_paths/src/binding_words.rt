//! The words that the grants of bindings take. Many bindings grant the same: those of one role in
//! one scope.

ghost use Rattle.std.specs.Prelude.{◌≡◌, ◌↔◌, ◌<◌, All, Any, IfOk, IsTrue, List, MatchOption, length};
ghost use Rattle.std.specs.Prelude.{[], slice_index_or};
ghost use Rattle.rbac_terms.specs.Text.{Text};
ghost use Rattle.rbac_paths.specs.Deciding.{AreGrantsByBinding};
ghost use Rattle.rbac_paths.specs.SharedWords.{AreGrantWords, GrantTakesWord, TakeSameWords};
ghost use Rattle.rbac_paths.specs.Takeovers.{HaveTakeovers};
ghost use Rattle.rbac_steps.specs.declared.steps.Step.{Step};

use crate::listed::{list_of, listed_at};
use crate::one_path::is_same_scope;
use crate::rule_takeovers::RuleTakeovers;
use crate::same_others::with_word;
use crate::words::words_of_grants;
use rbac_model::{GrantPlace, Policy, RolePlace};
use rbac_terms::{Items, Words};
use std::alloc::{AllocError, Global};
use std::collections::BTreeMap;

/// The words that the taking grants of bindings take.
pub(crate) struct BindingWords {
    /// Lists of words, one at the place of each binding. A list that a binding before has is left
    /// empty.
    pub(crate) lists: Vec<Words>,
    /// For each binding, the place of its list.
    pub(crate) places: Vec<usize>,
}

impl Drop for BindingWords {
    fn drop(self) {
        let Self { lists, places } = self;
    }
}

/// For each binding, the words that its taking grants take. `grants` has the numbers of these
/// grants. Bindings that grant the same rules in the same scope share a list.
pub(crate) fn words_of_bindings(
    alloc: Global,
    policy: &Policy,
    takeovers: &RuleTakeovers,
    grants: &[Items<u32>],
) -> Result<BindingWords, AllocError>
    requires { AreGrantsByBinding policy.now grants.now }
    ensures { (steps : List Step) → HaveTakeovers policy.now.held steps takeovers.now → IfOk result
        (λ words. AreGrantWords policy.now steps grants.now words.lists.items words.places.items) }
{
    let mut lists = Vec::with_capacity(alloc, grants.len())?;
    let mut places = Vec::with_capacity(alloc, grants.len())?;
    let mut last = BTreeMap::new(alloc);
    for (place, numbers) in grants.iter().enumerate() {
        let numbers = numbers.as_slice();
        if let Some(before) = same_before(policy, grants, place, numbers, &mut last)? {
            lists.push(Words::new(alloc))?;
            places.push(list_of(places.as_slice(), before))?;
        } else {
            lists.push(words_of_grants(alloc, policy, takeovers, numbers)?)?;
            places.push(place)?;
        }
    }
    Ok(BindingWords { lists, places })
}

// The place of a binding before the one at this place, which has these grants: one whose grants take
// the same words. `None` if none is found. `last` has the last binding with each fingerprint.
fn same_before(
    policy: &Policy,
    grants: &[Items<u32>],
    place: usize,
    numbers: &[u32],
    last: &mut BTreeMap<u64, usize>,
) -> Result<Option<usize>, AllocError>
    requires grants { AreGrantsByBinding policy.now grants.now }
    requires within { All (λ n. n < length policy.now.grants) numbers.now }
    ensures { IfOk result (λ o. MatchOption o (Unit {0}) (λ before. (before < place)
        × TakeSameWords policy.now (slice_index_or grants.now before []) numbers.now)) }
{
    let Some(before) = last.insert(fingerprint(policy, numbers), place)? else {
        return Ok(None);
    };
    if before < place && grant_same(policy, listed_at(grants, before), numbers) {
        return Ok(Some(before));
    }
    Ok(None)
}

// A number that is the same for grants of the same role in the same scope, and that most others
// don't have. Nothing is proved about it, because it decides only how long the rest takes.
fn fingerprint(policy: &Policy, numbers: &[u32]) -> u64
    requires { All (λ n. n < length policy.now.grants) numbers.now }
{
    let Some(no) = numbers.first() else {
        return 0;
    };
    let role = match policy.place(*no).role {
        RolePlace::RoleAt(at) => at,
        RolePlace::ClusterRoleAt(at) => !at,
    };
    with_word(role as u64, policy.grant(*no).binding.namespace.as_ref())
}

// Whether the grants with these numbers grant the same rules in the same scope, in the same order.
fn grant_same(policy: &Policy, a: &[u32], b: &[u32]) -> bool
    requires a { All (λ n. n < length policy.now.grants) a.now }
    requires b { All (λ n. n < length policy.now.grants) b.now }
    ensures { IsTrue result → TakeSameWords policy.now a.now b.now }
{
    if a.len() != b.len() {
        return false;
    }
    for (place, no) in a.iter().enumerate() {
        if !is_same_grant(policy, *no, b[place]) {
            return false;
        }
    }
    true
}

// Whether both grants are of one rule, in the same scope.
fn is_same_grant(policy: &Policy, a: u32, b: u32) -> bool
    requires a { a < length policy.now.grants }
    requires b { b < length policy.now.grants }
    ensures { IsTrue result → (steps : List Step) (w : Text)
        → GrantTakesWord policy.now steps w a ↔ GrantTakesWord policy.now steps w b }
{
    let (home, other) = (policy.grant(a).binding, policy.grant(b).binding);
    is_same_rule(policy.place(a), policy.place(b))
        && is_same_scope(home.namespace.as_ref(), other.namespace.as_ref())
}

// Whether both places are those of one rule.
fn is_same_rule(a: GrantPlace, b: GrantPlace) -> bool
    ensures role { IsTrue result → a.role ≡ b.role }
    ensures rule { IsTrue result → a.rule ≡ b.rule }
{
    is_same_role(a.role, b.role) && a.rule == b.rule
}

// Whether both places are those of one role.
fn is_same_role(a: RolePlace, b: RolePlace) -> bool
    ensures { IsTrue result → a ≡ b }
{
    match (a, b) {
        (RolePlace::RoleAt(a), RolePlace::RoleAt(b)) => a == b,
        (RolePlace::ClusterRoleAt(a), RolePlace::ClusterRoleAt(b)) => a == b,
        _ => false,
    }
}
