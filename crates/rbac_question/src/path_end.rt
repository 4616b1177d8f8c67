//! Whom or what `--to` of a `paths` line asks for.

ghost use Rattle.std.specs.Prelude.{◌≡◌, ◌↔◌, ◌⊎◌, [], IfOk, IsTrue, MatchOption, option_map};
ghost use Rattle.rbac_terms.specs.Text.{Text};
ghost use Rattle.rbac_question.specs.PathEnds.{GoWithEnd, HasNameAfter, IsEndGiven, IsGoodEnd};
ghost use Rattle.rbac_question.specs.PathEnds.{IsKeyText, IsRoleIn, IsRoleText, IsScopedText};
ghost use Rattle.rbac_question.specs.PathEnds.{place_given};

use crate::who::name_behind;
use rbac_terms::{MEMBER_PREFIX, USER_PREFIX, Word, cut_at_first};
use std::alloc::{AllocError, Global};

/// Whom or what a path is to end at.
pub struct PathEnd {
    /// TO: a key, `ClusterRole/NAME`, `Role/NAMESPACE/NAME`, or `*` for everything. As in WHO, a
    /// backslash is a backslash, although output prints it as `\\`.
    pub what: Word,
    /// The namespace after `-n`, where a cluster role or everything is meant; `None` for the whole
    /// cluster.
    pub namespace: Option<Word>,
}

impl Drop for PathEnd {
    fn drop(self) {
        let Self { what, namespace } = self;
    }
}

// What comes before the name of a cluster role.
const CLUSTER_ROLE_FRONT: &[u8] = b"ClusterRole/";

// What comes before the namespace of a Role.
const ROLE_FRONT: &[u8] = b"Role/";

// Everything.
const EVERYTHING: &[u8] = b"*";

// Whether a text is this front and a name behind it.
pub(crate) fn has_name_after(front: &[u8], text: &str) -> bool
    ensures { IsTrue result ↔ HasNameAfter front.now text.now }
{
    name_behind(front, text).is_some()
}

// Whether a text is the key of a user or a group.
fn is_key(text: &str) -> bool
    ensures { IsTrue result ↔ IsKeyText text.now }
{
    has_name_after(USER_PREFIX, text) || has_name_after(MEMBER_PREFIX, text)
}

// Whether a text is the key of a user or a group, and no namespace is given.
fn is_key_alone(text: &str, given: &str) -> bool
    ensures { IsTrue result ↔ ((given.now ≡ []) × IsKeyText text.now) }
{
    given.is_empty() && is_key(text)
}

// Whether a text is `*` or `ClusterRole/NAME`.
fn is_scoped(text: &str) -> bool
    ensures { IsTrue result ↔ IsScopedText text.now }
{
    text.as_bytes() == EVERYTHING || has_name_after(CLUSTER_ROLE_FRONT, text)
}

// The namespace of `Role/NS/NAME`; `None` if the text is anything else.
fn role_namespace(text: &str) -> Option<&[u8]>
    ensures { MatchOption result ((other : Text) → ¬ IsRoleText text.now other)
        (λ own. IsRoleText text.now own.now
        × ((other : Text) → IsRoleText text.now other → other ≡ own.now)) }
{
    let rest = text.as_bytes().strip_prefix(ROLE_FRONT)?;
    let (namespace, name) = cut_at_first(rest, b'/')?;
    if namespace.is_empty() {
        return None;
    }
    if name.is_empty() {
        return None;
    }
    Some(namespace)
}

// Whether a namespace that is given is empty, or this one.
fn is_none_or(given: &str, own: &[u8]) -> bool
    ensures { IsTrue result ↔ ((given.now ≡ []) ⊎ (given.now ≡ own.now)) }
{
    given.is_empty() || given.as_bytes() == own
}

// Whether a text is `Role/NS/NAME`, and the namespace given is empty or the same.
fn is_role_in(text: &str, given: &str) -> bool
    ensures { IsTrue result ↔ IsRoleIn text.now given.now }
{
    match role_namespace(text) {
        Some(own) => is_none_or(given, own),
        None => false,
    }
}

// Whether a text is a Role or a key, and the namespace given goes with it.
fn is_in_its_place(text: &str, given: &str) -> bool
    ensures { IsTrue result
        ↔ (IsRoleIn text.now given.now ⊎ ((given.now ≡ []) × IsKeyText text.now)) }
{
    is_role_in(text, given) || is_key_alone(text, given)
}

// Whether TO is one that `paths` prints, and `-n` goes with it.
fn go_with_end(text: &str, given: &str) -> bool
    ensures { IsTrue result ↔ GoWithEnd text.now given.now }
{
    is_scoped(text) || is_in_its_place(text, given)
}

// Whether `--to` and `-n` go together: without `--to`, no namespace is given.
pub(crate) fn is_good_end(to: Option<&str>, given: &str) -> bool
    ensures { IsTrue result ↔ IsGoodEnd (option_map (λ t. t.now) to.entry) given.now }
{
    match to {
        Some(text) => go_with_end(text, given),
        None => given.is_empty(),
    }
}

// The namespace after `-n`; `None` if it is empty.
fn place_from(alloc: Global, given: &str) -> Result<Option<Word>, AllocError>
    ensures { IfOk result (λ place. place ≡ place_given given.now) }
{
    if given.is_empty() {
        return Ok(None);
    }
    Ok(Some(Word::from_slice(alloc, given.as_bytes())?))
}

// The end that `--to` and `-n` ask for; `None` without `--to`.
pub(crate) fn end_from(
    alloc: Global,
    to: Option<&str>,
    given: &str,
) -> Result<Option<PathEnd>, AllocError>
    ensures { IfOk result (IsEndGiven (option_map (λ t. t.now) to.entry) given.now) }
{
    let Some(text) = to else {
        return Ok(None);
    };
    let what = Word::from_slice(alloc, text.as_bytes())?;
    let namespace = place_from(alloc, given)?;
    Ok(Some(PathEnd { what, namespace }))
}
