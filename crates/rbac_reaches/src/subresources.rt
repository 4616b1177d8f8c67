//! The subresources that a rule has for every resource, by words like `*/log`.

ghost use Rattle.std.specs.Prelude.{◌≢◌, ◌↔◌, [], Any, IfOk, IsTrue, OnOk};
ghost use Rattle.std.specs.List.Sorted.{IsSorted};
ghost use Rattle.rbac_terms.specs.Text.{text_cmp};
ghost use Rattle.rbac_terms.specs.Matching.{FollowsFirstSlash};
ghost use Rattle.rbac_reaches.specs.Wildcards.{AddsPart, AreSubresources, IsForEvery};

use rbac_terms::{Word, cut_at_first, is_among};
use std::alloc::{AllocError, Global};

// The subresources of the words like `*/log`, in byte order.
pub(crate) fn subresources_of(alloc: Global, words: &[Word]) -> Result<Vec<Word>, AllocError>
    ensures { IfOk result (λ v. AreSubresources words.now v.items) }
{
    let mut subresources = Vec::new(alloc);
    for word in words {
        push_subresource(alloc, &mut subresources, word)?;
    }
    subresources.sort_unstable();
    Ok(subresources)
}

// Adds the subresource of a word like `*/log`; adds nothing for any other word.
fn push_subresource(
    alloc: Global,
    subresources: &mut Vec<Word>,
    word: &Word,
) -> Result<(), AllocError>
    ensures { OnOk result
        (AddsPart IsForEvery word.now subresources.old.items subresources.new.items) }
{
    let Some(subresource) = word.as_bytes().strip_prefix(b"*/".as_slice()) else {
        return Ok(());
    };
    subresources.push(Word::from_slice(alloc, subresource)?)?;
    Ok(())
}

// Whether the subresource of this resource text is among these.
pub(crate) fn has_subresource_of(sorted: &[Word], text: &Word) -> bool
    requires { IsSorted text_cmp sorted.now }
    ensures { IsTrue result ↔ Any (λ s. (s ≢ []) × FollowsFirstSlash text.now s) sorted.now }
{
    if sorted.is_empty() {
        return false;
    }
    match cut_at_first(text.as_bytes(), b'/') {
        Some((_, subresource)) => !subresource.is_empty() && is_among(sorted, subresource),
        None => false,
    }
}
