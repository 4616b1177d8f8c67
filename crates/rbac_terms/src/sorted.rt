//! Texts in byte order, for binary search.

ghost use Rattle.std.specs.Prelude.{◌↔◌, IsTrue, IfOk, Contains};
ghost use Rattle.std.specs.List.Sorted.{IsSorted};
ghost use Rattle.rbac_terms.specs.Text.{text_cmp};
ghost use Rattle.rbac_terms.specs.Sorted.{IsSortedCopy};

use crate::text::{Word, Words};
use std::alloc::AllocError;

/// Copies of the texts in byte order, with their repeats. Fails only if it runs out of memory.
pub fn sorted_copy(words: &Words) -> Result<Vec<Word>, AllocError>
    ensures { IfOk result (λ sorted. IsSortedCopy words.now sorted.items) }
{
    let mut sorted = words.clone()?.into_vec();
    sorted.sort_unstable();
    Ok(sorted)
}

/// Whether the text is among these texts, which are in byte order. Doesn't allocate.
pub fn is_among(sorted: &[Word], text: &[u8]) -> bool
    requires { IsSorted text_cmp sorted.now }
    ensures { IsTrue result ↔ Contains sorted.now text.now }
{
    let found = sorted.binary_search_by(|held| held.as_bytes().cmp(text));
    found.is_ok()
}
