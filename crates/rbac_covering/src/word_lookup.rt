//! Lists of words, for look-up.

ghost use Rattle.std.specs.Prelude.{◌≡◌, ◌↔◌, Any, Contains, IfOk, IfSome, IsTrue};
ghost use Rattle.rbac_terms.specs.Matching.{WordMatches};
ghost use Rattle.rbac_terms.specs.Sorted.{IsSortedCopy};

use rbac_terms::{Word, Words, is_among, sorted_copy};
use std::alloc::AllocError;
use std::marker::Model;

// A list of this many words or more is put in order; a shorter one is faster read word by word.
const MANY: usize = 16;

// The word that matches every verb, API group or resource.
const STAR: &[u8] = b"*";

/// The words of a list. If it has 16 words or more, copies of them are kept in byte order too, for
/// binary search.
#[derive(Drop)]
pub struct WordLookup<'a> {
    words: &'a Words,
    ordered: Option<Vec<Word>>,
    has_star: bool,
}

impl<'a> Model for WordLookup<'a> {
    ghost use Rattle.std.specs.Prelude.{◌↔◌, IfSome, IsTrue, Contains, codes, ℕ, List};
    ghost use Rattle.rbac_terms.specs.Sorted.{IsSortedCopy};

    ghost Value = { List (List ℕ) };

    ghost view = { λ w. w.words.now };

    ghost invariant = { λ w. IfSome w.ordered (λ o. IsSortedCopy w.words.now o.items)
        × (IsTrue w.has_star ↔ Contains w.words.now (codes "*")) };
}

impl<'a> WordLookup<'a> {
    /// The words of this list, and, if it is long, copies of them in order. Fails only if it runs
    /// out of memory.
    pub fn new(words: &'a Words) -> Result<Self, AllocError>
        ensures { IfOk result (λ w. w ≡ words.now) }
    {
        Ok(WordLookup {
            words,
            ordered: ordered_if_many(words)?,
            has_star: words.contains_bytes(STAR),
        })
    }

    /// Whether the list has this word. Doesn't allocate.
    pub fn contains(&self, word: &Word) -> bool
        ensures { IsTrue result ↔ Contains self.now word.now }
    {
        match &self.ordered {
            Some(ordered) => is_among(ordered.as_slice(), word.as_bytes()),
            None => self.words.contains(word),
        }
    }

    /// Whether a word of the list is `*` or this word. This is how the words for verbs and for API
    /// groups match (rbac/v1 evaluation helpers). Doesn't allocate.
    pub fn matches(&self, word: &Word) -> bool
        ensures { IsTrue result ↔ Any (λ w. WordMatches w word.now) self.now }
    {
        self.has_star || self.contains(word)
    }
}

// The words in byte order; `None` if they are few.
fn ordered_if_many(words: &Words) -> Result<Option<Vec<Word>>, AllocError>
    ensures { IfOk result (λ o. IfSome o (λ v. IsSortedCopy words.now v.items)) }
{
    if words.as_slice().len() < MANY {
        return Ok(None);
    }
    Ok(Some(sorted_copy(words)?))
}
