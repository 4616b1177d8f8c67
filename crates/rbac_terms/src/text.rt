//! Texts, which are compared byte for byte, and lists of them.

ghost use Rattle.std.specs.Prelude.{◌≡◌, ◌++◌, ◌∷◌, [], ℕ, length, IfOk, OnOk, OnErr};
ghost use Rattle.std.specs.Prelude.{IsTrue, ◌↔◌, Contains, MatchOption, ◌<◌, ◌≢◌, slice_index};
ghost use Rattle.rbac_terms.specs.Text.{IsCutAtFirst, BeginsWith};

use crate::items::Items;
use bytes::Bytes;
use smallvec::SmallVec;
use std::alloc::{AllocError, Global};
use std::cmp::Ordering;
use std::marker::Model;

// Up to this many bytes, a text needs no allocation.
const INLINE: usize = 24;

// Copies of a text that has more bytes than this may share them.
const MOST_COPIED: usize = 1_024;

/// A text of a manifest or of a request, like a name, a verb or an API group: any bytes, as many as
/// fit in memory. Texts are equal if their bytes are, and are ordered byte by byte, a proper prefix
/// first (own). Copies of a long text may share its bytes. Contracts see a text as the list of its
/// bytes.
#[derive(Debug, Drop)]
pub struct Word {
    held: Held,
}

// Where the bytes of a text are.
#[derive(Debug)]
enum Held {
    // The text's own bytes. Most texts are short, so they are in the value itself, without an
    // allocation.
    Own(SmallVec<u8, INLINE>),
    // Bytes that copies share, since a name of a megabyte may be in thousands of targets. When
    // bytes are added, the text gets a copy of its own, made with the allocator.
    Shared(Bytes, Global),
}

// Written by hand, because the prover splits a derived drop into its two cases wherever a text is
// dropped.
impl Drop for Held {
    fn drop(self) {
        match self {
            Held::Own(_) => {}
            Held::Shared(_, _) => {}
        }
    }
}

impl Model for Word {
    ghost use Rattle.std.specs.Prelude.{ℕ, List};
    ghost use Rattle.rbac_terms.specs.Held.{bytes_of};

    ghost Value = { List ℕ };

    ghost view = { λ w. bytes_of w.held };
}

impl Word {
    /// The empty text. Doesn't allocate.
    pub fn new(alloc: Global) -> Self
        ensures { result ≡ [] }
    {
        Word {
            held: Held::Own(SmallVec::new(alloc)),
        }
    }

    // The empty text, with room for this many bytes. Fails only if it runs out of memory.
    pub(crate) fn with_capacity(alloc: Global, capacity: usize) -> Result<Self, AllocError>
        ensures { IfOk result (λ w. w ≡ []) }
    {
        let own = SmallVec::with_capacity(alloc, capacity)?;
        Ok(Word {
            held: Held::Own(own),
        })
    }

    /// A copy of these bytes. Fails only if it runs out of memory.
    pub fn from_slice(alloc: Global, bytes: &[u8]) -> Result<Self, AllocError>
        ensures { IfOk result (λ w. w ≡ bytes.now) }
    {
        let held = if bytes.len() > MOST_COPIED {
            Held::Shared(Bytes::copy_from_slice(alloc, bytes)?, alloc)
        } else {
            Held::Own(SmallVec::from_slice(alloc, bytes)?)
        };
        Ok(Word { held })
    }

    /// The bytes of the text.
    pub fn as_bytes(&self) -> &[u8]
        ensures { result.now ≡ self.now }
    {
        match &self.held {
            Held::Own(own) => own.as_slice(),
            Held::Shared(shared, _) => shared.as_slice(),
        }
    }

    /// Whether the text has no bytes.
    pub fn is_empty(&self) -> bool
        ensures { IsTrue result ↔ (self.now ≡ []) }
    {
        self.as_bytes().is_empty()
    }

    /// Adds a byte at the end. Fails only if it runs out of memory, and then leaves the text
    /// unchanged.
    pub fn push(&mut self, byte: u8) -> Result<(), AllocError>
        ensures ok { OnOk result (self.new ≡ self.old ++ byte ∷ []) }
        ensures err { OnErr result (self.new ≡ self.old) }
    {
        self.push_slice(&[byte])
    }

    /// Adds these bytes at the end, in order. Fails only if it runs out of memory, and then leaves
    /// the text unchanged.
    pub fn push_slice(&mut self, bytes: &[u8]) -> Result<(), AllocError>
        ensures ok { OnOk result (self.new ≡ self.old ++ bytes.now) }
        ensures err { OnErr result (self.new ≡ self.old) }
    {
        match &mut self.held {
            Held::Own(own) => own.extend_from_slice(bytes),
            Held::Shared(shared, alloc) => {
                let own = joined(*alloc, shared.as_slice(), bytes)?;
                self.held = Held::Own(own);
                Ok(())
            }
        }
    }
}

// The prefix, followed by the rest.
fn joined(alloc: Global, prefix: &[u8], rest: &[u8]) -> Result<SmallVec<u8, INLINE>, AllocError>
    ensures { IfOk result (λ both. both.items ≡ prefix.now ++ rest.now) }
{
    let mut both = SmallVec::from_slice(alloc, prefix)?;
    both.extend_from_slice(rest)?;
    Ok(both)
}

impl Clone for Word {
    ghost is_clone = { λ word copy. copy ≡ word };

    fn clone(&self) -> Result<Self, AllocError> {
        match &self.held {
            Held::Own(own) => Word::from_slice(*own.allocator(), own.as_slice()),
            Held::Shared(shared, alloc) => Ok(Word {
                held: Held::Shared(shared.clone()?, *alloc),
            }),
        }
    }
}

impl PartialEq for Word {
    ghost use Rattle.std.specs.Cmp as Cmp;
    ghost use Rattle.std.specs.Str.{bytes_eq};
    ghost use Rattle.std.proofs.lemmas.Cmp.{nat_list_eq_equiv};

    ghost eq = { bytes_eq };

    ghost laws = { Cmp.partial_equiv_from_equiv nat_list_eq_equiv };

    fn eq(&self, other: &Self) -> bool {
        self.as_bytes() == other.as_bytes()
    }
}

impl Eq for Word {
    ghost use Rattle.std.proofs.lemmas.Cmp.{nat_list_eq_equiv};

    ghost laws = { nat_list_eq_equiv };
}

impl PartialOrd for Word {
    ghost use Rattle.std.specs.Ordering.{as_partial_cmp};
    ghost use Rattle.rbac_terms.specs.Text.{text_cmp};
    ghost use Rattle.std.specs.Cmp.Lexicographic.{texts_po};

    ghost partial_cmp = { as_partial_cmp text_cmp };

    ghost laws = { texts_po };

    fn partial_cmp(&self, other: &Self) -> Option<Ordering> {
        Some(self.cmp(other))
    }
}

impl Ord for Word {
    ghost use Rattle.std.specs.Prelude.{refl};
    ghost use Rattle.std.proofs.lemmas.Cmp.{nat_list_cmp_total};
    ghost use Rattle.rbac_terms.specs.Text.{text_cmp};
    ghost use Rattle.std.specs.Cmp.Lexicographic.{texts_ties};

    ghost cmp = { text_cmp };

    ghost total = { nat_list_cmp_total };

    ghost matches_partial_cmp = { λ _ _. refl };

    ghost matches_eq = { texts_ties };

    fn cmp(&self, other: &Self) -> Ordering {
        self.as_bytes().cmp(other.as_bytes())
    }
}

/// A list of texts, in order, with repeats: as many as fit in memory.
pub type Words = Items<Word>;

impl Items<Word> {
    /// Whether the list contains this text.
    pub fn contains(&self, word: &Word) -> bool
        ensures { IsTrue result ↔ Contains self.now word.now }
    {
        self.as_slice().contains(word)
    }

    /// Whether the list contains the text of these bytes.
    pub fn contains_bytes(&self, bytes: &[u8]) -> bool
        ensures { IsTrue result ↔ Contains self.now bytes.now }
    {
        self.as_slice().iter().any(|word| word.as_bytes() == bytes)
    }
}

/// The parts of the text before and after the first occurrence of a byte; `None` if the byte
/// doesn't occur in it. Doesn't allocate.
pub fn cut_at_first(text: &[u8], byte: u8) -> Option<(&[u8], &[u8])>
    ensures { MatchOption result (¬ Contains text.now byte)
        (λ parts. IsCutAtFirst text.now byte parts.0.now parts.1.now) }
{
    let at = first_place(text, byte)?;
    Some((&text[..at], &text[at + 1..]))
}

// The index of the first occurrence of a byte.
fn first_place(text: &[u8], byte: u8) -> Option<usize>
    ensures { MatchOption result (¬ Contains text.now byte)
        (λ i. (i < length text.now) × (slice_index text.now i ≡ byte)
        × ((k : ℕ) → k < i → slice_index text.now k ≢ byte)) }
{
    text.iter().position(|b| *b == byte)
}

// What follows this prefix, if the text begins with it.
pub(crate) fn after_prefix<'a>(text: &'a [u8], prefix: &[u8]) -> Option<&'a [u8]>
    ensures { MatchOption result (¬ BeginsWith text.now prefix.now)
        (λ rest. text.now ≡ prefix.now ++ rest.now) }
{
    text.strip_prefix(prefix)
}

// Whether the text is the prefix followed by the rest.
pub(crate) fn is_joined(text: &[u8], prefix: &[u8], rest: &[u8]) -> bool
    ensures { IsTrue result ↔ (text.now ≡ prefix.now ++ rest.now) }
{
    match after_prefix(text, prefix) {
        Some(after) => after == rest,
        None => false,
    }
}
