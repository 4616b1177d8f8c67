//! Sets of places, with a bit for each place. A place is in the set if its bit is 1.

ghost use Rattle.std.specs.Prelude.{◌≡◌, ◌+◌, ◌/◌, ◌%◌, ◌<◌, ◌≤◌, ◌⊎◌, ◌↔◌, ℕ, IsTrue, false, IfOk};
ghost use Rattle.std.specs.Prelude.{OnOk, MatchOption, length, vec_len, slice_index_or, []};
ghost use Rattle.std.specs.Int.{bit_at};
ghost use Rattle.rbac_model.specs.Graphs.{HasPlace};

use std::alloc::{AllocError, Global};
use std::marker::Model;

// A set of places.
#[derive(Clone, Drop)]
pub(crate) struct PlaceSet {
    words: Vec<u64>,
}

impl Model for PlaceSet {
    ghost use Rattle.std.specs.Prelude.{ℕ, List};

    ghost Value = { List ℕ };

    ghost view = { λ m. m.words.items };
}

impl PlaceSet {
    // The empty set. Doesn't allocate.
    pub(crate) fn new(alloc: Global) -> Self
        ensures { result ≡ [] }
    {
        PlaceSet {
            words: Vec::new(alloc),
        }
    }

    // Whether the set has no words, and so no places.
    pub(crate) fn is_empty(&self) -> bool
        ensures { IsTrue result ↔ (self.now ≡ []) }
    {
        self.words.is_empty()
    }

    // Whether this place is in the set.
    pub(crate) fn has(&self, place: usize) -> bool
        ensures { IsTrue result ↔ HasPlace self.now place }
    {
        (self.word(place / 64) >> (place % 64)) & 1 == 1
    }

    // The word with this number, or 0 if there is none.
    pub(crate) fn word(&self, at: usize) -> u64
        ensures { result ≡ slice_index_or self.now at 0 }
    {
        match self.words.as_slice().get(at) {
            Some(word) => *word,
            None => 0,
        }
    }

    // Whether some place of the word with this number is in the set.
    pub(crate) fn has_word(&self, at: usize) -> bool
        ensures { result ≡ false → (k : ℕ) → k / 64 ≡ at → ¬ HasPlace self.now k }
    {
        self.word(at) != 0
    }

    // The first place below a bound that is in this set and not in the other one.
    pub(crate) fn first_outside(&self, other: &PlaceSet, bound: usize) -> Option<usize>
        ensures { MatchOption result
            ((k : ℕ) → k < bound → HasPlace self.now k → HasPlace other.now k)
            (λ k. HasPlace self.now k × (¬ HasPlace other.now k)) }
    {
        for at in 0..bound / 64 + 1 {
            if let Some(place) = self.outside_in(other, at, bound) {
                return Some(place);
            }
        }
        None
    }

    // The first place below a bound, in one word, that is in this set and not in the other one.
    fn outside_in(&self, other: &PlaceSet, at: usize, bound: usize) -> Option<usize>
        requires { at ≤ bound / 64 }
        ensures { MatchOption result
            ((k : ℕ) → k / 64 ≡ at → k < bound → HasPlace self.now k → HasPlace other.now k)
            (λ k. HasPlace self.now k × (¬ HasPlace other.now k)) }
    {
        let others = other.word(at);
        if self.word(at) | others == others {
            return None;
        }
        for place in at * 64..(at * 64).saturating_add(64).min(bound) {
            if self.has(place) && !other.has(place) {
                return Some(place);
            }
        }
        None
    }

    // A place that is in this set and in `with`, but not in `other`. The search begins with the
    // word that contains `from`.
    pub(crate) fn shared_outside(
        &self,
        with: &PlaceSet,
        other: &PlaceSet,
        from: usize,
    ) -> Option<usize>
        ensures { MatchOption result (Unit {0})
            (λ k. HasPlace self.now k × (¬ HasPlace other.now k)) }
    {
        for at in from / 64..self.words.len() {
            let word = self.word(at) & with.word(at) & !other.word(at);
            let place = at
                .saturating_mul(64)
                .saturating_add(word.trailing_zeros() as usize);
            if word != 0 && self.has(place) && !other.has(place) {
                return Some(place);
            }
        }
        None
    }

    // The set of all places below `count`.
    pub(crate) fn up_to(alloc: Global, count: usize) -> Result<Self, AllocError>
        ensures { IfOk result (λ places. (k : ℕ) → HasPlace places k ↔ (k < count)) }
    {
        let mut places = PlaceSet::new(alloc);
        for place in 0..count {
            places.insert(place)?;
        }
        Ok(places)
    }

    // Adds this place.
    pub(crate) fn insert(&mut self, place: usize) -> Result<(), AllocError>
        ensures { OnOk result
            ((k : ℕ) → HasPlace self.new k ↔ (HasPlace self.old k ⊎ (k ≡ place))) }
    {
        let at = place / 64;
        widen(&mut self.words, at + 1)?;
        self.words[at] |= 1 << (place % 64);
        Ok(())
    }

    // Adds the places whose bit is 1 in `bits`, the word that contains `place`.
    pub(crate) fn put(&mut self, place: usize, bits: u64) -> Result<(), AllocError>
        ensures { OnOk result
            ((k : ℕ) → HasPlace self.new k
            ↔ (HasPlace self.old k ⊎ ((k / 64 ≡ place / 64) × (bit_at bits (k % 64) ≡ 1)))) }
    {
        let at = place / 64;
        widen(&mut self.words, at + 1)?;
        self.words[at] |= bits;
        Ok(())
    }

    // Keeps only the places that the other set has too.
    pub(crate) fn keep(&mut self, other: &PlaceSet)
        ensures { (k : ℕ) → HasPlace self.new k ↔ (HasPlace self.old k × HasPlace other.now k) }
    {
        self.words.truncate(other.words.len());
        for at in 0..self.words.len() {
            self.words[at] &= other.word(at);
        }
    }

    // Removes the places that the other set has.
    pub(crate) fn remove(&mut self, other: &PlaceSet)
        ensures { (k : ℕ) → HasPlace self.new k ↔ (HasPlace self.old k × (¬ HasPlace other.now k)) }
    {
        for at in 0..self.words.len() {
            self.words[at] &= !other.word(at);
        }
    }

    // Adds each place of the other set.
    pub(crate) fn add(&mut self, more: &PlaceSet) -> Result<(), AllocError>
        ensures { OnOk result
            ((k : ℕ) → HasPlace self.new k ↔ (HasPlace self.old k ⊎ HasPlace more.now k)) }
    {
        widen(&mut self.words, more.words.len())?;
        add_words(self.words.as_mut_slice(), more.words.as_slice());
        Ok(())
    }
}

// Makes room for this many words.
fn widen(words: &mut Vec<u64>, count: usize) -> Result<(), AllocError>
    ensures room { OnOk result (count ≤ vec_len words.new) }
    ensures same { OnOk result
        ((k : ℕ) → slice_index_or words.new.items k 0 ≡ slice_index_or words.old.items k 0) }
{
    for _at in words.len()..count {
        words.push(0)?;
    }
    Ok(())
}

// Sets in `words` each bit that is 1 in `more`.
fn add_words(words: &mut [u64], more: &[u64])
    requires { length more.now ≤ length words.old }
    ensures len { length words.new ≡ length words.old }
    ensures ones { (k : ℕ) → HasPlace words.new k ↔ (HasPlace words.old k ⊎ HasPlace more.now k) }
{
    for at in 0..more.len() {
        words[at] |= more[at];
    }
}
