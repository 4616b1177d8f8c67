//! The places of verbs in a universe, as a set.

ghost use Rattle.std.specs.Prelude.{◌≡◌, ◌*◌, ◌<◌, ◌≤◌, ◌⊎◌, ◌↔◌, [], ◌∷◌, ℕ, IsTrue, length, set};
ghost use Rattle.std.specs.Prelude.{codes};
ghost use Rattle.rbac_model.specs.Lists.{IsAscendingBy};
ghost use Rattle.rbac_matrix.specs.GrantVerbs.{HasBit};
ghost use Rattle.rbac_model.specs.Graphs.{HasPlace};
ghost use Rattle.rbac_matrix.specs.VerbPlaces.{AddsVerbs, IsRoom, LacksPlace};

use crate::start::word_place;
use arrayvec::ArrayVec;
use rbac_terms::{Rule, Word};

// For how many places a word of bits has room.
const PLACES: usize = 64;

// The most words of bits in a set: enough for the most verbs that a universe can have.
const MOST_WORDS: usize = 1024;

// The word that matches every verb.
const STAR: &[u8] = b"*";

/// A set of places of verbs. It has one bit for each place that it has room for.
#[derive(Drop)]
pub(crate) struct VerbPlaces {
    words: ArrayVec<u64, MOST_WORDS>,
}

impl VerbPlaces {
    // A set without room for any place.
    pub(crate) fn new() -> Self
        ensures { result.words.items ≡ [] }
    {
        VerbPlaces {
            words: ArrayVec::new(),
        }
    }

    // Takes all places out, and makes room for the first `count` places, but for no more than
    // `MOST_WORDS` words of bits.
    pub(crate) fn clear(&mut self, count: usize)
        ensures none { (place : ℕ) → ¬ HasPlace self.new.words.items place }
        ensures room { (count ≤ 64 * length self.new.words.items)
            ⊎ (length self.new.words.items ≡ 1024) }
    {
        self.words.clear();
        for _ in 0..count.div_ceil(PLACES).min(MOST_WORDS) {
            self.words.push(0);
        }
    }

    // Replaces the word of bits at this place.
    fn put(&mut self, at: usize, word: u64)
        requires { at < length self.old.words.items }
        ensures { self.new.words.items ≡ set self.old.words.items at word }
    {
        self.words.as_mut_slice()[at] = word;
    }

    // Adds this place, if there is room for it.
    fn add(&mut self, place: usize)
        ensures set { (other : ℕ) → IsRoom self.old.words.items other
            → HasPlace self.new.words.items other
            ↔ ((other ≡ place) ⊎ HasPlace self.old.words.items other) }
        ensures room { length self.new.words.items ≡ length self.old.words.items }
    {
        let at = place / PLACES;
        if at < self.words.len() {
            let word = self.words.as_slice()[at];
            self.put(at, word | (1 << (place % PLACES)));
        }
    }

    // Adds the places among the first 64 whose bit is 1, if there is room for these.
    pub(crate) fn add_bits(&mut self, bits: u64)
        ensures set { (place : ℕ) → IsRoom self.old.words.items place
            → HasPlace self.new.words.items place
            ↔ (((place < 64) × HasBit bits place) ⊎ HasPlace self.old.words.items place) }
        ensures room { length self.new.words.items ≡ length self.old.words.items }
    {
        if !self.words.is_empty() {
            let word = self.words.as_slice()[0];
            self.put(0, word | bits);
        }
    }

    // Adds the places of the rule's verbs, as far as there is room. If the rule has the word for
    // every verb, the set is left without room: then it lacks no place, so no line is passed over.
    pub(crate) fn add_rule(&mut self, rule: &Rule, verbs: &[Word])
        requires { IsAscendingBy (λ w. w ∷ []) verbs.now }
        ensures { AddsVerbs rule.now verbs.now self.old.words.items self.new.words.items }
    {
        for word in rule.verbs.as_slice() {
            if is_star(word) {
                self.words.clear();
                return;
            }
            if let Ok(place) = word_place(verbs, word) {
                self.add(place);
            }
        }
    }

    // Whether the set lacks this place: there is room for it, and it isn't in the set.
    pub(crate) fn lack(&self, place: usize) -> bool
        ensures { IsTrue result ↔ LacksPlace self.now.words.items place }
    {
        let at = place / PLACES;
        at < self.words.len() && (self.words.as_slice()[at] >> (place % PLACES)) & 1 == 0
    }

    // The first place, from this one on and before `end`, that the set lacks; `end` if there is
    // none.
    pub(crate) fn past_had(&self, from: usize, end: usize) -> usize
        requires { from ≤ end }
        ensures within { (from ≤ result) × (result ≤ end) }
        ensures had { (place : ℕ) → from ≤ place → place < result
            → ¬ LacksPlace self.now.words.items place }
        ensures lacking { result < end → LacksPlace self.now.words.items result }
    {
        let mut place = from;
        while place < end {
            if self.lack(place) {
                return place;
            }
            place += 1;
        }
        place
    }

    // The first place, from this one on, that the set doesn't lack: it is in the set, or there is
    // no room for it.
    pub(crate) fn next(&self, from: usize) -> usize
        ensures on { from ≤ result }
        ensures none { (place : ℕ) → from ≤ place → place < result
            → LacksPlace self.now.words.items place }
        ensures here { ¬ LacksPlace self.now.words.items result }
    {
        let words = self.words.as_slice();
        let mut place = from;
        while place / PLACES < words.len() {
            let rest = words[place / PLACES] >> (place % PLACES);
            if rest != 0 {
                return place + rest.trailing_zeros() as usize;
            }
            place = (place / PLACES + 1) * PLACES;
        }
        place
    }
}

// Whether the word of a rule matches every verb.
fn is_star(word: &Word) -> bool
    ensures { IsTrue result ↔ (word.now ≡ codes "*") }
{
    word.as_bytes() == STAR
}
