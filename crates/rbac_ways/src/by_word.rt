//! Nodes by the words by which they can be had.

ghost use Rattle.std.specs.Prelude.{◌↔◌, IfOk, [], Contains, ℕ, slice_index_or};
ghost use Rattle.rbac_terms.specs.Text.{Text};
ghost use Rattle.rbac_ways.specs.Joining.{HasUnder};

use crate::joining::{number_of, sets_of, words_of};
use rbac_terms::{Items, Word, Words};
use std::alloc::{AllocError, Global};
use std::marker::Model;

/// The nodes that can be had by each word. Nodes are numbered from 0 (own).
pub struct NodesByWord {
    words: Vec<Word>,
    sets: Vec<Items<usize>>,
}

impl Drop for NodesByWord {
    fn drop(self) {
        let Self { words, sets } = self;
    }
}

impl Model for NodesByWord {
    ghost use Rattle.std.specs.List.Sorted.{IsStrictlySortedBy};
    ghost use Rattle.rbac_terms.specs.Text.{text_cmp};
    ghost use Rattle.rbac_ways.specs.Joining.{ByWordView};

    ghost Value = { ByWordView };

    ghost view = { λ n. record { words = n.words.items; sets = n.sets.items } };

    ghost invariant = { λ n. IsStrictlySortedBy text_cmp n.words.items };
}

impl NodesByWord {
    /// The nodes by their words, where each list has the words by which the node of its place can be
    /// had. Fails only if it runs out of memory.
    pub fn of(alloc: Global, had_by: &[Words]) -> Result<Self, AllocError>
        ensures { IfOk result (λ n. (w : Text) (j : ℕ)
            → HasUnder n w j ↔ Contains (slice_index_or had_by.now j []) w) }
    {
        let words = words_of(alloc, had_by)?;
        let sets = sets_of(alloc, words.as_slice(), had_by)?;
        Ok(NodesByWord { words, sets })
    }

    /// The nodes that can be had by a word.
    pub fn under(&self, word: &Word) -> &[usize]
        ensures { (j : ℕ) → Contains result.now j ↔ HasUnder self.now word.now j }
    {
        let Some(number) = number_of(self.words.as_slice(), word) else {
            return &[];
        };
        match self.sets.get(number) {
            Some(set) => set.as_slice(),
            None => &[],
        }
    }
}
