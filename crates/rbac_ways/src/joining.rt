//! Graphs of nodes that share words. Each word has a number, and the set with this number contains
//! the nodes that can be had by the word.

ghost use Rattle.std.specs.Prelude.{◌≡◌, ◌+◌, ◌<◌, ◌≤◌, ◌⊎◌, ◌↔◌, ℕ, IfOk, OnOk, Some, Contains};
ghost use Rattle.std.specs.Prelude.{◌∷◌, [], length, replicate, slice_get, slice_index_or};
ghost use Rattle.std.specs.List.Sorted.{IsStrictlySortedBy};
ghost use Rattle.rbac_terms.specs.Text.{text_cmp};
ghost use Rattle.rbac_ways.specs.Ways.{IsEdge};
ghost use Rattle.rbac_ways.specs.Joining.{AddsToEach, AreLists, AreTurned, AreWordsOf, HasNumber};
ghost use Rattle.rbac_ways.specs.Joining.{HasSet, IsListedAt, IsNumberOf, SharesWord, TakesList};
ghost use Rattle.rbac_ways.specs.Joining.{TakesListed, TakesOwn};

use crate::graph::Graph;
use rbac_terms::{Items, Word, Words};
use std::alloc::{AllocError, Global};

impl Graph {
    /// The graph of nodes that share words: an edge leads from a node to another if the first takes
    /// a word by which the second can be had (own). A node takes the words of the lists at its
    /// places; a place past the last list is ignored. An edge also leads from each node to the
    /// nodes of the list of `also` at its place in `own`, so nodes may share such a list; `own` has
    /// at most one place for each node. Each list is looked up and kept once, however many nodes
    /// take it. Either the words of the lists or those by which nodes can be had are sorted, once:
    /// whichever are fewer. The nodes that can be had by a word are one set, however many lists
    /// have the word. Fails only if it runs out of memory.
    pub fn joined(
        alloc: Global,
        lists: &[Words],
        takes: &[Items<usize>],
        had_by: &[Words],
        also: &[Items<usize>],
        own: &[usize],
    ) -> Result<Self, AllocError>
        requires { length own.now ≤ length takes.now }
        ensures nodes { IfOk result (λ g. length g.takes ≡ length takes.now) }
        ensures edges { IfOk result (λ g. (i j : ℕ) → IsEdge g i j ↔ ((j < length takes.now)
            × (SharesWord lists.now takes.now had_by.now i j ⊎ TakesListed also.now own.now i j))) }
    {
        let words = words_of(alloc, fewer_words(lists, had_by))?;
        let takes = takes_of(alloc, lists, takes, also, own)?;
        let lists = lists_of(alloc, words.as_slice(), lists, also)?;
        let mut sets = sets_of(alloc, words.as_slice(), had_by)?;
        sets.extend_with_clones(also)?;
        Ok(Graph { takes, lists, sets })
    }

    /// The graph with each edge turned round (own). A list that many nodes take becomes one set,
    /// and a set that many lists have becomes one list. Fails only if it runs out of memory.
    pub fn turned(&self, alloc: Global) -> Result<Self, AllocError>
        ensures nodes { IfOk result (λ g. length g.takes ≡ length self.now.takes) }
        ensures edges { IfOk result (λ g. (i j : ℕ) → IsEdge g i j ↔ IsEdge self.now j i) }
    {
        let takes = self.takes.as_slice();
        let lists = self.lists.as_slice();
        let sets = self.sets.as_slice();
        Ok(Graph {
            takes: turned(alloc, sets, takes.len())?,
            lists: turned(alloc, lists, sets.len())?,
            sets: turned(alloc, takes, lists.len())?,
        })
    }
}

// The lists turned round, as `count` lists: list j gets i if list i has j. A number past the last
// list is left out.
fn turned(
    alloc: Global,
    lists: &[Items<usize>],
    count: usize,
) -> Result<Vec<Items<usize>>, AllocError>
    ensures { IfOk result (λ turned. AreTurned lists.now count turned.items) }
{
    let mut turned = no_nodes(alloc, count)?;
    for (place, numbers) in lists.iter().enumerate() {
        add_to_each(numbers.as_slice(), place, &mut turned)?;
    }
    Ok(turned)
}

// The lists that have fewer words in all. Either has every word that nodes share.
fn fewer_words<'a>(first: &'a [Words], second: &'a [Words]) -> &'a [Words]
    ensures { (result.now ≡ first.now) ⊎ (result.now ≡ second.now) }
{
    if count_words(first) < count_words(second) {
        first
    } else {
        second
    }
}

// How many words these lists have. Nothing is proved about this count, because it decides only how
// long the rest takes.
fn count_words(lists: &[Words]) -> usize {
    let mut count = 0usize;
    for listed in lists {
        count = count.saturating_add(listed.as_slice().len());
    }
    count
}

// The words of these lists, each once, in order.
pub(crate) fn words_of(alloc: Global, lists: &[Words]) -> Result<Vec<Word>, AllocError>
    ensures { IfOk result (λ words. AreWordsOf lists.now words.items) }
{
    let mut words = Vec::new(alloc);
    for listed in lists {
        words.extend_with_clones(listed.as_slice())?;
    }
    words.sort_unstable();
    words.dedup();
    Ok(words)
}

// The number of a word among these words, if it is one of them.
pub(crate) fn number_of(words: &[Word], word: &Word) -> Option<usize>
    requires { IsStrictlySortedBy text_cmp words.now }
    ensures { (number : ℕ) → (result ≡ Some number) ↔ (slice_get words.now number ≡ Some word.now) }
{
    words.binary_search(word).ok()
}

// The numbers of the listed words that are among these words.
fn numbers_of(alloc: Global, words: &[Word], listed: &Words) -> Result<Vec<usize>, AllocError>
    requires { IsStrictlySortedBy text_cmp words.now }
    ensures { IfOk result (λ numbers. (number : ℕ)
        → Contains numbers.items number ↔ IsNumberOf words.now listed.now number) }
{
    let mut numbers = Vec::new(alloc);
    for word in listed.as_slice() {
        if let Some(number) = number_of(words, word) {
            numbers.push(number)?;
        }
    }
    Ok(numbers)
}

// For each of these lists, the numbers of its words that are among these words.
fn numbers_of_each(
    alloc: Global,
    words: &[Word],
    lists: &[Words],
) -> Result<Vec<Items<usize>>, AllocError>
    requires { IsStrictlySortedBy text_cmp words.now }
    ensures { IfOk result (λ numbers.
        AreLists (HasNumber words.now lists.now) (length lists.now) numbers.items) }
{
    let mut numbers = Vec::with_capacity(alloc, lists.len())?;
    for listed in lists {
        numbers.push(Items::from_vec(numbers_of(alloc, words, listed)?))?;
    }
    Ok(numbers)
}

// The sets of each list: those of its words; and then, for each list of `also`, a list of one set.
// These sets come after the sets of all words.
fn lists_of(
    alloc: Global,
    words: &[Word],
    lists: &[Words],
    also: &[Items<usize>],
) -> Result<Vec<Items<usize>>, AllocError>
    requires { IsStrictlySortedBy text_cmp words.now }
    ensures { IfOk result (λ all.
        AreLists (HasSet words.now lists.now) (length lists.now + length also.now) all.items) }
{
    let mut all = numbers_of_each(alloc, words, lists)?;
    for place in 0..also.len() {
        let mut single = Items::new(alloc);
        single.push(words.len() + place)?;
        all.push(single)?;
    }
    Ok(all)
}

// The lists that each node takes: those of words at its places, and the list of nodes at its own
// place. Lists of nodes come after lists of words.
fn takes_of(
    alloc: Global,
    lists: &[Words],
    takes: &[Items<usize>],
    also: &[Items<usize>],
    own: &[usize],
) -> Result<Vec<Items<usize>>, AllocError>
    ensures { IfOk result (λ all. AreLists
        (TakesList (length lists.now) (length also.now) takes.now own.now)
        (length takes.now) all.items) }
{
    let mut all = Vec::with_capacity(alloc, takes.len())?;
    for (node, places) in takes.iter().enumerate() {
        let mut taken = numbers_below(alloc, places.as_slice(), lists.len())?;
        add_own(node, lists, also, own, &mut taken)?;
        all.push(Items::from_vec(taken))?;
    }
    Ok(all)
}

// The numbers that are below a bound. A place past the last list mustn't be taken for the number of
// a list of nodes.
fn numbers_below(alloc: Global, numbers: &[usize], bound: usize) -> Result<Vec<usize>, AllocError>
    ensures { IfOk result (λ below. (number : ℕ)
        → Contains below.items number ↔ (Contains numbers.now number × (number < bound))) }
{
    let mut below = Vec::new(alloc);
    for number in numbers {
        if *number < bound {
            below.push(*number)?;
        }
    }
    Ok(below)
}

// Adds the list of nodes that a node takes at its own place, if there is one.
fn add_own(
    node: usize,
    lists: &[Words],
    also: &[Items<usize>],
    own: &[usize],
    taken: &mut Vec<usize>,
) -> Result<(), AllocError>
    ensures { OnOk result ((list : ℕ) → Contains taken.new.items list
        ↔ (Contains taken.old.items list
        ⊎ TakesOwn (length lists.now) (length also.now) own.now node list)) }
{
    let Some(place) = own.get(node) else {
        return Ok(());
    };
    if *place < also.len() {
        taken.push(lists.len() + *place)?;
    }
    Ok(())
}

// The nodes that can be had by each word.
pub(crate) fn sets_of(
    alloc: Global,
    words: &[Word],
    had_by: &[Words],
) -> Result<Vec<Items<usize>>, AllocError>
    requires { IsStrictlySortedBy text_cmp words.now }
    ensures len { IfOk result (λ sets. length sets.items ≡ length words.now) }
    ensures each { IfOk result (λ sets. (number j : ℕ) → number < length words.now
        → IsListedAt sets.items number j
        ↔ IsNumberOf words.now (slice_index_or had_by.now j []) number) }
{
    let mut sets = no_nodes(alloc, words.len())?;
    for (node, listed) in had_by.iter().enumerate() {
        let numbers = numbers_of(alloc, words, listed)?;
        add_to_each(numbers.as_slice(), node, &mut sets)?;
    }
    Ok(sets)
}

// This many lists without nodes.
fn no_nodes(alloc: Global, count: usize) -> Result<Vec<Items<usize>>, AllocError>
    ensures { IfOk result (λ lists. lists.items ≡ replicate count []) }
{
    vec![in alloc; Items::new(alloc); count]
}

// Adds a node to the lists at these places; a place without a list is ignored.
fn add_to_each(
    places: &[usize],
    node: usize,
    lists: &mut Vec<Items<usize>>,
) -> Result<(), AllocError>
    ensures { OnOk result (AddsToEach places.now node lists.old.items lists.new.items) }
{
    for place in places {
        add_to(*place, node, lists)?;
    }
    Ok(())
}

// Adds a node to the list at this place, if there is one.
fn add_to(place: usize, node: usize, lists: &mut Vec<Items<usize>>) -> Result<(), AllocError>
    ensures { OnOk result (AddsToEach (place ∷ []) node lists.old.items lists.new.items) }
{
    if place < lists.len() {
        lists[place].push(node)?;
    }
    Ok(())
}
