//! Words under keys, and the groups of those under the same key.

ghost use Rattle.std.specs.Prelude.{◌≡◌, ◌↔◌, ◌++◌, ◌∷◌, [], AllPairs, Contains, IfOk};
ghost use Rattle.std.specs.Prelude.{IsTrue, List, OnOk};
ghost use Rattle.std.specs.declared.cmp.Ordering.TheVariants.{Less};
ghost use Rattle.rbac_use.specs.Grouping.{AreGrouped, group_of, key_cmp, kind_text, pair_cmp};
ghost use Rattle.rbac_use.specs.LeastRules.{with_words};
ghost use Rattle.rbac_use.specs.declared.grouping.Pair.{Pair};

use rbac_terms::{Word, Words};
use std::alloc::{AllocError, Global};
use std::cmp::Ordering;

// What the words under a key are, in order.
#[derive(Clone, Copy, Drop)]
pub(crate) enum Kind {
    // Verbs, or the empty text alone: for a resource whatever the object name is.
    AnyName,
    // Object names.
    Names,
    // Resources.
    Resources,
    // URLs.
    Urls,
}

// What the targets of some requests have in common.
#[derive(Drop)]
pub(crate) struct RuleKey {
    // The namespace; empty for the whole cluster, and for URLs.
    pub(crate) namespace: Word,
    // What differs: object names, resources or URLs.
    pub(crate) kind: Kind,
    // The API group; empty for URLs.
    pub(crate) group: Word,
    // The resource, if it is the same for all.
    pub(crate) resource: Word,
    // What differs, if the words under the key are verbs; otherwise the verbs.
    pub(crate) words: Words,
}

// A word under a key.
#[derive(Drop)]
pub(crate) struct Pair {
    pub(crate) key: RuleKey,
    pub(crate) word: Word,
}

// All words under a key.
#[derive(Drop)]
pub(crate) struct Group {
    pub(crate) key: RuleKey,
    // In byte order, each once.
    pub(crate) words: Words,
}

impl PartialEq for Pair {
    ghost use Rattle.std.specs.Cmp as Cmp;
    ghost use Rattle.std.specs.Ordering.{eq_by_cmp};
    ghost use Rattle.rbac_use.specs.Grouping.{pair_cmp, pair_cmp_equiv};

    ghost eq = { eq_by_cmp pair_cmp };

    ghost laws = { Cmp.partial_equiv_from_equiv pair_cmp_equiv };

    fn eq(&self, other: &Self) -> bool {
        self.cmp(other) == Ordering::Equal
    }
}

impl Eq for Pair {
    ghost use Rattle.rbac_use.specs.Grouping.{pair_cmp_equiv};

    ghost laws = { pair_cmp_equiv };
}

impl PartialOrd for Pair {
    ghost use Rattle.std.specs.Ordering.{as_partial_cmp};
    ghost use Rattle.rbac_use.specs.Grouping.{pair_cmp, pair_cmp_partial};

    ghost partial_cmp = { as_partial_cmp pair_cmp };

    ghost laws = { pair_cmp_partial };

    fn partial_cmp(&self, other: &Self) -> Option<Ordering> {
        Some(self.cmp(other))
    }
}

impl Ord for Pair {
    ghost use Rattle.std.specs.Prelude.{refl};
    ghost use Rattle.rbac_use.specs.Grouping.{pair_cmp, pair_cmp_total};

    ghost cmp = { pair_cmp };

    ghost total = { pair_cmp_total };

    ghost matches_partial_cmp = { λ _ _. refl };

    ghost matches_eq = { λ _ _. refl };

    fn cmp(&self, other: &Self) -> Ordering {
        let word = self.word.cmp(&other.word);
        cmp_keys(&self.key, &other.key).then(word)
    }
}

// The order of keys, text by text.
fn cmp_keys(key: &RuleKey, other: &RuleKey) -> Ordering
    ensures { result ≡ key_cmp key.now other.now }
{
    let words = key.words.as_slice().cmp(other.words.as_slice());
    let resource = key.resource.cmp(&other.resource);
    let group = key.group.cmp(&other.group);
    let kind = kind_of(key.kind).cmp(kind_of(other.kind));
    let namespace = key.namespace.cmp(&other.namespace);
    namespace.then(kind.then(group.then(resource.then(words))))
}

// The word for a kind, by which kinds are ordered.
fn kind_of(kind: Kind) -> &'static [u8]
    ensures { result.now ≡ kind_text kind }
{
    match kind {
        Kind::AnyName => b"any",
        Kind::Names => b"names",
        Kind::Resources => b"resources",
        Kind::Urls => b"urls",
    }
}

// The words by their keys: each key once, in order, with its words, each once, in byte order.
pub(crate) fn grouped(alloc: Global, mut pairs: Vec<Pair>) -> Result<Vec<Group>, AllocError>
    ensures { IfOk result (λ groups. AreGrouped (λ x. Contains pairs.items x) groups.items) }
{
    pairs.sort_unstable();
    pairs.dedup();
    let mut groups = Vec::new(alloc);
    for pair in &pairs {
        add_word(alloc, pair, &mut groups)?;
    }
    Ok(groups)
}

// Adds a pair that comes after all others: the word to the last group, if that has its key, and
// otherwise to a new one.
fn add_word(alloc: Global, pair: &Pair, groups: &mut Vec<Group>) -> Result<(), AllocError>
    ensures { (done : List Pair) → AreGrouped (λ x. Contains done x) groups.old.items
        → AllPairs (λ a b. pair_cmp a b ≡ Less) (done ++ pair.now ∷ [])
        → OnOk result
        (AreGrouped (λ x. Contains (done ++ pair.now ∷ []) x) groups.new.items) }
{
    let count = groups.as_slice().len();
    if count == 0 {
        return add_group(alloc, pair, groups);
    }
    if is_same(&groups[count - 1].key, &pair.key) {
        groups[count - 1].words.push(pair.word.clone()?)?;
        return Ok(());
    }
    add_group(alloc, pair, groups)
}

// Adds a group of the pair alone.
fn add_group(alloc: Global, pair: &Pair, groups: &mut Vec<Group>) -> Result<(), AllocError>
    ensures { OnOk result (groups.new.items
        ≡ groups.old.items ++ group_of pair.now.key (pair.now.word ∷ []) ∷ []) }
{
    let mut words = Words::new(alloc);
    words.push(pair.word.clone()?)?;
    groups.push(Group {
        key: copied(&pair.key)?,
        words,
    })?;
    Ok(())
}

// Whether two keys are the same.
fn is_same(key: &RuleKey, other: &RuleKey) -> bool
    ensures { IsTrue result ↔ (key.now ≡ other.now) }
{
    cmp_keys(key, other).is_eq()
}

// A copy of the key.
fn copied(key: &RuleKey) -> Result<RuleKey, AllocError>
    ensures { IfOk result (λ copy. copy ≡ key.now) }
{
    with_words(key, &key.words)
}

// A copy of the key, with these words in place of its own.
pub(crate) fn with_words(key: &RuleKey, words: &Words) -> Result<RuleKey, AllocError>
    ensures { IfOk result (λ copy. copy ≡ with_words key.now words.now) }
{
    Ok(RuleKey {
        namespace: key.namespace.clone()?,
        kind: key.kind,
        group: key.group.clone()?,
        resource: key.resource.clone()?,
        words: words.clone()?,
    })
}
