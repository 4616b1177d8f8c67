//! Lists of rules, one under each word of their resources.

ghost use Rattle.std.specs.Prelude.{◌≡◌, ◌≢◌, ◌++◌, [], ℕ, IfOk, OnOk, Contains, ◌↔◌, ◌⊎◌};
ghost use Rattle.std.specs.Prelude.{MatchOption, codes, length, map};
ghost use Rattle.rbac_terms.specs.Text.{Text};
ghost use Rattle.rbac_terms.specs.Matching.{ResourceWordMatches, FollowsFirstSlash};
ghost use Rattle.rbac_index.specs.Written.{AreWritten, bare_rules};
ghost use Rattle.rbac_index.specs.RuleLists.{listed, ListsMore, ListsUnder, ListsRule, AreListed};

use crate::rule_rows::{Written, laid_out};
use rbac_terms::{Items, Rule, Rules, Word, cut_at_first};
use std::alloc::{AllocError, Global};
use std::collections::BTreeMap;

// The numbers of the rules under each of their resource words, and of the rules with URLs.
pub(crate) struct RuleLists {
    pub(crate) by_word: BTreeMap<Word, Items<usize>>,
    pub(crate) with_urls: Items<usize>,
}

impl Drop for RuleLists {
    fn drop(self) {
        let Self { by_word, with_urls } = self;
    }
}

// Rules, and lists of their places.
pub(crate) struct ListedRules<'p> {
    pub(crate) rules: Vec<Written<'p>>,
    pub(crate) lists: RuleLists,
}

impl Drop for ListedRules<'_> {
    fn drop(self) {
        let Self { rules, lists } = self;
    }
}

// The rules of these rows, one row after the other, and lists of them.
pub(crate) fn listed_rules<'p>(
    alloc: Global,
    rows: &[&'p Rules],
) -> Result<ListedRules<'p>, AllocError>
    ensures written { IfOk result (λ l. AreWritten (map (λ r. r.now) rows.now) l.rules.items) }
    ensures listed { IfOk result
        (λ l. AreListed (bare_rules l.rules.items) (length l.rules.items) l.lists) }
{
    let rules = laid_out(alloc, rows)?;
    let lists = rule_lists_of(alloc, rules.as_slice())?;
    Ok(ListedRules { rules, lists })
}

// Lists these rules by their places.
fn rule_lists_of(alloc: Global, rules: &[Written<'_>]) -> Result<RuleLists, AllocError>
    ensures { IfOk result (AreListed (bare_rules rules.now) (length rules.now)) }
{
    let mut lists = RuleLists {
        by_word: BTreeMap::new(alloc),
        with_urls: Items::new(alloc),
    };
    for (no, written) in rules.iter().enumerate() {
        list_rule(alloc, &mut lists, written.rule, no)?;
    }
    Ok(lists)
}

// Lists one rule under its resource words, and among the rules with URLs if it has any.
fn list_rule(alloc: Global, lists: &mut RuleLists, rule: &Rule, no: usize) -> Result<(), AllocError>
    ensures { OnOk result (ListsRule lists.old lists.new rule.now no) }
{
    list_under_all(alloc, &mut lists.by_word, rule.resources.as_slice(), no)?;
    if !rule.urls.is_empty() {
        lists.with_urls.push(no)?;
    }
    Ok(())
}

// Lists a number under these words.
fn list_under_all(
    alloc: Global,
    lists: &mut BTreeMap<Word, Items<usize>>,
    words: &[Word],
    no: usize,
) -> Result<(), AllocError>
    ensures { OnOk result (ListsUnder lists.old lists.new words.now no) }
{
    for word in words {
        list_under(alloc, lists, word, no)?;
    }
    Ok(())
}

// Lists a number under one word.
fn list_under(
    alloc: Global,
    lists: &mut BTreeMap<Word, Items<usize>>,
    word: &Word,
    no: usize,
) -> Result<(), AllocError>
    ensures { OnOk result (ListsMore lists.old lists.new word.now no) }
{
    match lists.get_mut(word) {
        Some(numbers) => numbers.push(no)?,
        None => {
            let mut numbers = Items::new(alloc);
            numbers.push(no)?;
            let key = Word::from_slice(alloc, word.as_bytes())?;
            lists.insert(key, numbers)?;
        }
    }
    Ok(())
}

// The numbers under a word.
fn under<'a>(lists: &'a BTreeMap<Word, Items<usize>>, word: &Word) -> &'a [usize]
    ensures { result.now ≡ listed lists.now word.now }
{
    match lists.get(word) {
        Some(numbers) => numbers.as_slice(),
        None => &[],
    }
}

// The word `*/SUBRESOURCE` for this text's subresource; `None` if the text has none.
fn subresource_word(alloc: Global, text: &Word) -> Result<Option<Word>, AllocError>
    ensures { IfOk result (λ o. MatchOption o
        ((s : Text) → s ≢ [] → ¬ FollowsFirstSlash text.now s)
        (λ w. (s : Text) × (w ≡ codes "*/" ++ s) × (s ≢ []) × FollowsFirstSlash text.now s)) }
{
    let Some((_, subresource)) = cut_at_first(text.as_bytes(), b'/') else {
        return Ok(None);
    };
    if subresource.is_empty() {
        return Ok(None);
    }
    let mut word = Word::from_slice(alloc, b"*/".as_slice())?;
    word.push_slice(subresource)?;
    Ok(Some(word))
}

// The numbers under the words that match this resource text, each once.
pub(crate) fn matching(
    alloc: Global,
    lists: &BTreeMap<Word, Items<usize>>,
    text: &Word,
) -> Result<Vec<usize>, AllocError>
    ensures { IfOk result
        (λ v. (n : ℕ) → Contains v.items n
        ↔ ((w : Text) × ResourceWordMatches w text.now × Contains (listed lists.now w) n)) }
{
    let star = Word::from_slice(alloc, b"*".as_slice())?;
    let every = under(lists, &star);
    let same = under(lists, text);
    match subresource_word(alloc, text)? {
        Some(word) => united(alloc, every, same, under(lists, &word)),
        None => united(alloc, every, same, &[]),
    }
}

// The numbers of three lists, each once.
fn united(
    alloc: Global,
    first: &[usize],
    second: &[usize],
    third: &[usize],
) -> Result<Vec<usize>, AllocError>
    ensures { IfOk result
        (λ v. (n : ℕ) → Contains v.items n
        ↔ (Contains first.now n ⊎ (Contains second.now n ⊎ Contains third.now n))) }
{
    let mut numbers = Vec::from_slice(alloc, first)?;
    numbers.extend_from_slice(second)?;
    numbers.extend_from_slice(third)?;
    numbers.sort_unstable();
    numbers.dedup();
    Ok(numbers)
}
