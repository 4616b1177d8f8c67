//! The places of a role's rules, listed under the words that they hold.

ghost use Rattle.std.specs.Prelude.{◌≡◌, ◌∷◌, [], Contains, IfOk, OnOk, IsTrue, MatchOption};
ghost use Rattle.std.specs.Prelude.{codes, length};
ghost use Rattle.rbac_terms.specs.Text.{Text};
ghost use Rattle.rbac_lint.specs.RulesByWord.{places_under, lists_in, words_in, IsListKey};
ghost use Rattle.rbac_lint.specs.RulesByWord.{TakesIn, ListsPlace, ListsAll, IsListedAsBefore};
ghost use Rattle.rbac_lint.specs.RulesByWord.{IsUrlStem, AreRulesListed, AreRulesByWord};

use crate::prefixes::{Prefix, prefixes_of};
use rbac_terms::{Rule, Word, before_stars};
use std::alloc::{AllocError, Global};
use std::collections::BTreeMap;
use std::marker::Model;
use std::slice::from_ref;

// Places of rules, ascending.
#[derive(Drop)]
pub(crate) struct Places {
    items: Vec<usize>,
}

impl Model for Places {
    ghost use Rattle.std.specs.Prelude.{ℕ, List};

    ghost Value = { List ℕ };

    ghost view = { λ ps. ps.items.items };
}

impl Places {
    // No places. Doesn't allocate.
    fn new(alloc: Global) -> Self
        ensures { result ≡ [] }
    {
        Places {
            items: Vec::new(alloc),
        }
    }

    pub(crate) fn as_slice(&self) -> &[usize]
        ensures { result.now ≡ self.now }
    {
        self.items.as_slice()
    }

    // Adds a place at the end, unless it is the last one already.
    fn take_in(&mut self, place: usize) -> Result<(), AllocError>
        ensures { OnOk result (TakesIn self.old self.new place) }
    {
        if self.ends_with(place) {
            return Ok(());
        }
        self.items.push(place)?;
        Ok(())
    }

    fn ends_with(&self, place: usize) -> bool
        ensures { IsTrue result → Contains self.now place }
    {
        self.items.as_slice().last() == Some(&place)
    }
}

// The lists by whose words rules are listed: the lists of a rule and, for URLs that end in stars,
// the prefixes before the stars.
#[derive(Clone, Copy, Debug)]
pub(crate) enum Field {
    Verbs,
    Groups,
    Resources,
    Names,
    Urls,
    Prefixes,
}

// The places of a role's rules under the words of each of their lists.
pub(crate) struct RulesByWord {
    pub(crate) star: Word,
    verbs: BTreeMap<Word, Places>,
    groups: BTreeMap<Word, Places>,
    resources: BTreeMap<Word, Places>,
    names: BTreeMap<Word, Places>,
    urls: BTreeMap<Word, Places>,
    pub(crate) prefixes: Vec<Prefix>,
}

impl Drop for RulesByWord {
    fn drop(self) {
        let Self {
            star,
            verbs,
            groups,
            resources,
            names,
            urls,
            prefixes,
        } = self;
    }
}

// The word that matches every text.
pub(crate) fn star_word(alloc: Global) -> Result<Word, AllocError>
    ensures { IfOk result (λ word. word ≡ codes "*") }
{
    Word::from_slice(alloc, b"*".as_slice())
}

// Lists these rules.
pub(crate) fn listed_by_word(alloc: Global, rules: &[Rule]) -> Result<RulesByWord, AllocError>
    ensures { IfOk result (AreRulesByWord rules.now) }
{
    let star = star_word(alloc)?;
    let verbs = lists_of(alloc, rules, &star, Field::Verbs)?;
    let groups = lists_of(alloc, rules, &star, Field::Groups)?;
    let resources = lists_of(alloc, rules, &star, Field::Resources)?;
    let names = lists_of(alloc, rules, &star, Field::Names)?;
    let urls = lists_of(alloc, rules, &star, Field::Urls)?;
    let by_prefix = lists_of(alloc, rules, &star, Field::Prefixes)?;
    let prefixes = prefixes_of(alloc, by_prefix)?;
    Ok(RulesByWord {
        star,
        verbs,
        groups,
        resources,
        names,
        urls,
        prefixes,
    })
}

// Lists these rules under the words of one of their lists.
fn lists_of(
    alloc: Global,
    rules: &[Rule],
    star: &Word,
    field: Field,
) -> Result<BTreeMap<Word, Places>, AllocError>
    requires { star.now ≡ codes "*" }
    ensures { IfOk result (AreRulesListed field rules.now (length rules.now)) }
{
    let mut lists = BTreeMap::new(alloc);
    for (place, rule) in rules.iter().enumerate() {
        list_all(alloc, &mut lists, field, words_in(field, rule, star), place)?;
    }
    Ok(lists)
}

// The words of a rule in one of its lists; a rule without names allows every name, as a star does.
pub(crate) fn words_in<'a>(field: Field, rule: &'a Rule, star: &'a Word) -> &'a [Word]
    ensures { star.now ≡ codes "*" → result.now ≡ words_in field rule.now }
{
    match field {
        Field::Verbs => rule.verbs.as_slice(),
        Field::Groups => rule.groups.as_slice(),
        Field::Resources => rule.resources.as_slice(),
        Field::Names => {
            if rule.resource_names.is_empty() {
                from_ref(star)
            } else {
                rule.resource_names.as_slice()
            }
        }
        Field::Urls | Field::Prefixes => rule.urls.as_slice(),
    }
}

// Lists a place for each of these words.
fn list_all(
    alloc: Global,
    lists: &mut BTreeMap<Word, Places>,
    field: Field,
    words: &[Word],
    place: usize,
) -> Result<(), AllocError>
    ensures { OnOk result (ListsAll lists.old lists.new field words.now place) }
{
    for word in words {
        list_for(alloc, lists, field, word, place)?;
    }
    Ok(())
}

// Lists a place for one word. A URL that doesn't end in a star is listed among the prefixes without
// a place.
fn list_for(
    alloc: Global,
    lists: &mut BTreeMap<Word, Places>,
    field: Field,
    word: &Word,
    place: usize,
) -> Result<(), AllocError>
    ensures { OnOk result (ListsAll lists.old lists.new field (word.now ∷ []) place) }
{
    let Some(key) = key_of(field, word.as_bytes()) else {
        return put_in(alloc, lists, word);
    };
    list_under(alloc, lists, Word::from_slice(alloc, key)?, place)
}

// What a word is listed under, if it is listed.
fn key_of(field: Field, word: &[u8]) -> Option<&[u8]>
    ensures { MatchOption result ((key : Text) → ¬ IsListKey field word.now key)
        (λ key. IsListKey field word.now key.now) }
{
    match field {
        Field::Prefixes => before_stars(word),
        _ => Some(word),
    }
}

// A word without the stars at its end, if it has any.
pub(crate) fn stem_of(word: &[u8]) -> &[u8]
    ensures { IsUrlStem word.now result.now }
{
    match before_stars(word) {
        Some(stem) => stem,
        None => word,
    }
}

// Lists a place under this word.
fn list_under(
    alloc: Global,
    lists: &mut BTreeMap<Word, Places>,
    word: Word,
    place: usize,
) -> Result<(), AllocError>
    ensures { OnOk result (ListsPlace lists.old lists.new word place) }
{
    match lists.get_mut(&word) {
        Some(places) => places.take_in(place)?,
        None => {
            let mut places = Places::new(alloc);
            places.take_in(place)?;
            lists.insert(word, places)?;
        }
    }
    Ok(())
}

// Makes sure that the word has a list of places, which is empty if the word is new.
fn put_in(alloc: Global, lists: &mut BTreeMap<Word, Places>, word: &Word) -> Result<(), AllocError>
    ensures { OnOk result (IsListedAsBefore lists.old lists.new) }
{
    if lists.contains_key(word) {
        return Ok(());
    }
    let key = Word::from_slice(alloc, word.as_bytes())?;
    lists.insert(key, Places::new(alloc))?;
    Ok(())
}

// The places under a word.
pub(crate) fn under<'a>(lists: &'a BTreeMap<Word, Places>, word: &Word) -> &'a [usize]
    ensures { result.now ≡ places_under lists.now word.now }
{
    match lists.get(word) {
        Some(places) => places.as_slice(),
        None => &[],
    }
}

impl RulesByWord {
    // The places under the words of one list; for prefixes, those of URLs, since prefixes are kept
    // apart.
    pub(crate) fn lists(&self, field: Field) -> &BTreeMap<Word, Places>
        ensures { result.now ≡ lists_in field self.now }
    {
        match field {
            Field::Verbs => &self.verbs,
            Field::Groups => &self.groups,
            Field::Resources => &self.resources,
            Field::Names => &self.names,
            Field::Urls | Field::Prefixes => &self.urls,
        }
    }
}
