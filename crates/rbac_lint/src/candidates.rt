//! Where to look for the rules that cover a rule. A rule that covers another allows each of the
//! other's words, taken as a text. So for each of these words, it is listed under one of the few
//! words that match it. The word with the fewest places is used.

ghost use Rattle.std.specs.Prelude.{◌≡◌, ◌++◌, ◌∷◌, [], ◌⊎◌, List, Some, IfOk, IfSome, OnOk};
ghost use Rattle.std.specs.Prelude.{IsTrue};
ghost use Rattle.rbac_terms.specs.declared.matching.Rule.{Rule as RuleView};
ghost use Rattle.rbac_lint.specs.declared.rules_by_word.Field.TheVariants.{Urls};
ghost use Rattle.rbac_lint.specs.RulesByWord.{AreRulesByWord};
ghost use Rattle.rbac_lint.specs.Prefixes.{ArePrefixes};
ghost use Rattle.rbac_lint.specs.Candidates.{IsAsked, Binds, FindsEach, AddsUnder, AddsPrefixes};
ghost use Rattle.rbac_lint.specs.Candidates.{IsOfEach, AreMatching, IncludeCovers};

use crate::prefixes::{Prefix, last_up_to};
use crate::rules_by_word::{Field, Places, RulesByWord, star_word, stem_of, under, words_in};
use rbac_covering::{has_resource, has_url};
use rbac_terms::{Rule, Word, cut_at_first, is_path, is_resource_text};
use std::alloc::{AllocError, Global};
use std::collections::BTreeMap;

// Lists of the places of rules, each ascending, and how many places these lists have together.
#[derive(Drop)]
pub(crate) struct Candidates<'a> {
    pub(crate) lists: Vec<&'a [usize]>,
    count: usize,
}

impl<'a> Candidates<'a> {
    // No candidates. Doesn't allocate.
    fn new(alloc: Global) -> Self
        ensures { result.lists.items ≡ [] }
    {
        Candidates {
            lists: Vec::new(alloc),
            count: 0,
        }
    }

    fn add(&mut self, places: &'a [usize]) -> Result<(), AllocError>
        ensures { OnOk result (self.new.lists.items ≡ self.old.lists.items ++ places.entry ∷ []) }
    {
        self.lists.push(places)?;
        self.count = self.count.saturating_add(places.len());
        Ok(())
    }

    // Adds the places under a word.
    fn add_under(
        &mut self,
        lists: &'a BTreeMap<Word, Places>,
        word: &Word,
    ) -> Result<(), AllocError>
        ensures { OnOk result (AddsUnder lists.now (λ u. u ≡ word.now) self.old self.new) }
    {
        self.add(under(lists, word))
    }
}

// The fewest places that include every rule covering this one; `None` for a rule that allows
// nothing.
pub(crate) fn fewest_for<'a>(
    alloc: Global,
    by_word: &'a RulesByWord,
    rule: &'a Rule,
) -> Result<Option<Candidates<'a>>, AllocError>
    requires { ArePrefixes by_word.now.prefixes.items }
    ensures { IfOk result
        (λ o. (rules : List RuleView) → AreRulesByWord rules by_word.now
        → IfSome o (IncludeCovers rules rule.now)) }
{
    if has_resource(rule) {
        let best = fewest_in(alloc, by_word, rule, Field::Verbs, None)?;
        let best = fewest_in(alloc, by_word, rule, Field::Groups, best)?;
        let best = fewest_in(alloc, by_word, rule, Field::Resources, best)?;
        return fewest_in(alloc, by_word, rule, Field::Names, best);
    }
    if has_url(rule) {
        let best = fewest_in(alloc, by_word, rule, Field::Verbs, None)?;
        return fewest_in(alloc, by_word, rule, Field::Urls, best);
    }
    Ok(None)
}

// The fewest places: `best`, or those for a word in one of the rule's lists.
fn fewest_in<'a>(
    alloc: Global,
    by_word: &'a RulesByWord,
    rule: &'a Rule,
    field: Field,
    best: Option<Candidates<'a>>,
) -> Result<Option<Candidates<'a>>, AllocError>
    requires { ArePrefixes by_word.now.prefixes.items }
    ensures { IfOk result
        (λ o. (rules : List RuleView) → AreRulesByWord rules by_word.now → Binds field rule.now
        → IfSome best.entry (IncludeCovers rules rule.now)
        → IfSome o (IncludeCovers rules rule.now)) }
{
    let mut fewest = best;
    for word in words_in(field, rule, &by_word.star) {
        if is_asked(field, word) {
            let candidates = candidates_for(alloc, by_word, field, word)?;
            fewest = Some(fewer(fewest, candidates));
        }
    }
    Ok(fewest)
}

fn is_asked(field: Field, word: &Word) -> bool
    ensures { IsTrue result → IsAsked field word.now }
{
    match field {
        Field::Resources => is_resource_text(word.as_bytes()),
        Field::Urls => is_path(word.as_bytes()),
        _ => true,
    }
}

// The candidates with fewer places.
fn fewer<'a>(best: Option<Candidates<'a>>, other: Candidates<'a>) -> Candidates<'a>
    ensures { (best.entry ≡ Some result) ⊎ (result ≡ other.entry) }
{
    match best {
        Some(few) => { if few.count <= other.count { few } else { other } }
        None => other,
    }
}

// The places under the words that may match this one.
fn candidates_for<'a>(
    alloc: Global,
    by_word: &'a RulesByWord,
    field: Field,
    word: &Word,
) -> Result<Candidates<'a>, AllocError>
    requires { ArePrefixes by_word.now.prefixes.items }
    ensures { IfOk result
        (λ c. (rules : List RuleView) → AreRulesByWord rules by_word.now
        → FindsEach field by_word.now word.now c) }
{
    match field {
        Field::Urls => starting(alloc, by_word, word),
        _ => matching(alloc, by_word.lists(field), word),
    }
}

// The places under the words that match this text, taken as a resource text: the text itself, `*`
// and `*/SUBRESOURCE`. A verb, a group or a name is matched by fewer words.
fn matching<'a>(
    alloc: Global,
    lists: &'a BTreeMap<Word, Places>,
    word: &Word,
) -> Result<Candidates<'a>, AllocError>
    ensures { IfOk result (AreMatching lists.now word.now) }
{
    let mut candidates = Candidates::new(alloc);
    let every = star_word(alloc)?;
    candidates.add_under(lists, word)?;
    candidates.add_under(lists, &every)?;
    add_of_each(alloc, &mut candidates, lists, word)?;
    Ok(candidates)
}

// Adds the places under `*/SUBRESOURCE`, if the word has a subresource.
fn add_of_each<'a>(
    alloc: Global,
    candidates: &mut Candidates<'a>,
    lists: &'a BTreeMap<Word, Places>,
    word: &Word,
) -> Result<(), AllocError>
    ensures { OnOk result (AddsUnder lists.now (IsOfEach word.now) candidates.old candidates.new) }
{
    let Some((_, subresource)) = cut_at_first(word.as_bytes(), b'/') else {
        return Ok(());
    };
    let mut of_each = Word::from_slice(alloc, b"*/".as_slice())?;
    of_each.push_slice(subresource)?;
    candidates.add_under(lists, &of_each)
}

// The places under a URL word, and under the prefixes that it begins with.
fn starting<'a>(
    alloc: Global,
    by_word: &'a RulesByWord,
    word: &Word,
) -> Result<Candidates<'a>, AllocError>
    requires { ArePrefixes by_word.now.prefixes.items }
    ensures { IfOk result
        (λ c. (rules : List RuleView) → AreRulesByWord rules by_word.now
        → FindsEach Urls by_word.now word.now c) }
{
    let mut candidates = Candidates::new(alloc);
    candidates.add_under(by_word.lists(Field::Urls), word)?;
    let stem = stem_of(word.as_bytes());
    add_prefixes(&mut candidates, by_word.prefixes.as_slice(), stem)?;
    Ok(candidates)
}

// Adds the places of the prefixes that a text begins with, and of few others. The shortest come
// last.
fn add_prefixes<'a>(
    candidates: &mut Candidates<'a>,
    prefixes: &'a [Prefix],
    text: &[u8],
) -> Result<(), AllocError>
    requires { ArePrefixes prefixes.now }
    ensures { OnOk result (AddsPrefixes prefixes.now text.now candidates.old candidates.new) }
{
    let mut next = last_up_to(prefixes, text);
    while let Some(place) = next {
        let prefix = &prefixes[place];
        candidates.add(prefix.places.as_slice())?;
        next = prefix.shorter;
    }
    Ok(())
}
