//! The prefixes of a rule's URL words: the part of a word before the stars at its end.

ghost use Rattle.std.specs.Prelude.{◌≡◌, ◌↔◌, Any, IfOk, IsTrue, OnOk, nat_eq};
ghost use Rattle.std.specs.List.{starts_with};
ghost use Rattle.rbac_terms.specs.Text.{BeginsWith};
ghost use Rattle.rbac_terms.specs.Matching.{IsBeforeStars};
ghost use Rattle.rbac_reaches.specs.Wildcards.{AddsPart, AreApart, ArePartsOf, AreUrlPrefixes};

use rbac_terms::{Word, before_stars};
use std::alloc::{AllocError, Global};

// The prefixes of the words that end in stars, in byte order. A prefix that begins with another one
// is left out, because a path that begins with the longer one begins with the shorter one too.
pub(crate) fn url_prefixes_of(alloc: Global, words: &[Word]) -> Result<Vec<Word>, AllocError>
    ensures { IfOk result (λ v. AreUrlPrefixes words.now v.items) }
{
    let mut prefixes = all_prefixes_of(alloc, words)?;
    prefixes.sort_unstable();
    prefixes.dedup_by(|longer, shorter| starts_with(longer, shorter));
    Ok(prefixes)
}

// The prefixes of the words that end in stars, in the order of the words.
fn all_prefixes_of(alloc: Global, words: &[Word]) -> Result<Vec<Word>, AllocError>
    ensures { IfOk result (λ v. ArePartsOf IsBeforeStars words.now v.items) }
{
    let mut prefixes = Vec::new(alloc);
    for word in words {
        push_prefix(alloc, &mut prefixes, word)?;
    }
    Ok(prefixes)
}

// Adds the prefix of a word that ends in stars; adds nothing for any other word.
fn push_prefix(alloc: Global, prefixes: &mut Vec<Word>, word: &Word) -> Result<(), AllocError>
    ensures { OnOk result
        (AddsPart IsBeforeStars word.now prefixes.old.items prefixes.new.items) }
{
    let Some(prefix) = before_stars(word.as_bytes()) else {
        return Ok(());
    };
    prefixes.push(Word::from_slice(alloc, prefix)?)?;
    Ok(())
}

fn starts_with(text: &Word, prefix: &Word) -> bool
    ensures { result ≡ starts_with nat_eq text.now prefix.now }
{
    text.as_bytes().starts_with(prefix.as_bytes())
}

// Whether the path begins with one of these prefixes. If it does, it begins with the last one that
// doesn't come after the path.
pub(crate) fn begins_with_some(prefixes: &[Word], path: &Word) -> bool
    requires { AreApart prefixes.now }
    ensures { IsTrue result ↔ Any (BeginsWith path.now) prefixes.now }
{
    let count = prefixes.partition_point(|prefix| prefix <= path);
    match count.checked_sub(1) {
        Some(last) => starts_with(path, &prefixes[last]),
        None => false,
    }
}
