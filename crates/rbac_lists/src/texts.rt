//! Copies of texts, and which texts are a verb, a resource or a path.

ghost use Rattle.std.specs.Prelude.{◌≡◌, ◌++◌, OnOk, IfOk};
ghost use Rattle.rbac_lists.specs.Derived.{is_verb, has_star, ends_in_star, is_plain_resource};
ghost use Rattle.rbac_lists.specs.Derived.{is_path_word};

use rbac_terms::{Word, is_path};
use std::alloc::{AllocError, Global};

// A copy of the text. This contract is about the bytes alone; that of a derived clone is about the
// parts of a word.
pub(crate) fn copy_of(alloc: Global, word: &Word) -> Result<Word, AllocError>
    ensures { IfOk result (λ copy. copy ≡ word.now) }
{
    Word::from_slice(alloc, word.as_bytes())
}

// Adds copies of these texts.
pub(crate) fn put_words(
    alloc: Global,
    words: &[Word],
    list: &mut Vec<Word>,
) -> Result<(), AllocError>
    ensures { OnOk result (list.new.items ≡ list.old.items ++ words.now) }
{
    for word in words {
        list.push(copy_of(alloc, word)?)?;
    }
    Ok(())
}

// Whether a verb isn't `*`.
pub(crate) fn is_verb(verb: &Word) -> bool
    ensures { result ≡ is_verb verb.now }
{
    verb.as_bytes() != b"*".as_slice()
}

pub(crate) fn has_star(word: &Word) -> bool
    ensures { result ≡ has_star word.now }
{
    word.as_bytes().iter().any(|byte| *byte == b'*')
}

fn ends_in_star(word: &Word) -> bool
    ensures { result ≡ ends_in_star word.now }
{
    word.as_bytes().ends_with(b"*".as_slice())
}

// Whether a resource word of a rule names one resource.
pub(crate) fn is_plain_resource(word: &Word) -> bool
    ensures { result ≡ is_plain_resource word.now }
{
    !word.is_empty() && !is_path(word.as_bytes()) && !has_star(word)
}

// Whether a URL word of a rule names one URL.
pub(crate) fn is_path_word(word: &Word) -> bool
    ensures { result ≡ is_path_word word.now }
{
    is_path(word.as_bytes()) && !ends_in_star(word)
}
