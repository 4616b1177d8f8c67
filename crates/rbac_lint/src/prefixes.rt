//! The prefixes of a role's URLs: what comes before the stars at the end of a URL. They are in
//! order, and each links to the longest other entry that is a prefix of it. From the last entry
//! that isn't after a text, the links lead to all prefixes of the text. If this entry is the text
//! itself, there are at most as many links as the text has bytes.

ghost use Rattle.std.specs.Prelude.{◌≡◌, ◌<◌, ℕ, length, slice_get, Some, true, ◌↔◌, IfOk, IfSome};
ghost use Rattle.std.specs.Prelude.{OnOk, IsTrue};
ghost use Rattle.std.specs.Ordering.{is_le};
ghost use Rattle.rbac_terms.specs.Text.{text_cmp, BeginsWith};
ghost use Rattle.rbac_lint.specs.declared.prefixes.Prefix.{Prefix as PrefixView};
ghost use Rattle.rbac_lint.specs.Prefixes.{AreEntriesOf, LinksTo, AreLinkedPrefixes, ArePrefixes};
ghost use Rattle.rbac_lint.specs.Prefixes.{PutsPrefix};

use crate::rules_by_word::Places;
use rbac_terms::Word;
use std::alloc::{AllocError, Global};
use std::collections::BTreeMap;

// A prefix and the places of its rules; or a URL that doesn't end in a star, with no places.
#[derive(Drop)]
pub(crate) struct Prefix {
    text: Word,
    pub(crate) places: Places,
    // The place of the longest other entry that is a prefix of this one.
    pub(crate) shorter: Option<usize>,
}

// The prefixes with these places.
pub(crate) fn prefixes_of(
    alloc: Global,
    lists: BTreeMap<Word, Places>,
) -> Result<Vec<Prefix>, AllocError>
    ensures prefixes { IfOk result (λ v. ArePrefixes v.items) }
    ensures entries { IfOk result (λ v. AreEntriesOf lists v.items) }
{
    let mut prefixes = Vec::new(alloc);
    for (text, places) in lists {
        push_prefix(&mut prefixes, text, places)?;
    }
    Ok(prefixes)
}

// Adds the next prefix at the end.
fn push_prefix(prefixes: &mut Vec<Prefix>, text: Word, places: Places) -> Result<(), AllocError>
    requires prefixes { ArePrefixes prefixes.now.items }
    requires next { (i : ℕ) (f : PrefixView) → slice_get prefixes.now.items i ≡ Some f
        → is_le (text_cmp f.text text) ≡ true }
    ensures { OnOk result (PutsPrefix prefixes.old.items prefixes.new.items text places) }
{
    let last = prefixes.len().checked_sub(1);
    let shorter = longest_from(prefixes.as_slice(), last, text.as_bytes());
    prefixes.push(Prefix {
        text,
        places,
        shorter,
    })?;
    Ok(())
}

// The first entry that is a prefix of the text, along the links from this one on.
fn longest_from(prefixes: &[Prefix], from: Option<usize>, text: &[u8]) -> Option<usize>
    requires linked { AreLinkedPrefixes prefixes.now }
    requires leads { LinksTo prefixes.now (length prefixes.now) text.now from }
    requires within { IfSome from (λ i. i < length prefixes.now) }
    ensures leads { LinksTo prefixes.now (length prefixes.now) text.now result }
    ensures within { IfSome result (λ i. i < length prefixes.now) }
{
    let mut next = from;
    while let Some(place) = next {
        let prefix = &prefixes[place];
        if begins_with(text, prefix.text.as_bytes()) {
            return Some(place);
        }
        next = prefix.shorter;
    }
    None
}

fn begins_with(text: &[u8], prefix: &[u8]) -> bool
    ensures { IsTrue result ↔ BeginsWith text.now prefix.now }
{
    text.starts_with(prefix)
}

// The last entry that isn't after the text.
pub(crate) fn last_up_to(prefixes: &[Prefix], text: &[u8]) -> Option<usize>
    requires { ArePrefixes prefixes.now }
    ensures leads { LinksTo prefixes.now (length prefixes.now) text.now result }
    ensures within { IfSome result (λ i. i < length prefixes.now) }
{
    let count = prefixes.partition_point(|prefix| is_up_to(prefix, text));
    count.checked_sub(1)
}

fn is_up_to(prefix: &Prefix, text: &[u8]) -> bool
    ensures { result ≡ is_le (text_cmp prefix.now.text text.now) }
{
    prefix.text.as_bytes().cmp(text).is_le()
}
