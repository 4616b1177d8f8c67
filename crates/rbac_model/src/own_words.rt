//! The URL words of a rule, taken as texts that a request asks for.

ghost use Rattle.std.specs.Prelude.{◌≡◌, ◌↔◌, ◌++◌, IsTrue, Any, MatchOption, codes};
ghost use Rattle.rbac_model.specs.OwnWords.{AllowsUrlWord, GivesPath, IsStars};
ghost use Rattle.rbac_model.specs.OwnWords.{MatchesEachPath};
ghost use Rattle.rbac_terms.specs.Targets.{IsPath};

use rbac_terms::{Rule, Word, is_path, url_matches};

/// Whether a URL word matches some path: the word begins with a slash, or consists of stars (own).
/// Doesn't allocate.
pub fn gives_path(word: &Word) -> bool
    ensures { IsTrue result ↔ GivesPath word.now }
{
    is_path(word.as_bytes()) || is_stars(word.as_bytes())
}

/// Whether the rule allows this URL word, taken as a text, and so every path that the word matches
/// (own). Several stars at the word's end count as one: a rule that allows the word with all of
/// them allows it with one, and the other way round. Doesn't allocate.
pub fn allows_url_word(rule: &Rule, word: &Word) -> bool
    ensures { IsTrue result ↔ AllowsUrlWord rule.now word.now }
{
    if is_stars(word.as_bytes()) {
        allows_each_path(rule)
    } else {
        url_matches(rule, word)
    }
}

// Whether some URL word of the rule matches every path.
fn allows_each_path(rule: &Rule) -> bool
    ensures { IsTrue result ↔ Any MatchesEachPath rule.now.urls }
{
    rule.urls
        .as_slice()
        .iter()
        .any(|word| matches_each_path(word))
}

// Whether the word consists of stars only, or of a slash and then stars only.
fn matches_each_path(word: &Word) -> bool
    ensures { IsTrue result ↔ MatchesEachPath word.now }
{
    match after_slash(word.as_bytes()) {
        Some(rest) => is_stars(rest),
        None => is_stars(word.as_bytes()),
    }
}

// What follows the slash at the start of a path.
fn after_slash(text: &[u8]) -> Option<&[u8]>
    ensures { MatchOption result (¬ IsPath text.now) (λ rest. text.now ≡ codes "/" ++ rest.now) }
{
    text.strip_prefix(b"/".as_slice())
}

fn is_stars(text: &[u8]) -> bool
    ensures { IsTrue result ↔ IsStars text.now }
{
    !text.is_empty() && text.iter().all(|byte| *byte == b'*')
}
