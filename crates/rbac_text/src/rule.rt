//! Rules, and lines of the rules that somebody has.

ghost use Rattle.std.specs.Prelude.{◌≡◌, ◌++◌, ◌∷◌, [], OnOk, IsTrue, ◌↔◌, Contains, map};
ghost use Rattle.std.specs.List.{flat_map, join_with_byte};
ghost use Rattle.rbac_model.specs.Sources.{grant_of};
ghost use Rattle.rbac_text.specs.Field.{byte_text};
ghost use Rattle.rbac_text.specs.Rule.{comma, without_comma, item_text, list_text, list_and_tab};
ghost use Rattle.rbac_text.specs.Rule.{rule_text, grant_text};

use crate::field::{put_byte, put_code, put_field};
use crate::why::{put_reason, put_tab};
use rbac_model::Grant;
use rbac_terms::{Rule, Word, Words};
use std::alloc::AllocError;

// The separator of the words of a list.
const COMMA: u8 = b',';

/// Adds a rule (own): its verbs, API groups, resources, object names and URLs, as five fields
/// joined by tabs, each as [`put_list`] has it. If it runs out of memory, a prefix may have been
/// added.
pub fn put_rule(line: &mut Vec<u8>, rule: &Rule) -> Result<(), AllocError>
    ensures { OnOk result (line.new.items ≡ line.old.items ++ rule_text rule.now) }
{
    put_list_and_tab(line, &rule.verbs)?;
    put_list_and_tab(line, &rule.groups)?;
    put_list_and_tab(line, &rule.resources)?;
    put_list_and_tab(line, &rule.resource_names)?;
    put_list(line, &rule.urls)
}

/// Adds the line of a rule that a grant gives through the subject at this place, counted from 0
/// (own): the fields of `put_why`, and the rule, joined by tabs, with a newline at the end. If it
/// runs out of memory, a prefix of the line may have been added.
pub fn put_grant(
    line: &mut Vec<u8>,
    grant: Grant<'_>,
    subject_place: usize,
) -> Result<(), AllocError>
    ensures { OnOk result
        (line.new.items ≡ line.old.items ++ grant_text (grant_of grant.entry) subject_place) }
{
    put_reason(
        line,
        grant.binding,
        grant.source,
        grant.place,
        subject_place,
    )?;
    put_tab(line)?;
    put_rule(line, grant.rule)?;
    line.push(b'\n')?;
    Ok(())
}

fn put_list_and_tab(line: &mut Vec<u8>, words: &Words) -> Result<(), AllocError>
    ensures { OnOk result (line.new.items ≡ line.old.items ++ list_and_tab words.now) }
{
    put_list(line, words)?;
    put_tab(line)
}

/// Adds a list of words as one field (own): `[`, the words joined by commas, and `]`; each word as
/// a field, with commas as `\x2c`. If it runs out of memory, a prefix may have been added.
pub fn put_list(line: &mut Vec<u8>, words: &Words) -> Result<(), AllocError>
    ensures { OnOk result (line.new.items ≡ line.old.items ++ list_text words.now) }
{
    line.push(b'[')?;
    put_words(line, words.as_slice())?;
    line.push(b']')?;
    Ok(())
}

// Adds words, joined by commas.
fn put_words(line: &mut Vec<u8>, words: &[Word]) -> Result<(), AllocError>
    ensures { OnOk result
        (line.new.items ≡ line.old.items ++ join_with_byte comma (map item_text words.now)) }
{
    match words.split_first() {
        Some((first, others)) => {
            put_item(line, first)?;
            put_others(line, others)
        }
        None => Ok(()),
    }
}

// Adds words, each after a comma.
fn put_others(line: &mut Vec<u8>, words: &[Word]) -> Result<(), AllocError>
    ensures { OnOk result
        (line.new.items ≡ line.old.items ++ flat_map (λ w. comma ∷ item_text w) words.now) }
{
    for word in words {
        line.push(COMMA)?;
        put_item(line, word)?;
    }
    Ok(())
}

// Adds a word of a list.
fn put_item(line: &mut Vec<u8>, word: &Word) -> Result<(), AllocError>
    ensures { OnOk result (line.new.items ≡ line.old.items ++ item_text word.now) }
{
    let text = word.as_bytes();
    // Almost no word has a comma.
    if has_comma(text) {
        put_escaped(line, text)
    } else {
        put_field(line, text)
    }
}

fn has_comma(text: &[u8]) -> bool
    ensures { IsTrue result ↔ Contains text.now comma }
{
    text.contains(&COMMA)
}

// Adds a text byte by byte, each comma by its code.
fn put_escaped(line: &mut Vec<u8>, text: &[u8]) -> Result<(), AllocError>
    ensures { OnOk result (line.new.items ≡ line.old.items
        ++ flat_map without_comma (flat_map byte_text text.now)) }
{
    for byte in text {
        put_escaped_byte(line, *byte)?;
    }
    Ok(())
}

fn put_escaped_byte(line: &mut Vec<u8>, byte: u8) -> Result<(), AllocError>
    ensures { OnOk result
        (line.new.items ≡ line.old.items ++ flat_map without_comma (byte_text byte)) }
{
    if byte == COMMA {
        put_code(line, byte)
    } else {
        put_byte(line, byte)
    }
}
