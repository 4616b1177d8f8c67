//! Rules that by themselves name more resources than a universe may have targets: they are found by
//! counting words, before any resource is listed.

ghost use Rattle.std.specs.Prelude.{◌≡◌, ◌*◌, ◌∷◌, [], IfOk};
ghost use Rattle.std.specs.List.{list_any};
ghost use Rattle.std.specs.Set.{distinct_count};
ghost use Rattle.std.specs.Str.{bytes_eq};
ghost use Rattle.rbac_lists.specs.Derived.{source_rules, is_plain_resource};
ghost use Rattle.rbac_lists.specs.Wide.{different, is_plain_group, is_wide};

use crate::naming::{Naming, put_named};
use crate::texts::{has_star, is_plain_resource, put_words};
use rbac_model::Objects;
use rbac_terms::{Rule, Word};
use std::alloc::{AllocError, Global};

// How many targets a universe may have.
const MOST_TARGETS: u128 = 1_000_000;

// Whether a rule of a role or of a plain cluster role is wide.
pub(crate) fn has_wide_source(alloc: Global, objects: &Objects) -> Result<bool, AllocError>
    ensures { IfOk result (λ wide. wide ≡ list_any is_wide (source_rules objects.now)) }
{
    let mut widths = Vec::new(alloc);
    put_named::<Widths>(alloc, objects, &mut widths)?;
    Ok(has_true(widths.as_slice()))
}

fn has_true(flags: &[bool]) -> bool
    ensures { result ≡ list_any (λ flag. flag) flags.now }
{
    flags.iter().any(|flag| *flag)
}

/// For each rule, whether it is wide.
struct Widths;

impl Naming for Widths {
    ghost use Rattle.std.specs.Prelude.{◌∷◌, []};
    ghost use Rattle.rbac_lists.specs.Wide.{is_wide};

    type Item = bool;

    ghost named = { λ r. is_wide r ∷ [] };

    fn put(alloc: Global, rule: &Rule, list: &mut Vec<bool>) -> Result<(), AllocError> {
        list.push(is_wide(alloc, rule)?)?;
        Ok(())
    }
}

// Whether the rule is wide. Its words are sorted only if they might be enough.
fn is_wide(alloc: Global, rule: &Rule) -> Result<bool, AllocError>
    ensures { IfOk result (λ wide. wide ≡ is_wide rule.now) }
{
    let groups = rule.groups.as_slice();
    let words = rule.resources.as_slice();
    if product(groups.len(), words.len()) <= MOST_TARGETS {
        return Ok(false);
    }
    let groups = count_groups(alloc, groups)?;
    let words = count_resources(alloc, words)?;
    Ok(product(groups, words) > MOST_TARGETS)
}

fn product(a: usize, b: usize) -> u128
    ensures { result ≡ a * b }
{
    a as u128 * b as u128
}

// How many of these groups are different, without those that contain a `*`.
fn count_groups(alloc: Global, words: &[Word]) -> Result<usize, AllocError>
    ensures { IfOk result (λ n. n ≡ different is_plain_group words.now) }
{
    let mut groups = Vec::new(alloc);
    put_words(alloc, words, &mut groups)?;
    groups.retain(|group| !has_star(group));
    count(groups)
}

// How many of these resource words that name one resource are different.
fn count_resources(alloc: Global, words: &[Word]) -> Result<usize, AllocError>
    ensures { IfOk result (λ n. n ≡ different is_plain_resource words.now) }
{
    let mut resources = Vec::new(alloc);
    put_words(alloc, words, &mut resources)?;
    resources.retain(|word| is_plain_resource(word));
    count(resources)
}

// How many of these texts are different.
fn count(mut words: Vec<Word>) -> Result<usize, AllocError>
    ensures { IfOk result (λ n. n ≡ distinct_count bytes_eq words.items) }
{
    words.sort()?;
    words.dedup();
    Ok(words.as_slice().len())
}
