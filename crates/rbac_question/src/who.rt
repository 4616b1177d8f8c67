//! The parts of a line that name a principal.

ghost use Rattle.std.specs.Prelude.{◌≡◌, ◌≢◌, ◌++◌, ◌∷◌, ◌↔◌, [], All, true, filter};
ghost use Rattle.std.specs.Prelude.{IfOk, OnOk, MatchOption, MatchResult, map, option_map};
ghost use Rattle.rbac_terms.specs.Text.{Text};
ghost use Rattle.rbac_terms.specs.Principals.{AsUser, AsMember};
ghost use Rattle.rbac_question.specs.Lines.{groups_given, is_not_empty, names_in};
ghost use Rattle.rbac_question.specs.Lines.{NamesPrincipal, HasBadPrincipal, RefusesWho};

use crate::fault::QuestionFault;
use rbac_terms::{MEMBER_PREFIX, ModelFault, Principal, USER_PREFIX, Word, Words};
use std::alloc::{AllocError, Global};
use std::marker::Model;

/// The parts of a line that name a principal; the text of an option that isn't given is empty.
#[derive(Drop)]
pub struct WhoLine<'m, 'a> {
    /// WHO: a principal's key, `u:` and a user's name or `g:` and a group's. WHO is taken as it is,
    /// like the name after `--as`: a backslash is a backslash, although output prints it as `\\`.
    pub key: &'a str,
    /// The names after `--groups`, not yet split.
    pub groups: &'a str,
    /// The name after each `--group`, in order; `None` if the option isn't given.
    pub whole_groups: Option<&'m [&'a str]>,
}

impl<'m, 'a> Model for WhoLine<'m, 'a> {
    ghost use Rattle.std.specs.Prelude.{map, option_map};
    ghost use Rattle.rbac_question.specs.Lines.{names_in, WhoParts};

    ghost Value = { WhoParts };

    ghost view = { λ l. record {
      key = l.key.now;
      groups = l.groups.now;
      whole_groups = names_in (option_map (λ names. map (λ n. n.now) names.now) l.whole_groups);
    } };
}

// The groups that `--groups` and `--group` give: the parts of `--groups` between commas, and then
// each `--group` whole, in order. Empty ones are dropped (own).
fn groups_from(alloc: Global, text: &str, whole: Option<&[&str]>) -> Result<Words, AllocError>
    ensures { IfOk result (λ groups. groups ≡ groups_given text.now
        (names_in (option_map (λ names. map (λ n. n.now) names.now) whole.entry))) }
{
    let mut groups = Vec::new(alloc);
    for part in text.split(',') {
        push_group(alloc, part, &mut groups)?;
    }
    if let Some(names) = whole {
        push_groups(alloc, names, &mut groups)?;
    }
    Ok(Words::from_vec(groups))
}

// Adds the groups whose names aren't empty, in order.
fn push_groups(alloc: Global, names: &[&str], groups: &mut Vec<Word>) -> Result<(), AllocError>
    ensures { OnOk result (groups.new.items
        ≡ groups.old.items ++ filter is_not_empty (map (λ n. n.now) names.now)) }
{
    for name in names {
        push_group(alloc, name, groups)?;
    }
    Ok(())
}

// Adds a group, if its name isn't empty.
fn push_group(alloc: Global, name: &str, groups: &mut Vec<Word>) -> Result<(), AllocError>
    ensures { OnOk result
        (groups.new.items ≡ groups.old.items ++ filter is_not_empty (name.now ∷ [])) }
{
    if !name.is_empty() {
        groups.push(Word::from_slice(alloc, name.as_bytes())?)?;
    }
    Ok(())
}

// The user of this name, with the groups given.
pub(crate) fn principal_from(
    alloc: Global,
    user: &[u8],
    groups: &str,
    whole_groups: Option<&[&str]>,
) -> Result<Principal, QuestionFault>
    requires { user.now ≢ [] }
    ensures { MatchResult result
        (λ principal. principal ≡ AsUser user.now (groups_given groups.now
        (names_in (option_map (λ names. map (λ n. n.now) names.now) whole_groups.entry))))
        (λ e. e ≡ QuestionFault.NoMemory) }
{
    let name = Word::from_slice(alloc, user)?;
    let given = groups_from(alloc, groups, whole_groups)?;
    user_from(alloc, &name, &given)
}

// A user with these groups.
fn user_from(alloc: Global, name: &Word, groups: &Words) -> Result<Principal, QuestionFault>
    requires { name.now ≢ [] }
    ensures { MatchResult result
        (λ principal. principal ≡ AsUser name.now groups.now)
        (λ e. e ≡ QuestionFault.NoMemory) }
{
    match Principal::user(alloc, name, groups) {
        Ok(principal) => Ok(principal),
        Err(ModelFault::NoMemory) => Err(QuestionFault::NoMemory),
        Err(ModelFault::EmptyName | ModelFault::BadTarget) => unreachable!(),
    }
}

// A member of this group.
fn member_from(alloc: Global, group: &[u8]) -> Result<Principal, QuestionFault>
    requires { group.now ≢ [] }
    ensures { MatchResult result
        (λ principal. principal ≡ AsMember group.now)
        (λ e. e ≡ QuestionFault.NoMemory) }
{
    let name = Word::from_slice(alloc, group)?;
    match Principal::group(alloc, &name) {
        Ok(principal) => Ok(principal),
        Err(ModelFault::NoMemory) => Err(QuestionFault::NoMemory),
        Err(ModelFault::EmptyName | ModelFault::BadTarget) => unreachable!(),
    }
}

/// The name behind the mark of a principal's key; `None` if the key has another mark or no name.
pub(crate) fn name_behind<'a>(mark: &[u8], key: &'a str) -> Option<&'a [u8]>
    ensures { MatchOption result
        ((name : Text) → key.now ≡ mark.now ++ name → name ≡ [])
        (λ name. (key.now ≡ mark.now ++ name.now) × (name.now ≢ [])) }
{
    let name = key.as_bytes().strip_prefix(mark)?;
    if name.is_empty() {
        return None;
    }
    Some(name)
}

// Whether all of these names are empty.
fn are_empty(names: &[&str]) -> bool
    ensures { (result ≡ true) ↔ All (λ name. name.now ≡ []) names.now }
{
    names.iter().all(|name| name.is_empty())
}

// Whether an option that may be repeated gives no name, or only empty ones.
fn names_none(names: Option<&[&str]>) -> bool
    ensures { (result ≡ true) ↔ All (λ name. name ≡ [])
        (names_in (option_map (λ names. map (λ n. n.now) names.now) names.entry)) }
{
    match names {
        Some(names) => are_empty(names),
        None => true,
    }
}

// Whether no groups are given: each `--groups` and `--group` is empty or missing.
fn lacks_groups(who: &WhoLine<'_, '_>) -> bool
    ensures { (result ≡ true)
        ↔ ((who.now.groups ≡ []) × All (λ whole. whole ≡ []) who.now.whole_groups) }
{
    who.groups.is_empty() && names_none(who.whole_groups)
}

// The principal that WHO, `--groups` and `--group` name: U5 if they name none.
pub(crate) fn principal_of(alloc: Global, who: &WhoLine<'_, '_>) -> Result<Principal, QuestionFault>
    ensures answer { MatchResult result (NamesPrincipal who.now) (RefusesWho who.now) }
    ensures unnamed { HasBadPrincipal who.now → result ≡ Err QuestionFault.BadPrincipal }
{
    if let Some(user) = name_behind(USER_PREFIX, who.key) {
        return principal_from(alloc, user, who.groups, who.whole_groups);
    }
    match name_behind(MEMBER_PREFIX, who.key) {
        Some(group) if lacks_groups(who) => member_from(alloc, group),
        _ => Err(QuestionFault::BadPrincipal),
    }
}

// Refuses parts that name no principal: U5.
pub(crate) fn check_who(who: &WhoLine<'_, '_>) -> Result<(), QuestionFault>
    ensures answer { MatchResult result (λ _. ¬ HasBadPrincipal who.now)
        (λ e. (e ≡ QuestionFault.BadPrincipal) × HasBadPrincipal who.now) }
{
    let is_user = name_behind(USER_PREFIX, who.key).is_some();
    let is_member = name_behind(MEMBER_PREFIX, who.key).is_some() && lacks_groups(who);
    if is_user || is_member {
        return Ok(());
    }
    Err(QuestionFault::BadPrincipal)
}
