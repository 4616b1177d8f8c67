//! What the texts of a `least` line mean.

ghost use Rattle.std.specs.Prelude.{◌≡◌, ◌++◌, ◌↔◌, ◌⊎◌, IfOk, IsTrue, MatchResult, codes};
ghost use Rattle.std.specs.Prelude.{option_map};
ghost use Rattle.rbac_question.specs.LeastLines.{AcceptsLeast, IsRoleName};
ghost use Rattle.rbac_question.specs.LeastLines.{MayNotBe, MayNotContain, MeansLeast, NamesUser};
ghost use Rattle.rbac_question.specs.LeastLines.{RefusesLeast, name_meant};

use crate::command::Action;
use crate::fault::QuestionFault;
use crate::logs::has_bad_logs;
use crate::path_end::has_name_after;
use crate::who::name_behind;
use rbac_terms::{USER_PREFIX, Word};
use std::alloc::{AllocError, Global};
use std::marker::Model;

/// The parts of a `least` line.
#[derive(Drop)]
pub struct LeastLine<'m, 'a> {
    /// WHO: a user's key, `u:` and its name. WHO is taken as it is, as in other lines.
    pub key: &'a str,
    /// Whether `--names` is given.
    pub names: bool,
    /// The text after `--name`, if it is given.
    pub name: Option<&'a str>,
    /// The name after each `--log`, in order, if it is given.
    pub logs: Option<&'m [&'a str]>,
    /// How many files are given.
    pub files: usize,
}

impl<'m, 'a> Model for LeastLine<'m, 'a> {
    ghost use Rattle.std.specs.Prelude.{map, option_map};
    ghost use Rattle.rbac_question.specs.Lines.{names_in};
    ghost use Rattle.rbac_question.specs.LeastLines.{LeastParts};

    ghost Value = { LeastParts };

    ghost view = { λ l. record {
      key = l.key.now;
      names = l.names;
      name = option_map (λ t. t.now) l.name;
      logs = names_in (option_map (λ names. map (λ n. n.now) names.now) l.logs);
      files = l.files;
    } };
}

// Whether a text is `.` or `..`.
fn is_dots(name: &str) -> bool
    ensures { IsTrue result ↔ ((name.now ≡ codes ".") ⊎ (name.now ≡ codes "..")) }
{
    name == "." || name == ".."
}

// Whether a text is one that no name may be.
fn may_not_be(name: &str) -> bool
    ensures { IsTrue result ↔ MayNotBe name.now }
{
    name.is_empty() || is_dots(name)
}

// Whether a text has a byte that no name may contain.
fn may_not_contain(name: &str) -> bool
    ensures { IsTrue result ↔ MayNotContain name.now }
{
    let bytes = name.as_bytes();
    bytes.contains(&b'/') || bytes.contains(&b'%')
}

// Whether a text can be the name of a role or a binding.
fn is_role_name(name: &str) -> bool
    ensures { IsTrue result ↔ IsRoleName name.now }
{
    !may_not_be(name) && !may_not_contain(name)
}

// The name of the roles and bindings: the one after `--name`, or `least` without it.
fn name_from<'a>(given: Option<&'a str>) -> &'a str
    ensures { result.now ≡ name_meant (option_map (λ t. t.now) given.entry) }
{
    given.unwrap_or("least")
}

// Refuses a `least` line: U5 if WHO names no user; otherwise U11 if it would read standard input
// more than once; otherwise U12 if the name after `--name` can't be a role's.
fn check_least(line: &LeastLine<'_, '_>) -> Result<(), QuestionFault>
    ensures answer { MatchResult result (λ _. AcceptsLeast line.now) (RefusesLeast line.now) }
    ensures unnamed { (¬ NamesUser line.now.key) → result ≡ Err QuestionFault.BadPrincipal }
    ensures read_twice { RefusesLeast line.now QuestionFault.BadLogs
        → result ≡ Err QuestionFault.BadLogs }
    ensures misnamed { RefusesLeast line.now QuestionFault.BadRoleName
        → result ≡ Err QuestionFault.BadRoleName }
{
    if !has_name_after(USER_PREFIX, line.key) {
        return Err(QuestionFault::BadPrincipal);
    }
    if has_bad_logs(line.logs, line.files) {
        return Err(QuestionFault::BadLogs);
    }
    if !is_role_name(name_from(line.name)) {
        return Err(QuestionFault::BadRoleName);
    }
    Ok(())
}

// The user that WHO names.
fn user_from(alloc: Global, key: &str) -> Result<Word, AllocError>
    requires { NamesUser key.now }
    ensures { IfOk result (λ user. key.now ≡ codes "u:" ++ user) }
{
    match name_behind(USER_PREFIX, key) {
        Some(user) => Word::from_slice(alloc, user),
        None => unreachable!(),
    }
}

// What an accepted `least` line means.
fn least_from(alloc: Global, line: &LeastLine<'_, '_>) -> Result<Action, QuestionFault>
    requires { AcceptsLeast line.now }
    ensures { MatchResult result (MeansLeast line.now) (λ e. e ≡ QuestionFault.NoMemory) }
{
    Ok(Action::Least {
        user: user_from(alloc, line.key)?,
        names: line.names,
        name: Word::from_slice(alloc, name_from(line.name).as_bytes())?,
    })
}

impl Action {
    /// What a `least` line means.
    ///
    /// U5 if WHO isn't `u:` with a name behind it: `least` takes no group. Otherwise U11 if the
    /// line would read standard input more than once, as for an `unused` line. Otherwise U12 if
    /// the text after `--name` can't be the name of a role or a binding. Nothing is allocated
    /// before these refusals; memory may run out after them.
    pub fn least(alloc: Global, line: &LeastLine<'_, '_>) -> Result<Self, QuestionFault>
        ensures answer { MatchResult result
            (λ action. AcceptsLeast line.now × MeansLeast line.now action)
            (RefusesLeast line.now) }
        ensures unnamed { (¬ NamesUser line.now.key) → result ≡ Err QuestionFault.BadPrincipal }
        ensures read_twice { RefusesLeast line.now QuestionFault.BadLogs
            → result ≡ Err QuestionFault.BadLogs }
        ensures misnamed { RefusesLeast line.now QuestionFault.BadRoleName
            → result ≡ Err QuestionFault.BadRoleName }
    {
        check_least(line)?;
        least_from(alloc, line)
    }
}
