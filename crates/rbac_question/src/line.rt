//! What the texts of a line mean.

ghost use Rattle.std.specs.Prelude.{◌≡◌, ◌≢◌, ◌⊎◌, ◌↔◌, All, Some, true};
ghost use Rattle.std.specs.Prelude.{IfOk, IfErr, MatchOption, MatchResult, map, option_map};
ghost use Rattle.rbac_token.specs.Marks.{IsTokenOfMark};
ghost use Rattle.rbac_question.specs.Lines.{namespace_meant, IsQuestion, MeansCanI};
ghost use Rattle.rbac_question.specs.Lines.{MeansMatrix, LacksWord, AcceptsQuestion};
ghost use Rattle.rbac_question.specs.Lines.{RefusesQuestion, AcceptsCanI, RefusesCanI};
ghost use Rattle.rbac_question.specs.Lines.{RefusesMatrix, HasBadToken, MeansRules};
ghost use Rattle.rbac_question.specs.Lines.{RefusesRules, HasBadPrincipal};
ghost use Rattle.rbac_question.specs.Lines.{scope_meant, parts_between, comma, IsCode, code_word};
ghost use Rattle.rbac_question.specs.Lines.{IsCodeWord, AreCodesIn, HasBadCode, MeansLint};
ghost use Rattle.rbac_question.specs.Lines.{RefusesLint, MeansDiff, RefusesDiff};

use crate::asked::{Asked, check_target};
use crate::command::{Action, Change, MatrixOptions, Question, VerdictOptions};
use crate::fault::QuestionFault;
use crate::who::{WhoLine, principal_from, principal_of};
use rbac_terms::{Scope, Word};
use rbac_token::{Mark, mark_of_token};
use std::alloc::{AllocError, Global};
use std::marker::Model;

/// The parts of a line that ask a question, apart from who asks it; the text of an option that
/// isn't given is empty.
#[derive(Drop)]
pub struct QuestionLine<'a> {
    /// Whether `-A` is given.
    pub all_namespaces: bool,
    /// Whether `--in-namespace` is given.
    pub in_namespace: bool,
    /// The name after `-n`.
    pub namespace: &'a str,
    /// The name after `--subresource`.
    pub subresource: &'a str,
    /// VERB.
    pub verb: &'a str,
    /// TARGET.
    pub target: &'a str,
}

impl<'a> Model for QuestionLine<'a> {
    ghost use Rattle.rbac_question.specs.Lines.{QuestionParts};

    ghost Value = { QuestionParts };

    ghost view = { λ l. record {
      all_namespaces = l.all_namespaces;
      in_namespace = l.in_namespace;
      namespace = l.namespace.now;
      subresource = l.subresource.now;
      verb = l.verb.now;
      target = l.target.now;
    } };
}

/// The parts of a `can-i` line; the text of an option that isn't given is empty.
#[derive(Drop)]
pub struct CanILine<'m, 'a> {
    /// The name after `--as`.
    pub user: &'a str,
    /// The names after `--groups`, not yet split.
    pub groups: &'a str,
    /// The name after each `--group`, in order, if it is given.
    pub whole_groups: Option<&'m [&'a str]>,
    /// Which of `-q`, `--why` and `--why-not` are given.
    pub options: VerdictOptions,
    /// The parts that ask the question.
    pub question: QuestionLine<'a>,
}

impl<'m, 'a> Model for CanILine<'m, 'a> {
    ghost use Rattle.std.specs.Prelude.{map, option_map};
    ghost use Rattle.rbac_question.specs.Lines.{names_in};
    ghost use Rattle.rbac_question.specs.Lines.{CanIParts};

    ghost Value = { CanIParts };

    ghost view = { λ l. record {
      user = l.user.now;
      groups = l.groups.now;
      whole_groups = names_in (option_map (λ names. map (λ n. n.now) names.now) l.whole_groups);
      options = l.options;
      question = l.question;
    } };
}

/// The parts of a `rules` line; the text of an option that isn't given is empty.
#[derive(Drop)]
pub struct RulesLine<'m, 'a> {
    /// The parts that name the principal asked about.
    pub who: WhoLine<'m, 'a>,
    /// The name after `-n`.
    pub namespace: &'a str,
    /// Whether `-A` is given.
    pub all_namespaces: bool,
}

impl<'m, 'a> Model for RulesLine<'m, 'a> {
    ghost use Rattle.rbac_question.specs.Lines.{RulesParts};

    ghost Value = { RulesParts };

    ghost view = { λ l. record {
      who = l.who;
      namespace = l.namespace.now;
      all_namespaces = l.all_namespaces;
    } };
}

/// The parts of a `matrix` line.
#[derive(Drop)]
pub struct MatrixLine<'a> {
    /// Which of `--every` and `--once` are given.
    pub options: MatrixOptions,
    /// The token after `--after`.
    pub after: Option<&'a str>,
    /// The number after `--limit`.
    pub limit: Option<u32>,
}

impl<'a> Model for MatrixLine<'a> {
    ghost use Rattle.std.specs.Prelude.{option_map};
    ghost use Rattle.rbac_question.specs.Lines.{MatrixParts};

    ghost Value = { MatrixParts };

    ghost view = { λ l. record {
      options = l.options;
      after = option_map (λ t. t.now) l.after;
      limit = l.limit;
    } };
}

/// The parts of a `lint` line.
#[derive(Drop)]
pub struct LintLine<'a> {
    /// The codes after `--only`, not yet split.
    pub only: Option<&'a str>,
    /// Whether `--skip-system` is given.
    pub skip_system: bool,
}

impl<'a> Model for LintLine<'a> {
    ghost use Rattle.std.specs.Prelude.{option_map};
    ghost use Rattle.rbac_question.specs.Lines.{LintParts};

    ghost Value = { LintParts };

    ghost view = { λ l. record {
      only = option_map (λ t. t.now) l.only;
      skip_system = l.skip_system;
    } };
}

/// The parts of a `diff` line: how many files each of its options gives.
#[derive(Drop, Clone, Copy)]
pub struct DiffLine {
    /// How many files `--before` gives.
    pub before_files: usize,
    /// How many files `--after` gives.
    pub after_files: usize,
    /// How many files `--without` gives.
    pub without_files: usize,
    /// How many files `--with` gives.
    pub with_files: usize,
}

// The namespace that `-A` and `-n` mean (own): with `-A` the empty one, otherwise the one given, or
// `default` if none is given.
fn namespace_from(alloc: Global, all: bool, given: &str) -> Result<Word, AllocError>
    ensures { IfOk result (λ namespace. namespace ≡ namespace_meant all given.now) }
{
    if all {
        return Ok(Word::new(alloc));
    }
    if given.is_empty() {
        return Word::from_slice(alloc, b"default".as_slice());
    }
    Word::from_slice(alloc, given.as_bytes())
}

// Where `-A` and `-n` ask for rules (own): with `-A` in all of the cluster at once, otherwise in
// the namespace given, or anywhere if none is given.
fn scope_from(alloc: Global, all: bool, given: &str) -> Result<Scope, AllocError>
    ensures { IfOk result (λ scope. scope ≡ scope_meant all given.now) }
{
    if all {
        return Ok(Scope::ClusterWide);
    }
    if given.is_empty() {
        return Ok(Scope::Anywhere);
    }
    Ok(Scope::Namespace(Word::from_slice(alloc, given.as_bytes())?))
}

// The mark whose token this is: U4 if it is the token of none.
fn mark_after(alloc: Global, token: &str) -> Result<Mark, QuestionFault>
    ensures mark { IfOk result (IsTokenOfMark token.now) }
    ensures refused { IfErr result (λ e. (e ≡ QuestionFault.NoMemory)
        ⊎ ((e ≡ QuestionFault.BadToken) × HasBadToken (Some token.now))) }
{
    let token = Word::from_slice(alloc, token.as_bytes())?;
    Ok(mark_of_token(alloc, &token)?)
}

// The number of the code that this word spells, or `None`.
#[tactic(auto, unfolding(crate::specs::Lines::IsCodeWord))]
fn code_of(word: &str) -> Option<u8>
    ensures { MatchOption result (¬ IsCodeWord word.now)
        (λ number. IsCode number × (word.now ≡ code_word number)) }
{
    match word.as_bytes() {
        [b'L', digit @ b'1'..=b'7'] => Some(*digit - b'0'),
        _ => None,
    }
}

// Whether a text is the word of a code.
#[tactic(auto, unfolding(crate::specs::Lines::IsCodeWord))]
fn is_code_word(text: &str) -> bool
    ensures { (result ≡ true) ↔ IsCodeWord text.now }
{
    code_of(text).is_some()
}

// Whether each part between commas is the word of a code.
fn are_code_words(text: &str) -> bool
    ensures { (result ≡ true) ↔ All IsCodeWord (parts_between comma text.now) }
{
    text.split(',').all(|part| is_code_word(part))
}

// The codes that a text lists between commas, in order.
fn codes_between(alloc: Global, text: &str) -> Result<Vec<u8>, AllocError>
    requires { All IsCodeWord (parts_between comma text.now) }
    ensures { IfOk result (λ numbers. AreCodesIn text.now numbers.items) }
{
    let mut numbers = Vec::new(alloc);
    for part in text.split(',') {
        match code_of(part) {
            Some(number) => numbers.push(number)?,
            None => unreachable!(),
        }
    }
    Ok(numbers)
}

// The codes that `--only` lists, in order: U6 if a part between commas isn't the word of a code.
fn codes_of(alloc: Global, text: &str) -> Result<Vec<u8>, QuestionFault>
    ensures answer { MatchResult result (λ numbers. AreCodesIn text.now numbers.items)
        (λ e. (e ≡ QuestionFault.NoMemory)
        ⊎ ((e ≡ QuestionFault.BadCode) × HasBadCode (Some text.now))) }
    ensures miscoded { HasBadCode (Some text.now) → result ≡ Err QuestionFault.BadCode }
{
    if !are_code_words(text) {
        return Err(QuestionFault::BadCode);
    }
    Ok(codes_between(alloc, text)?)
}

// Why a question is refused: U2 if VERB or TARGET is empty, or TARGET begins with `.`; otherwise U3
// if a URL has a subresource.
pub(crate) fn check_question(line: &QuestionLine<'_>) -> Result<(), QuestionFault>
    ensures answer { MatchResult result (λ _. AcceptsQuestion line.now) (RefusesQuestion line.now) }
    ensures lacking { LacksWord line.now → result ≡ Err QuestionFault.EmptyWord }
    ensures located { RefusesQuestion line.now QuestionFault.UrlSubresource
        → result ≡ Err QuestionFault.UrlSubresource }
    ensures unallocated { IfErr result (λ e. e ≢ QuestionFault.NoMemory) }
{
    if line.verb.is_empty() {
        return Err(QuestionFault::EmptyWord);
    }
    check_target(line.target, line.subresource)
}

// Why a `can-i` line is refused: U2 if USER is empty, otherwise U2 or U3 for its question.
fn check_can_i(line: &CanILine<'_, '_>) -> Result<(), QuestionFault>
    ensures answer { MatchResult result (λ _. AcceptsCanI line.now) (RefusesCanI line.now) }
    ensures lacking { RefusesCanI line.now QuestionFault.EmptyWord
        → result ≡ Err QuestionFault.EmptyWord }
    ensures located { RefusesCanI line.now QuestionFault.UrlSubresource
        → result ≡ Err QuestionFault.UrlSubresource }
{
    if line.user.is_empty() {
        return Err(QuestionFault::EmptyWord);
    }
    check_question(&line.question)
}

// The question that a line asks, apart from who asks it.
pub(crate) fn question_of(alloc: Global, line: &QuestionLine<'_>) -> Result<Question, AllocError>
    requires { AcceptsQuestion line.now }
    ensures { IfOk result (IsQuestion line.now) }
{
    Ok(Question {
        namespace: namespace_from(alloc, line.all_namespaces, line.namespace)?,
        in_namespace: line.in_namespace,
        verb: Word::from_slice(alloc, line.verb.as_bytes())?,
        asked: Asked::from_target(alloc, line.target, line.subresource)?,
    })
}

// What an accepted `can-i` line means.
fn can_i_from(alloc: Global, line: &CanILine<'_, '_>) -> Result<Action, QuestionFault>
    requires { AcceptsCanI line.now }
    ensures { MatchResult result (MeansCanI line.now) (λ e. e ≡ QuestionFault.NoMemory) }
{
    let user = line.user.as_bytes();
    let principal = principal_from(alloc, user, line.groups, line.whole_groups)?;
    let question = question_of(alloc, &line.question)?;
    let options = line.options;
    Ok(Action::CanI {
        principal,
        options,
        question,
    })
}

impl Action {
    /// What a `can-i` line means.
    ///
    /// U2 if USER, VERB or TARGET is empty, or TARGET begins with `.`; otherwise U3 if a URL has a
    /// subresource. Nothing is allocated before these refusals; memory may run out after them.
    pub fn can_i(alloc: Global, line: &CanILine<'_, '_>) -> Result<Self, QuestionFault>
        ensures answer { MatchResult result
            (λ action. AcceptsCanI line.now × MeansCanI line.now action)
            (RefusesCanI line.now) }
        ensures lacking { RefusesCanI line.now QuestionFault.EmptyWord
            → result ≡ Err QuestionFault.EmptyWord }
        ensures located { RefusesCanI line.now QuestionFault.UrlSubresource
            → result ≡ Err QuestionFault.UrlSubresource }
    {
        check_can_i(line)?;
        can_i_from(alloc, line)
    }

    /// What a `rules` line means.
    ///
    /// U5 if WHO isn't `u:` or `g:` with a name behind it, or if a `--groups` or `--group` that
    /// isn't empty comes with `g:`, even one that gives no group, such as `,`. Nothing is allocated
    /// before this refusal; memory may run out after it.
    pub fn rules(alloc: Global, line: &RulesLine<'_, '_>) -> Result<Self, QuestionFault>
        ensures answer { MatchResult result (MeansRules line.now) (RefusesRules line.now) }
        ensures unnamed { HasBadPrincipal line.now.who → result ≡ Err QuestionFault.BadPrincipal }
    {
        Ok(Action::Rules {
            principal: principal_of(alloc, &line.who)?,
            scope: scope_from(alloc, line.all_namespaces, line.namespace)?,
        })
    }

    /// What a `matrix` line means.
    ///
    /// U4 if the text after `--after` isn't the token of any mark, with or without `--every`; or
    /// out of memory.
    pub fn matrix(alloc: Global, line: &MatrixLine<'_>) -> Result<Self, QuestionFault>
        ensures { MatchResult result (MeansMatrix line.now) (RefusesMatrix line.now) }
    {
        let after = match line.after {
            Some(token) => Some(mark_after(alloc, token)?),
            None => None,
        };
        Ok(Action::Matrix {
            options: line.options,
            after,
            limit: line.limit,
        })
    }

    /// What a `lint` line means.
    ///
    /// U6 if a part between the commas of `--only` isn't exactly one of the words L1 to L7. So an
    /// empty part is refused, and an empty text too. Nothing is allocated before this refusal;
    /// memory may run out after it.
    pub fn lint(alloc: Global, line: &LintLine<'_>) -> Result<Self, QuestionFault>
        ensures answer { MatchResult result (MeansLint line.now) (RefusesLint line.now) }
        ensures miscoded { HasBadCode line.now.only → result ≡ Err QuestionFault.BadCode }
    {
        let only = match line.only {
            Some(text) => Some(codes_of(alloc, text)?),
            None => None,
        };
        Ok(Action::Lint {
            only,
            skip_system: line.skip_system,
        })
    }

    /// What a `diff` line means.
    ///
    /// U7 if the line has none of `--after`, `--with` and `--without`, or `--after` with one of the
    /// others. Allocates nothing.
    pub fn diff(line: &DiffLine) -> Result<Self, QuestionFault>
        ensures { MatchResult result (MeansDiff line.now) (RefusesDiff line.now) }
    {
        let is_over = line.without_files > 0 || line.with_files > 0;
        let change = match (line.after_files > 0, is_over) {
            (true, false) => Change::After,
            (false, true) => Change::Over(line.without_files),
            _ => return Err(QuestionFault::BadChange),
        };
        Ok(Action::Diff {
            before: line.before_files,
            change,
        })
    }
}
