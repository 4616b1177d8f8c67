//! What the texts of a `who-can` line mean.

ghost use Rattle.std.specs.Prelude.{◌≡◌, ◌↔◌, IsTrue, MatchResult};
ghost use Rattle.rbac_question.specs.Lines.{LacksWord, RefusesQuestion};
ghost use Rattle.rbac_question.specs.WhoCanLines.{AcceptsWhoCan, GoTogether, MeansWhoCan};
ghost use Rattle.rbac_question.specs.WhoCanLines.{RefusesWhoCan, no_options, options_meant};

use crate::command::{Action, HolderOptions};
use crate::fault::QuestionFault;
use crate::line::{QuestionLine, check_question, question_of};
use crate::steps_line::{names_steps, steps_from};
use std::alloc::Global;
use std::marker::Model;

/// The parts of a `who-can` line.
#[derive(Drop)]
pub struct WhoCanLine<'a> {
    /// Whether `--indirect` is given.
    pub indirect: bool,
    /// The words of steps after `--steps`, not yet split.
    pub steps: Option<&'a str>,
    /// Which of `--why`, `--every`, `--anywhere`, `--any-name` and `--members` are given.
    pub options: HolderOptions,
    /// The parts that ask the question.
    pub question: QuestionLine<'a>,
}

impl<'a> Model for WhoCanLine<'a> {
    ghost use Rattle.std.specs.Prelude.{option_map};
    ghost use Rattle.rbac_question.specs.WhoCanLines.{WhoCanParts};

    ghost Value = { WhoCanParts };

    ghost view = { λ l. record {
      indirect = l.indirect;
      steps = option_map (λ t. t.now) l.steps;
      options = l.options;
      question = l.question;
    } };
}

// The options that a `who-can` line means: `-A` overrides `--anywhere` too (own).
fn options_from(all: bool, given: HolderOptions) -> HolderOptions
    ensures { result ≡ options_meant all given }
{
    HolderOptions {
        anywhere: given.anywhere && !all,
        ..given
    }
}

// Whether none of these options is given.
fn has_none(options: HolderOptions) -> bool
    ensures { IsTrue result ↔ (options ≡ no_options) }
{
    !options.why && !options.every && !options.anywhere && !options.any_name && !options.members
}

// Whether the options go together: `--indirect` excludes the options about holders, and `--steps`
// needs `--indirect`.
fn go_together(line: &WhoCanLine<'_>) -> bool
    ensures { IsTrue result ↔ GoTogether line.now }
{
    if line.indirect {
        return has_none(line.options);
    }
    line.steps.is_none()
}

// Why a `who-can` line is refused: U2 or U3 for its question; otherwise U8 if a part of `--steps`
// isn't the word of a step; otherwise U9 if the options don't go together.
fn check_who_can(line: &WhoCanLine<'_>) -> Result<(), QuestionFault>
    ensures answer { MatchResult result (λ _. AcceptsWhoCan line.now) (RefusesWhoCan line.now) }
    ensures lacking { LacksWord line.now.question → result ≡ Err QuestionFault.EmptyWord }
    ensures located { RefusesQuestion line.now.question QuestionFault.UrlSubresource
        → result ≡ Err QuestionFault.UrlSubresource }
    ensures unknown { RefusesWhoCan line.now QuestionFault.BadStep
        → result ≡ Err QuestionFault.BadStep }
    ensures mixed { RefusesWhoCan line.now QuestionFault.BadIndirect
        → result ≡ Err QuestionFault.BadIndirect }
{
    check_question(&line.question)?;
    if !names_steps(line.steps) {
        return Err(QuestionFault::BadStep);
    }
    if !go_together(line) {
        return Err(QuestionFault::BadIndirect);
    }
    Ok(())
}

// What an accepted `who-can` line means.
fn who_can_from(alloc: Global, line: &WhoCanLine<'_>) -> Result<Action, QuestionFault>
    requires { AcceptsWhoCan line.now }
    ensures { MatchResult result (MeansWhoCan line.now) (λ e. e ≡ QuestionFault.NoMemory) }
{
    let question = question_of(alloc, &line.question)?;
    if line.indirect {
        let steps = steps_from(alloc, line.steps)?;
        return Ok(Action::WaysTo { steps, question });
    }
    Ok(Action::WhoCan {
        options: options_from(line.question.all_namespaces, line.options),
        question,
    })
}

impl Action {
    /// What a `who-can` line means.
    ///
    /// U2 if VERB or TARGET is empty, or TARGET begins with `.`; otherwise U3 if a URL has a
    /// subresource; otherwise U8 for `--steps`, as for a `paths` line; otherwise U9 if `--indirect`
    /// is given with `--why`, `--every`, `--anywhere`, `--any-name` or `--members`, or `--steps`
    /// without `--indirect`. Nothing is allocated before these refusals; memory may run out after
    /// them.
    pub fn who_can(alloc: Global, line: &WhoCanLine<'_>) -> Result<Self, QuestionFault>
        ensures answer { MatchResult result
            (λ action. AcceptsWhoCan line.now × MeansWhoCan line.now action)
            (RefusesWhoCan line.now) }
        ensures lacking { LacksWord line.now.question → result ≡ Err QuestionFault.EmptyWord }
        ensures located { RefusesQuestion line.now.question QuestionFault.UrlSubresource
            → result ≡ Err QuestionFault.UrlSubresource }
        ensures unknown { RefusesWhoCan line.now QuestionFault.BadStep
            → result ≡ Err QuestionFault.BadStep }
        ensures mixed { RefusesWhoCan line.now QuestionFault.BadIndirect
            → result ≡ Err QuestionFault.BadIndirect }
    {
        check_who_can(line)?;
        who_can_from(alloc, line)
    }
}
