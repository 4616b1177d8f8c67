//! What the texts of a `paths` line mean.

ghost use Rattle.std.specs.Prelude.{◌≡◌, MatchResult};
ghost use Rattle.rbac_question.specs.Lines.{HasBadPrincipal, NamesPrincipal};
ghost use Rattle.rbac_question.specs.PathsLines.{AcceptsPaths, MeansPaths, RefusesPaths};

use crate::command::Action;
use crate::fault::QuestionFault;
use crate::path_end::{end_from, is_good_end};
use crate::steps_line::{names_steps, steps_from};
use crate::who::{WhoLine, check_who, principal_of};
use rbac_terms::Principal;
use std::alloc::Global;
use std::marker::Model;

/// The parts of a `paths` line.
#[derive(Drop)]
pub struct PathsLine<'m, 'a> {
    /// The parts that name the principal asked about.
    pub who: WhoLine<'m, 'a>,
    /// The words of steps after `--steps`, not yet split.
    pub steps: Option<&'a str>,
    /// TO, after `--to`.
    pub to: Option<&'a str>,
    /// The name after `-n`; empty if it isn't given.
    pub namespace: &'a str,
}

impl<'m, 'a> Model for PathsLine<'m, 'a> {
    ghost use Rattle.std.specs.Prelude.{option_map};
    ghost use Rattle.rbac_question.specs.PathsLines.{PathsParts};

    ghost Value = { PathsParts };

    ghost view = { λ l. record {
      who = l.who;
      steps = option_map (λ t. t.now) l.steps;
      to = option_map (λ t. t.now) l.to;
      namespace = l.namespace.now;
    } };
}

// Why a `paths` line is refused: U5 if WHO names no principal; otherwise U8 if a part of `--steps`
// isn't the word of a step; otherwise U10 for `--to` and `-n`.
fn check_paths(line: &PathsLine<'_, '_>) -> Result<(), QuestionFault>
    ensures answer { MatchResult result (λ _. AcceptsPaths line.now) (RefusesPaths line.now) }
    ensures unnamed { HasBadPrincipal line.now.who → result ≡ Err QuestionFault.BadPrincipal }
    ensures unknown { RefusesPaths line.now QuestionFault.BadStep
        → result ≡ Err QuestionFault.BadStep }
    ensures ending { RefusesPaths line.now QuestionFault.BadEnd
        → result ≡ Err QuestionFault.BadEnd }
{
    check_who(&line.who)?;
    if !names_steps(line.steps) {
        return Err(QuestionFault::BadStep);
    }
    if !is_good_end(line.to, line.namespace) {
        return Err(QuestionFault::BadEnd);
    }
    Ok(())
}

// The principal that WHO, `--groups` and `--group` name.
fn named_by(alloc: Global, who: &WhoLine<'_, '_>) -> Result<Principal, QuestionFault>
    requires { ¬ HasBadPrincipal who.now }
    ensures { MatchResult result (NamesPrincipal who.now) (λ e. e ≡ QuestionFault.NoMemory) }
{
    principal_of(alloc, who)
}

// What an accepted `paths` line means.
fn paths_from(alloc: Global, line: &PathsLine<'_, '_>) -> Result<Action, QuestionFault>
    requires { AcceptsPaths line.now }
    ensures { MatchResult result (MeansPaths line.now) (λ e. e ≡ QuestionFault.NoMemory) }
{
    Ok(Action::Paths {
        principal: named_by(alloc, &line.who)?,
        steps: steps_from(alloc, line.steps)?,
        to: end_from(alloc, line.to, line.namespace)?,
    })
}

impl Action {
    /// What a `paths` line means.
    ///
    /// U5 as for a `rules` line; otherwise U8 if a part between the commas of `--steps` isn't
    /// exactly the word of a step. So an empty part is refused, and an empty text too. Otherwise
    /// U10 if TO isn't one that `paths` prints, or `-n` is given without `--to`, beside a user or a
    /// group, or beside a Role of another namespace. Nothing is allocated before these refusals;
    /// memory may run out after them.
    pub fn paths(alloc: Global, line: &PathsLine<'_, '_>) -> Result<Self, QuestionFault>
        ensures answer { MatchResult result
            (λ action. AcceptsPaths line.now × MeansPaths line.now action)
            (RefusesPaths line.now) }
        ensures unnamed { HasBadPrincipal line.now.who → result ≡ Err QuestionFault.BadPrincipal }
        ensures unknown { RefusesPaths line.now QuestionFault.BadStep
            → result ≡ Err QuestionFault.BadStep }
        ensures ending { RefusesPaths line.now QuestionFault.BadEnd
            → result ≡ Err QuestionFault.BadEnd }
    {
        check_paths(line)?;
        paths_from(alloc, line)
    }
}
