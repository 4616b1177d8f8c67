//! What the text after `--steps` means.

ghost use Rattle.std.specs.Prelude.{◌≡◌, ◌↔◌, All, Any, IfOk, IsTrue, filter, option_map};
ghost use Rattle.rbac_steps.specs.Steps.{step_word};
ghost use Rattle.rbac_question.specs.Lines.{comma, parts_between};
ghost use Rattle.rbac_question.specs.StepsLines.{AreStepWords, IsStepWord};
ghost use Rattle.rbac_question.specs.StepsLines.{names_step, steps_meant};

use rbac_steps::Step;
use std::alloc::{AllocError, Global};

// Whether a text is the word of one of these steps.
fn is_word_of(steps: &[Step], text: &str) -> bool
    ensures { IsTrue result ↔ Any (λ step. text.now ≡ step_word step) steps.now }
{
    steps.iter().any(|step| step.word() == text.as_bytes())
}

// Whether a text is the word of a step.
#[tactic(auto, unfolding(crate::specs::StepsLines::IsStepWord))]
fn is_step_word(text: &str) -> bool
    ensures { IsTrue result ↔ IsStepWord text.now }
{
    is_word_of(&Step::ALL, text)
}

// Whether each part between commas is the word of a step.
fn are_step_words(text: &str) -> bool
    ensures { IsTrue result ↔ All IsStepWord (parts_between comma text.now) }
{
    text.split(',').all(|part| is_step_word(part))
}

// Whether each part between the commas of `--steps` is the word of a step; true without `--steps`.
pub(crate) fn names_steps(given: Option<&str>) -> bool
    ensures { IsTrue result ↔ AreStepWords (option_map (λ t. t.now) given.entry) }
{
    match given {
        Some(text) => are_step_words(text),
        None => true,
    }
}

// Whether a part between commas is the word of this step.
fn is_named(text: &str, step: Step) -> bool
    ensures { result ≡ names_step text.now step }
{
    text.split(',').any(|part| step.word() == part.as_bytes())
}

// Those of the given steps that a text names between commas, in the order of the given steps.
fn named_among(alloc: Global, steps: &[Step], text: &str) -> Result<Vec<Step>, AllocError>
    ensures { IfOk result (λ named. named.items ≡ filter (names_step text.now) steps.now) }
{
    let mut named = Vec::new(alloc);
    for step in steps {
        if is_named(text, *step) {
            named.push(*step)?;
        }
    }
    Ok(named)
}

// The steps that count (own): those that `--steps` names, or without it all of the table.
pub(crate) fn steps_from(alloc: Global, given: Option<&str>) -> Result<Vec<Step>, AllocError>
    ensures { IfOk result
        (λ steps. steps.items ≡ steps_meant (option_map (λ t. t.now) given.entry)) }
{
    match given {
        Some(text) => named_among(alloc, &Step::ALL, text),
        None => Vec::from_slice(alloc, &Step::ALL),
    }
}
