//! Finds the powers of one step, binding by binding.

ghost use Rattle.std.specs.Prelude.{◌<◌, ◌≡◌, ◌↔◌, Any, IfOk, IfSome, OnOk, IsTrue, MatchOption, length};
ghost use Rattle.std.specs.Option.{option_copied};
ghost use Rattle.rbac_model.specs.Policies.{IsPolicy};
ghost use Rattle.rbac_model.specs.Sources.{grant_of};
ghost use Rattle.rbac_paths.specs.Finding.{AddsPowers, FindsPowers, GivesNone, IsFirstGiving};
ghost use Rattle.rbac_paths.specs.Powers.{who_and_where};
ghost use Rattle.rbac_paths.specs.Rows.{AreOfStep};
ghost use Rattle.rbac_paths.specs.Steps.{AllowsIn, table};
ghost use Rattle.rbac_steps.specs.declared.steps.Step.{Step};

use crate::power::Power;
use crate::rows::{WordRow, rows_of};
use rbac_model::{Grant, Policy};
use rbac_steps::Step;
use rbac_terms::{Binding, Rule, Word, subject_key};
use rbac_text::{put_choice_and_tab, put_field_and_tab};
use std::alloc::{AllocError, Global};
use std::collections::BTreeMap;

/// Powers of a step. The key of each is its who and where, as printed.
pub(crate) type Found<'p> = BTreeMap<Word, Power<'p>>;

// All powers of a step.
pub(crate) fn found_of<'p>(
    alloc: Global,
    policy: &'p Policy,
    step: Step,
) -> Result<Found<'p>, AllocError>
    ensures found { IfOk result (FindsPowers policy.now step (length policy.now.held.bindings)) }
    ensures policy { IfOk result (λ _. IsPolicy policy.now) }
{
    let rows = rows_of(alloc, step)?;
    let mut found = BTreeMap::new(alloc);
    let places = policy.bindings().len();
    for place in 0..places {
        if let Some(no) = first_giving(policy, place, rows.as_slice()) {
            add_of_grant(alloc, step, policy.grant(no), &mut found)?;
        }
    }
    Ok(found)
}

// The number of the first grant that gives the step of these rows, among the grants of the binding
// at this place.
fn first_giving(policy: &Policy, place: usize, rows: &[WordRow]) -> Option<u32>
    ensures first { (step : Step) → AreOfStep step table rows.now → MatchOption result
        (GivesNone policy.now step place)
        (IsFirstGiving policy.now step place) }
    ensures number { IfSome result (λ n. n < length policy.now.grants) }
    ensures policy { IsPolicy policy.now }
{
    let (from, end) = policy.grants_of(place);
    for no in from..end {
        let grant = policy.grant(no);
        if allows_some(rows, grant.binding.namespace.as_ref(), grant.rule) {
            return Some(no);
        }
    }
    None
}

// Whether the rule, granted in this namespace, or in the whole cluster if there is none, allows a
// request of one of these rows.
fn allows_some(rows: &[WordRow], namespace: Option<&Word>, rule: &Rule) -> bool
    ensures { IsTrue result ↔ Any (AllowsIn (option_copied namespace.entry) rule.now) rows.now }
{
    rows.iter()
        .any(|row| row.counts_in(namespace) && row.is_allowed_by(rule))
}

// Adds a power for each key of a subject of the grant's binding, unless one with the same who and
// where was found before.
fn add_of_grant<'p>(
    alloc: Global,
    step: Step,
    grant: Grant<'p>,
    found: &mut Found<'p>,
) -> Result<(), AllocError>
    ensures { OnOk result (AddsPowers step (grant_of grant.entry)
        grant.entry.binding.now.subjects found.old found.new) }
{
    let binding: &'p Binding = grant.binding;
    let namespace = binding.namespace.as_ref();
    for (place, subject) in binding.subjects.as_slice().iter().enumerate() {
        if let Some(who) = subject_key(alloc, subject, namespace)? {
            let text = who_and_where(alloc, &who, namespace)?;
            let power = Power {
                step,
                who,
                grant,
                subject_place: place,
            };
            found.entry(text)?.or_insert(power);
        }
    }
    Ok(())
}

// Who and where, as printed, each with a tab after it.
fn who_and_where(alloc: Global, who: &Word, namespace: Option<&Word>) -> Result<Word, AllocError>
    ensures { IfOk result
        (λ text. text ≡ who_and_where who.now (option_copied namespace.entry)) }
{
    let mut text = Vec::new(alloc);
    put_field_and_tab(&mut text, who.as_bytes())?;
    put_choice_and_tab(&mut text, namespace)?;
    Word::from_slice(alloc, text.as_slice())
}
