//! Subjects of bindings, as sets.

ghost use Rattle.std.specs.Prelude.{◌≡◌, ◌↔◌, IfOk, IsTrue, Contains};
ghost use Rattle.rbac_diff.specs.Unchanged.{AreAmong};

use rbac_terms::{Subject, Word};
use rbac_text::put_field_and_tab;
use std::alloc::{AllocError, Global};
use std::collections::BTreeMap;

// The places of subjects, by their texts.
type SubjectPlaces = BTreeMap<Vec<u8>, usize>;

// Whether each of these subjects is among the others. Most lists have them in the same order, so
// this is tried first.
pub(crate) fn are_among(
    alloc: Global,
    subjects: &[Subject],
    others: &[Subject],
) -> Result<bool, AllocError>
    ensures { IfOk result (λ among. IsTrue among → AreAmong subjects.now others.now) }
{
    if are_among_in_order(subjects, others) {
        return Ok(true);
    }
    let places = places_of(alloc, others)?;
    are_at(alloc, subjects, &places, others)
}

// Whether these subjects are found among the others in the same order, as where subjects were only
// added.
fn are_among_in_order(subjects: &[Subject], others: &[Subject]) -> bool
    ensures { IsTrue result → AreAmong subjects.now others.now }
{
    let mut at = 0;
    for subject in subjects {
        while at < others.len() && !same_subject(&others[at], subject) {
            at += 1;
        }
        if at >= others.len() {
            return false;
        }
    }
    true
}

// The places of these subjects.
fn places_of(alloc: Global, subjects: &[Subject]) -> Result<SubjectPlaces, AllocError> {
    let mut places = BTreeMap::new(alloc);
    for (place, subject) in subjects.iter().enumerate() {
        places.insert(subject_text(alloc, subject)?, place)?;
    }
    Ok(places)
}

// Whether `others` has each of these subjects at the place listed for it.
fn are_at(
    alloc: Global,
    subjects: &[Subject],
    places: &SubjectPlaces,
    others: &[Subject],
) -> Result<bool, AllocError>
    ensures { IfOk result (λ are. IsTrue are → AreAmong subjects.now others.now) }
{
    for subject in subjects {
        if !is_at(alloc, subject, places, others)? {
            return Ok(false);
        }
    }
    Ok(true)
}

// Whether `others` has the subject at the place listed for it.
fn is_at(
    alloc: Global,
    subject: &Subject,
    places: &SubjectPlaces,
    others: &[Subject],
) -> Result<bool, AllocError>
    ensures { IfOk result (λ is. IsTrue is → Contains others.now subject.now) }
{
    let text = subject_text(alloc, subject)?;
    let Some(place) = places.get(&text) else {
        return Ok(false);
    };
    Ok(has_at(others, *place, subject))
}

// Whether the subject at that place is this one.
fn has_at(subjects: &[Subject], place: usize, subject: &Subject) -> bool
    ensures { IsTrue result → Contains subjects.now subject.now }
{
    subjects
        .get(place)
        .is_some_and(|other| same_subject(other, subject))
}

fn same_subject(a: &Subject, b: &Subject) -> bool
    ensures { IsTrue result ↔ (a.now ≡ b.now) }
{
    match (a, b) {
        (Subject::User(a), Subject::User(b)) => a == b,
        (Subject::Group(a), Subject::Group(b)) => a == b,
        (
            Subject::Account { namespace, name },
            Subject::Account {
                namespace: other,
                name: named,
            },
        ) => namespace == other && name == named,
        _ => false,
    }
}

// The text of a subject: each word behind what it is, so that different subjects have different
// texts.
pub(crate) fn subject_text(alloc: Global, subject: &Subject) -> Result<Vec<u8>, AllocError> {
    let mut text = Vec::new(alloc);
    match subject {
        Subject::User(name) => put(&mut text, "user", name)?,
        Subject::Group(name) => put(&mut text, "group", name)?,
        Subject::Account { namespace, name } => {
            if let Some(namespace) = namespace {
                put(&mut text, "in", namespace)?;
            }
            put(&mut text, "account", name)?;
        }
    }
    Ok(text)
}

// Adds what a word is, and then the word.
pub(crate) fn put(text: &mut Vec<u8>, what: &str, word: &Word) -> Result<(), AllocError> {
    put_field_and_tab(text, what.as_bytes())?;
    put_field_and_tab(text, word.as_bytes())
}
