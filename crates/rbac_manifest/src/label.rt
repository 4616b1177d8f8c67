//! Labels of an object, and the labels that a selector asks for.

ghost use Rattle.serde_json.specs.View.{view};
ghost use Rattle.json_fields.specs.Reads.{Reads};
ghost use Rattle.rbac_manifest.specs.Label.{label_of, entry_labels, labels_at};

use json_fields::{Trouble, field, word_of};
use rbac_terms::{Labels, Word};
use serde_json::{Map, Value};
use std::alloc::Global;

// The label that a member gives.
fn label_of(alloc: Global, key: &str, value: &Value) -> Result<(Word, Word), Trouble>
    ensures { Reads result (label_of key.now (view value.now)) }
{
    let Some(text) = value.as_str() else {
        return Err(Trouble::Shape);
    };
    let key = word_of(alloc, key)?;
    let value = word_of(alloc, text)?;
    Ok((key, value))
}

// The labels that all members give.
fn labels_of(alloc: Global, members: &Map<String, Value>) -> Result<Labels, Trouble>
    ensures { Reads result (entry_labels members.now.entries) }
{
    let mut labels = Vec::new(alloc);
    for (key, value) in members {
        labels.push(label_of(alloc, key.as_str(), value)?)?;
    }
    Ok(Labels::from_vec(labels))
}

// The labels in a field; a missing field counts as no labels.
#[tactic(auto, using(crate::proofs::Members::labels_of_entries), unfolding(crate::specs::Label::labels_at))]
pub(crate) fn labels_field(alloc: Global, value: &Value, name: &str) -> Result<Labels, Trouble>
    ensures { Reads result (labels_at name.now (view value.now)) }
{
    match field(value, name) {
        Some(labels) => labels_of(alloc, labels.as_object().ok_or(Trouble::Shape)?),
        None => Ok(Labels::from_vec(Vec::new(alloc))),
    }
}
