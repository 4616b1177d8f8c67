//! The selectors of an aggregated role.

ghost use Rattle.std.specs.Prelude.{◌≡◌, map};
ghost use Rattle.serde_json.specs.View.{view};
ghost use Rattle.json_fields.specs.Reads.{Reads};
ghost use Rattle.rbac_manifest.specs.Reads.{Gives};
ghost use Rattle.rbac_manifest.specs.Document.{bad_selector};
ghost use Rattle.json_fields.specs.Lists.{all_at};
ghost use Rattle.rbac_manifest.specs.Label.{operator_named, requirement_from, requirement_at};
ghost use Rattle.rbac_manifest.specs.Label.{selector_from, selector_at, selectors_from};
ghost use Rattle.rbac_manifest.specs.Label.{aggregation_at};

use crate::fault::{Cause, read_or};
use crate::label::labels_field;
use json_fields::{
    Trouble, all_read, field, list_field, object_in, text_field, word_of, words_field,
};
use rbac_terms::{Requirement, Requirements, SelectOp, Selector, Selectors, Words};
use serde_json::Value;
use std::alloc::Global;

// The operator with this name, if it takes this many values.
#[tactic(auto, unfolding(crate::specs::Label::operator_named))]
fn operator_named(name: &str, values: &Words) -> Option<SelectOp>
    ensures { result ≡ operator_named name.now values.now }
{
    if values.is_empty() {
        if name == "Exists" {
            Some(SelectOp::Present)
        } else if name == "DoesNotExist" {
            Some(SelectOp::Absent)
        } else {
            None
        }
    } else if name == "In" {
        Some(SelectOp::OneOf)
    } else if name == "NotIn" {
        Some(SelectOp::NoneOf)
    } else {
        None
    }
}

// The requirement that an object gives.
#[tactic(auto, unfolding(crate::specs::Label::requirement_from))]
fn requirement_from(alloc: Global, value: &Value) -> Result<Requirement, Trouble>
    ensures { Reads result (requirement_from (view value.now)) }
{
    let (Some(key), Some(name)) = (text_field(value, "key"), text_field(value, "operator")) else {
        return Err(Trouble::Shape);
    };
    if key.is_empty() {
        return Err(Trouble::Shape);
    }
    let values = words_field(alloc, value, "values")?;
    let Some(op) = operator_named(name, &values) else {
        return Err(Trouble::Shape);
    };
    let key = word_of(alloc, key)?;
    Ok(Requirement { key, op, values })
}

// The requirement that an item gives.
#[tactic(auto, unfolding(crate::specs::Label::requirement_at))]
fn requirement_of(alloc: Global, value: &Value) -> Result<Requirement, Trouble>
    ensures { Reads result (requirement_at (view value.now)) }
{
    requirement_from(alloc, object_in(value)?)
}

// The requirements that all items give.
fn requirements_of(alloc: Global, values: &[Value]) -> Result<Requirements, Trouble>
    ensures { Reads result (all_at requirement_at (map view values.now)) }
{
    let requirements = all_read(alloc, values, requirement_of)?;
    Ok(Requirements::from_vec(requirements))
}

// The selector that an object gives.
#[tactic(auto, unfolding(crate::specs::Label::selector_from))]
fn selector_from(alloc: Global, value: &Value) -> Result<Selector, Trouble>
    ensures { Reads result (selector_from (view value.now)) }
{
    let Some(expressions) = list_field(value, "matchExpressions") else {
        return Err(Trouble::Shape);
    };
    Ok(Selector {
        labels: labels_field(alloc, value, "matchLabels")?,
        requirements: requirements_of(alloc, expressions)?,
    })
}

// The selector that an item gives.
#[tactic(auto, unfolding(crate::specs::Label::selector_at))]
fn selector_of(alloc: Global, value: &Value) -> Result<Selector, Trouble>
    ensures { Reads result (selector_at (view value.now)) }
{
    selector_from(alloc, object_in(value)?)
}

// The selectors that all items give.
fn selectors_in(alloc: Global, values: &[Value]) -> Result<Selectors, Trouble>
    ensures { Reads result (all_at selector_at (map view values.now)) }
{
    let selectors = all_read(alloc, values, selector_of)?;
    Ok(Selectors::from_vec(selectors))
}

// The selectors of an aggregation rule.
#[tactic(auto, unfolding(crate::specs::Label::selectors_from))]
fn selectors_from(alloc: Global, value: &Value) -> Result<Selectors, Trouble>
    ensures { Reads result (selectors_from (view value.now)) }
{
    let Some(selectors) = list_field(object_in(value)?, "clusterRoleSelectors") else {
        return Err(Trouble::Shape);
    };
    selectors_in(alloc, selectors)
}

// The selectors of a cluster role, if it is aggregated.
#[tactic(auto, unfolding(crate::specs::Label::aggregation_at))]
fn aggregation_from(alloc: Global, document: &Value) -> Result<Option<Selectors>, Trouble>
    ensures { Reads result (aggregation_at (view document.now)) }
{
    match field(document, "aggregationRule") {
        Some(rule) => Ok(Some(selectors_from(alloc, rule)?)),
        None => Ok(None),
    }
}

// The selectors of a cluster role, if it is aggregated, or why its document is refused.
#[tactic(auto, using(crate::proofs::Conditions::aggregation_is))]
pub(crate) fn aggregation_of(alloc: Global, document: &Value) -> Result<Option<Selectors>, Cause>
    ensures { Gives result (bad_selector (view document.now)) (aggregation_at (view document.now)) }
{
    read_or(aggregation_from(alloc, document), Cause::BadSelector)
}
