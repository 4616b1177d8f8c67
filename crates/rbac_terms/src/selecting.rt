//! Labels, and selectors by labels.

ghost use Rattle.std.specs.Prelude.{IsTrue, ◌↔◌, All};
ghost use Rattle.rbac_terms.specs.Selecting.{Selects, Meets, HasLabel, HasLabelKey, HasOneOf};

use crate::items::Items;
use crate::text::{Word, Words};

/// Labels as pairs of a key and a value (Labels and Selectors): as many as fit in memory. A
/// manifest gives each key once; nothing here requires that.
pub type Labels = Items<(Word, Word)>;

/// What a requirement asks of a key (Labels and Selectors, "Set-based requirement").
#[derive(Drop, Clone, Copy)]
pub enum SelectOp {
    /// `In`: there is a label with the key and one of the values.
    OneOf,
    /// `NotIn`: there is no label with the key, or its value isn't one of the values.
    NoneOf,
    /// `Exists`: there is a label with the key.
    Present,
    /// `DoesNotExist`: there is no label with the key.
    Absent,
}

/// What a selector asks of one key: an item of `matchExpressions` (Labels and Selectors).
pub struct Requirement {
    /// The label's key.
    pub key: Word,
    /// What the requirement asks of the key.
    pub op: SelectOp,
    /// The values that `OneOf` and `NoneOf` compare with; `Present` and `Absent` ignore them.
    pub values: Words,
}

impl Drop for Requirement {
    fn drop(self) {
        let Self { key, op, values } = self;
    }
}

/// A list of requirements that must all be met: as many as fit in memory.
pub type Requirements = Items<Requirement>;

/// A label selector. An object has to have all of its labels and meet all of its requirements; the
/// empty selector selects every object (Labels and Selectors).
pub struct Selector {
    /// `matchLabels`: labels that an object must have.
    pub labels: Labels,
    /// `matchExpressions`: requirements that the object's labels must meet.
    pub requirements: Requirements,
}

impl Drop for Selector {
    fn drop(self) {
        let Self {
            labels,
            requirements,
        } = self;
    }
}

/// The selectors of an aggregated cluster role: as many as fit in memory. It is enough if one of
/// them selects a role (Using RBAC Authorization, "Aggregated ClusterRoles").
pub type Selectors = Items<Selector>;

/// Whether the selector selects an object with these labels: the labels contain each label of the
/// selector and meet each of its requirements (Labels and Selectors). Doesn't allocate.
pub fn selects(selector: &Selector, labels: &Labels) -> bool
    ensures { IsTrue result ↔ Selects selector.now labels.now }
{
    has_all(labels, &selector.labels) && meets_all(labels, &selector.requirements)
}

fn has_all(labels: &Labels, wanted: &Labels) -> bool
    ensures { IsTrue result ↔ All (λ label. HasLabel labels.now label.0 label.1) wanted.now }
{
    wanted
        .as_slice()
        .iter()
        .all(|label| has_label(labels, &label.0, &label.1))
}

fn meets_all(labels: &Labels, requirements: &Requirements) -> bool
    ensures { IsTrue result ↔ All (λ requirement. Meets requirement labels.now) requirements.now }
{
    requirements
        .as_slice()
        .iter()
        .all(|requirement| meets(requirement, labels))
}

fn meets(requirement: &Requirement, labels: &Labels) -> bool
    ensures { IsTrue result ↔ Meets requirement.now labels.now }
{
    let key = &requirement.key;
    match requirement.op {
        SelectOp::OneOf => has_one_of(labels, key, &requirement.values),
        SelectOp::NoneOf => !has_one_of(labels, key, &requirement.values),
        SelectOp::Present => has_key(labels, key),
        SelectOp::Absent => !has_key(labels, key),
    }
}

// Whether there is a label with this key.
fn has_key(labels: &Labels, key: &Word) -> bool
    ensures { IsTrue result ↔ HasLabelKey labels.now key.now }
{
    labels.as_slice().iter().any(|label| label.0 == *key)
}

// Whether there is a label with this key and this value.
#[tactic(auto, unfolding(crate::specs::Selecting::HasLabel))]
fn has_label(labels: &Labels, key: &Word, value: &Word) -> bool
    ensures { IsTrue result ↔ HasLabel labels.now key.now value.now }
{
    labels
        .as_slice()
        .iter()
        .any(|label| label.0 == *key && label.1 == *value)
}

// Whether there is a label with this key and one of these values.
fn has_one_of(labels: &Labels, key: &Word, values: &Words) -> bool
    ensures { IsTrue result ↔ HasOneOf labels.now key.now values.now }
{
    labels
        .as_slice()
        .iter()
        .any(|label| label.0 == *key && values.contains(&label.1))
}
