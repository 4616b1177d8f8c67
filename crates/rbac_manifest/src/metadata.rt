//! The name, namespace and labels of an object.

ghost use Rattle.serde_json.specs.View.{view};
ghost use Rattle.json_fields.specs.Reads.{Reads};
ghost use Rattle.rbac_manifest.specs.Reads.{Gives};
ghost use Rattle.rbac_manifest.specs.Document.{bad_metadata};
ghost use Rattle.rbac_manifest.specs.Metadata.{metadata_from, metadata_at};

use crate::fault::{Cause, read_or};
use crate::label::labels_field;
use json_fields::{Trouble, field, name_of, object_in, word_field, word_of};
use rbac_terms::{Labels, Word};
use serde_json::Value;
use std::alloc::Global;

// The name of an object, its namespace (empty if it is missing) and its labels.
#[derive(Drop)]
pub(crate) struct Metadata {
    pub name: Word,
    pub namespace: Word,
    pub labels: Labels,
}

// The metadata that an object gives.
#[tactic(auto, unfolding(crate::specs::Metadata::metadata_from))]
fn metadata_from(alloc: Global, metadata: &Value) -> Result<Metadata, Trouble>
    ensures { Reads result (metadata_from (view metadata.now)) }
{
    let metadata = object_in(metadata)?;
    let Some(name) = name_of(metadata) else {
        return Err(Trouble::Shape);
    };
    Ok(Metadata {
        name: word_of(alloc, name)?,
        namespace: word_field(alloc, metadata, "namespace")?,
        labels: labels_field(alloc, metadata, "labels")?,
    })
}

// The metadata of a document.
#[tactic(auto, using(crate::proofs::Conditions::metadata_is), unfolding(crate::specs::Metadata::metadata_at))]
pub(crate) fn metadata_of(alloc: Global, document: &Value) -> Result<Metadata, Cause>
    ensures { Gives result (bad_metadata (view document.now)) (metadata_at (view document.now)) }
{
    let Some(metadata) = field(document, "metadata") else {
        return Err(Cause::BadMetadata);
    };
    read_or(metadata_from(alloc, metadata), Cause::BadMetadata)
}
