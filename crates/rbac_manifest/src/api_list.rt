//! API resource lists, as `kubectl get --raw /api/v1` and `/apis/GROUP/VERSION` write them.

ghost use Rattle.std.specs.Prelude.{◌≡◌, ◌≢◌, ◌↔◌, [], Contains, IsTrue, map, option_map};
ghost use Rattle.serde_json.specs.View.{view};
ghost use Rattle.rbac_terms.specs.Text.{slash};
ghost use Rattle.json_fields.specs.Reads.{Reads};
ghost use Rattle.rbac_manifest.specs.Reads.{Gives};
ghost use Rattle.json_fields.specs.Lists.{all_at};
ghost use Rattle.rbac_manifest.specs.ApiList.{group_of, resource_name_at, entry_at, entries_at};
ghost use Rattle.rbac_manifest.specs.Document.{bad_catalogue};

use crate::fault::{Cause, read_or};
use json_fields::{
    Trouble, all_read, flag_field, list_field, name_of, text_field, word_field, word_of,
    words_field,
};
use rbac_catalogue::{Entries, Entry};
use rbac_terms::{Word, cut_at_first, is_path};
use serde_json::Value;
use std::alloc::Global;

// Whether a text isn't empty and has no slash.
fn is_part(text: &[u8]) -> bool
    ensures { IsTrue result ↔ ((text.now ≢ []) × (¬ Contains text.now slash)) }
{
    !text.is_empty() && !text.contains(&b'/')
}

// The group that a group version names.
fn group_of(version: &[u8]) -> Option<&[u8]>
    ensures { option_map (λ group. group.now) result ≡ group_of version.now }
{
    if is_part(version) {
        return Some(&[]);
    }
    let (group, version) = cut_at_first(version, b'/')?;
    if is_part(group) && is_part(version) {
        Some(group)
    } else {
        None
    }
}

// The name of an entry's resource.
#[tactic(auto, unfolding(crate::specs::ApiList::resource_name_at))]
fn resource_name_of(alloc: Global, value: &Value) -> Result<Word, Trouble>
    ensures { Reads result (resource_name_at (view value.now)) }
{
    match name_of(value) {
        Some(name) if !is_path(name.as_bytes()) => Ok(word_of(alloc, name)?),
        _ => Err(Trouble::Shape),
    }
}

// The entry that an item gives in a list of this group.
#[tactic(auto, unfolding(crate::specs::ApiList::entry_at))]
fn entry_of(alloc: Global, group: &[u8], value: &Value) -> Result<Entry, Trouble>
    ensures { Reads result (entry_at group.now (view value.now)) }
{
    let Some(namespaced) = flag_field(value, "namespaced", false) else {
        return Err(Trouble::Shape);
    };
    Ok(Entry {
        name: resource_name_of(alloc, value)?,
        singular: word_field(alloc, value, "singularName")?,
        short_names: words_field(alloc, value, "shortNames")?,
        namespaced,
        verbs: words_field(alloc, value, "verbs")?,
        group: Word::from_slice(alloc, group)?,
    })
}

// The entries that all items give.
fn entries_in(alloc: Global, group: &[u8], values: &[Value]) -> Result<Entries, Trouble>
    ensures { Reads result (all_at (entry_at group.now) (map view values.now)) }
{
    let entries = all_read(alloc, values, |alloc, value| entry_of(alloc, group, value))?;
    Ok(Entries::from_vec(entries))
}

// The entries of an API resource list.
#[tactic(auto, using(crate::proofs::Conditions::api_list_is), unfolding(crate::specs::ApiList::entries_at))]
pub(crate) fn entries_of(alloc: Global, document: &Value) -> Result<Entries, Cause>
    ensures { Gives result (bad_catalogue (view document.now)) (entries_at (view document.now)) }
{
    let (Some(version), Some(items)) = (
        text_field(document, "groupVersion"),
        list_field(document, "resources"),
    ) else {
        return Err(Cause::BadCatalogue);
    };
    let Some(group) = group_of(version.as_bytes()) else {
        return Err(Cause::BadCatalogue);
    };
    read_or(entries_in(alloc, group, items), Cause::BadCatalogue)
}
