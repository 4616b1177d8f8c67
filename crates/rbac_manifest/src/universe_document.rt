//! The lists that a Universe document gives (own).

ghost use Rattle.std.specs.Prelude.{◌≡◌, codes, option_and_then};
ghost use Rattle.serde_json.specs.View.{view};
ghost use Rattle.json_fields.specs.Fields.{as_list, texts_field};
ghost use Rattle.json_fields.specs.Reads.{Reads};
ghost use Rattle.json_fields.specs.Lists.{all_at};
ghost use Rattle.rbac_manifest.specs.UniverseDocument.{trouble_of, user_at, member_at};
ghost use Rattle.rbac_manifest.specs.UniverseDocument.{principal_at, resource_at, items_field};
ghost use Rattle.rbac_manifest.specs.UniverseDocument.{where_given, given_lists_at};

use json_fields::{
    Trouble, all_read, as_list, field, flag_field, word_field, word_of, words_field, words_in,
};
use rbac_lists::GivenLists;
use rbac_terms::{ModelFault, Principal, Words};
use rbac_universe::{ListedResource, ListedResources, Principals};
use serde_json::Value;
use std::alloc::Global;

// Why a principal is refused: its name has the wrong shape, or memory ran out.
fn trouble_of(fault: ModelFault) -> Trouble
    ensures { result ≡ trouble_of fault }
{
    match fault {
        ModelFault::EmptyName | ModelFault::BadTarget => Trouble::Shape,
        ModelFault::NoMemory => Trouble::Memory,
    }
}

// The user with this name and the groups that an item gives.
#[tactic(auto, unfolding(crate::specs::UniverseDocument::user_at))]
fn user_of(alloc: Global, name: &Value, value: &Value) -> Result<Principal, Trouble>
    ensures { Reads result (user_at (view name.now) (view value.now)) }
{
    let Some(name) = name.as_str() else {
        return Err(Trouble::Shape);
    };
    let name = word_of(alloc, name)?;
    let groups = words_field(alloc, value, "groups")?;
    Principal::user(alloc, &name, &groups).map_err(trouble_of)
}

// A member of the group with this name.
#[tactic(auto, unfolding(crate::specs::UniverseDocument::member_at))]
fn member_of(alloc: Global, name: &Value) -> Result<Principal, Trouble>
    ensures { Reads result (member_at (view name.now)) }
{
    let Some(name) = name.as_str() else {
        return Err(Trouble::Shape);
    };
    let name = word_of(alloc, name)?;
    Principal::group(alloc, &name).map_err(trouble_of)
}

// The principal that an item gives.
#[tactic(auto, unfolding(crate::specs::UniverseDocument::principal_at))]
fn read_principal(alloc: Global, value: &Value) -> Result<Principal, Trouble>
    ensures { Reads result (principal_at (view value.now)) }
{
    match (
        field(value, "user"),
        field(value, "group"),
        field(value, "groups"),
    ) {
        (Some(user), None, _) => user_of(alloc, user, value),
        (None, Some(group), None) => member_of(alloc, group),
        _ => Err(Trouble::Shape),
    }
}

// The principals that all items of a list give.
fn principals_in(alloc: Global, list: &Value) -> Result<Principals, Trouble>
    ensures { Reads result (option_and_then (all_at principal_at) (as_list (view list.now))) }
{
    let Some(items) = as_list(list) else {
        return Err(Trouble::Shape);
    };
    let principals = all_read(alloc, items, read_principal)?;
    Ok(Principals::from_vec(principals))
}

// The principals of a document, if it gives them.
#[tactic(auto, unfolding(json_fields::specs::Fields::list_field))]
fn principals_given(alloc: Global, document: &Value) -> Result<Option<Principals>, Trouble>
    ensures { Reads result
        (where_given (items_field principal_at) (codes "principals") (view document.now)) }
{
    match field(document, "principals") {
        Some(list) => Ok(Some(principals_in(alloc, list)?)),
        None => Ok(None),
    }
}

// The resource that an item gives.
#[tactic(auto, unfolding(crate::specs::UniverseDocument::resource_at))]
fn resource_of(alloc: Global, value: &Value) -> Result<ListedResource, Trouble>
    ensures { Reads result (resource_at (view value.now)) }
{
    let Some(resource) = field(value, "resource") else {
        return Err(Trouble::Shape);
    };
    let (Some(text), Some(namespaced)) = (resource.as_str(), flag_field(value, "namespaced", true))
    else {
        return Err(Trouble::Shape);
    };
    Ok(ListedResource {
        group: word_field(alloc, value, "group")?,
        text: word_of(alloc, text)?,
        namespaced,
    })
}

// The resources that all items of a list give.
fn resources_in(alloc: Global, list: &Value) -> Result<ListedResources, Trouble>
    ensures { Reads result (option_and_then (all_at resource_at) (as_list (view list.now))) }
{
    let Some(items) = as_list(list) else {
        return Err(Trouble::Shape);
    };
    let resources = all_read(alloc, items, resource_of)?;
    Ok(ListedResources::from_vec(resources))
}

// The resources of a document, if it gives them.
#[tactic(auto, unfolding(json_fields::specs::Fields::list_field))]
fn resources_given(alloc: Global, document: &Value) -> Result<Option<ListedResources>, Trouble>
    ensures { Reads result
        (where_given (items_field resource_at) (codes "resources") (view document.now)) }
{
    match field(document, "resources") {
        Some(list) => Ok(Some(resources_in(alloc, list)?)),
        None => Ok(None),
    }
}

// The texts in a field of a document, if it gives them.
#[tactic(auto, unfolding(json_fields::specs::Fields::texts_field, json_fields::specs::Fields::list_field))]
fn words_given(alloc: Global, document: &Value, name: &str) -> Result<Option<Words>, Trouble>
    ensures { Reads result (where_given texts_field name.now (view document.now)) }
{
    match field(document, name) {
        Some(list) => Ok(Some(words_in(alloc, list)?)),
        None => Ok(None),
    }
}

// The lists that a Universe document gives.
#[tactic(auto, unfolding(crate::specs::UniverseDocument::given_lists_at))]
pub(crate) fn given_lists_of(alloc: Global, document: &Value) -> Result<GivenLists, Trouble>
    ensures { Reads result (given_lists_at (view document.now)) }
{
    Ok(GivenLists {
        principals: principals_given(alloc, document)?,
        namespaces: words_given(alloc, document, "namespaces")?,
        verbs: words_given(alloc, document, "verbs")?,
        resources: resources_given(alloc, document)?,
        names: words_given(alloc, document, "names")?,
        urls: words_given(alloc, document, "urls")?,
    })
}
