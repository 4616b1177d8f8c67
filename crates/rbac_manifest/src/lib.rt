//! Reads Kubernetes manifests in JSON, as `kubectl get -o json` and `kubectl get --raw` write them,
//! into the objects of the RBAC API and the policy that follows from them, the catalogue of API
//! resources, the lists that a universe is made of, and the members of groups.
#![tactic(auto)]

mod api_list;
mod binding;
mod change;
mod content;
mod contents;
mod copies;
mod document;
mod document_list;
mod fault;
mod group;
mod kind;
mod label;
mod laws;
mod loaded;
mod loading;
mod metadata;
mod names;
mod part;
mod replacement;
mod rule;
mod selector;
mod subject;
mod universe_document;
mod whole;

pub use change::changed;
pub use fault::{At, Cause, LoadFault};
pub use laws::{
    load_faults_are_one, loaded_inputs_are_one, loaded_inputs_have_no_fault,
    resolved_policies_are_one, resolved_policies_have_no_fault, unread_members_say_nothing,
};
pub use loaded::{Loaded, load};
pub use loading::{Export, load_export, load_objects, load_policy};
pub use rbac_catalogue::{Catalogue, Found};
pub use rbac_groups::Membership;
pub use rbac_streams::Input;
pub use rbac_universe::{
    ListedResource, ListedResources, Principals, Universe, UniverseFault, UniverseLists,
};
pub use replacement::Replaced;
