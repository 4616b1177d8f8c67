//! What one document gives, or why the document is refused.

ghost use Rattle.std.specs.Prelude.{◌≡◌, ◌≢◌, ◌++◌, Some, None, IfOk, IfErr, OnOk, option_map};
ghost use Rattle.std.specs.Option.{option_to_list};
ghost use Rattle.serde_json.specs.View.{view};
ghost use Rattle.rbac_manifest.specs.Document.{namespace_or_default, role_in, cluster_role_in};
ghost use Rattle.rbac_manifest.specs.Document.{binding_in, account_from, content_in, fault, stands};
ghost use Rattle.rbac_manifest.specs.Document.{first_of, binding_refusals, bad_header, bad_body};
ghost use Rattle.rbac_manifest.specs.Metadata.{metadata_at};
ghost use Rattle.rbac_manifest.specs.Reads.{Loads, Gives};
ghost use Rattle.rbac_manifest.specs.declared.fault.Cause.{Cause};
ghost use Rattle.rbac_manifest.specs.declared.fault.Cause.TheVariants.{NoMemory};
ghost use Rattle.rbac_manifest.specs.declared.kind.Kind.TheVariants as kinds;

use crate::api_list::entries_of;
use crate::binding::role_ref_of;
use crate::content::Content;
use crate::fault::{Cause, read_or};
use crate::group::membership_of;
use crate::kind::{Implied, Kind, kind_of};
use crate::metadata::{Metadata, metadata_of};
use crate::rule::read_rules;
use crate::selector::aggregation_of;
use crate::subject::subjects_of;
use crate::universe_document::given_lists_of;
use json_fields::word_of;
use rbac_lists::Account;
use rbac_model::Object;
use rbac_terms::{Binding, ClusterRole, Role, Word};
use serde_json::Value;
use std::alloc::{AllocError, Global};

// The namespace of an object, or `default` if none is given.
#[tactic(auto, unfolding(crate::specs::Document::namespace_or_default))]
fn namespace_or_default(alloc: Global, namespace: Word) -> Result<Word, AllocError>
    ensures { IfOk result (λ w. w ≡ namespace_or_default namespace) }
{
    if namespace.as_bytes().is_empty() {
        word_of(alloc, "default")
    } else {
        Ok(namespace)
    }
}

// The Role that a document gives.
#[tactic(auto, unfolding(crate::specs::Document::role_in))]
fn role_of(alloc: Global, document: &Value) -> Result<Role, Cause>
    ensures { Gives result (bad_body kinds.Role (view document.now)) (role_in (view document.now)) }
{
    let Metadata {
        name,
        namespace,
        ..
    } = metadata_of(alloc, document)?;
    let rules = read_rules(alloc, document, true)?;
    let namespace = namespace_or_default(alloc, namespace)?;
    Ok(Role {
        namespace,
        name,
        rules,
    })
}

// The ClusterRole that a document gives.
#[tactic(auto, unfolding(crate::specs::Document::cluster_role_in))]
fn cluster_role_of(alloc: Global, document: &Value) -> Result<ClusterRole, Cause>
    ensures { Gives result (bad_body kinds.ClusterRole (view document.now))
        (cluster_role_in (view document.now)) }
{
    let Metadata { name, labels, .. } = metadata_of(alloc, document)?;
    let rules = read_rules(alloc, document, false)?;
    let aggregation = aggregation_of(alloc, document)?;
    Ok(ClusterRole {
        name,
        labels,
        rules,
        aggregation,
    })
}

// The binding that a document gives: a RoleBinding if it is in a namespace, otherwise a
// ClusterRoleBinding.
#[tactic(auto, unfolding(crate::specs::Document::binding_in))]
fn binding_of(alloc: Global, document: &Value, in_namespace: bool) -> Result<Binding, Cause>
    ensures { Gives result (first_of (binding_refusals in_namespace (view document.now)))
        (binding_in in_namespace (view document.now)) }
{
    let Metadata {
        name,
        namespace,
        ..
    } = metadata_of(alloc, document)?;
    let role = role_ref_of(alloc, document, in_namespace)?;
    let subjects = subjects_of(alloc, document)?;
    let namespace = if in_namespace {
        Some(namespace_or_default(alloc, namespace)?)
    } else {
        None
    };
    Ok(Binding {
        namespace,
        name,
        role,
        subjects,
    })
}

// The name of a Namespace.
fn namespace_of(alloc: Global, document: &Value) -> Result<Word, Cause>
    ensures { Gives result (bad_body kinds.Namespace (view document.now))
        (option_map (λ m. m.name) (metadata_at (view document.now))) }
{
    let Metadata { name, .. } = metadata_of(alloc, document)?;
    Ok(name)
}

// The ServiceAccount that a document gives.
fn account_of(alloc: Global, document: &Value) -> Result<Account, Cause>
    ensures { Gives result (bad_body kinds.ServiceAccount (view document.now))
        (option_map account_from (metadata_at (view document.now))) }
{
    let Metadata {
        name,
        namespace,
        ..
    } = metadata_of(alloc, document)?;
    Ok(Account {
        namespace: namespace_or_default(alloc, namespace)?,
        name,
    })
}

// What a document of this kind gives.
#[tactic(auto, using(crate::proofs::Conditions::universe_is))]
fn content_of(alloc: Global, kind: Kind, document: &Value) -> Result<Option<Content>, Cause>
    ensures { Loads result (bad_body kind (view document.now))
        (content_in kind (view document.now)) }
{
    Ok(Some(match kind {
        Kind::Role => Content::Object(Object::Role(role_of(alloc, document)?)),
        Kind::ClusterRole => Content::Object(Object::ClusterRole(cluster_role_of(
            alloc, document,
        )?)),
        Kind::RoleBinding => Content::Object(Object::Binding(binding_of(alloc, document, true)?)),
        Kind::ClusterRoleBinding => Content::Object(Object::Binding(binding_of(
            alloc, document, false,
        )?)),
        Kind::Namespace => Content::Namespace(namespace_of(alloc, document)?),
        Kind::ServiceAccount => Content::Account(account_of(alloc, document)?),
        Kind::ApiList => Content::ApiList(entries_of(alloc, document)?),
        Kind::Universe => Content::Lists(read_or(
            given_lists_of(alloc, document),
            Cause::BadUniverse,
        )?),
        Kind::Group => Content::Membership(membership_of(alloc, document)?),
        Kind::List(_) | Kind::Other => return Ok(None),
    }))
}

// What a document gives. A bad kind or version is refused before anything is allocated.
#[tactic(auto, unfolding(crate::specs::Document::fault, crate::specs::Document::stands))]
fn document_of(alloc: Global, document: &Value, implied: Implied) -> Result<Option<Content>, Cause>
    ensures loads { Loads result (fault implied (view document.now))
        (stands implied (view document.now)) }
    ensures header { (cause : Cause) → bad_header implied (view document.now) ≡ Some cause
        → result ≡ Err cause }
{
    let kind = kind_of(document, implied)?;
    content_of(alloc, kind, document)
}

// Adds what a document gives to `contents`, if it gives anything.
pub(crate) fn take_document(
    alloc: Global,
    document: &Value,
    implied: Implied,
    contents: &mut Vec<Content>,
) -> Result<(), Cause>
    ensures sound { OnOk result (fault implied (view document.now) ≡ None) }
    ensures contents { OnOk result (contents.new.items
        ≡ contents.old.items ++ option_to_list (stands implied (view document.now))) }
    ensures refused { IfErr result
        (λ cause. cause ≢ NoMemory → fault implied (view document.now) ≡ Some cause) }
{
    if let Some(content) = document_of(alloc, document, implied)? {
        contents.push(content)?;
    }
    Ok(())
}
