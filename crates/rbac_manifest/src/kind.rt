//! Kinds and versions of documents.

ghost use Rattle.std.specs.Prelude.{◌≡◌, ◌≢◌, IfErr, MatchOption, map, option_map};
ghost use Rattle.std.specs.List.{list_any};
ghost use Rattle.serde_json.specs.View.{view};
ghost use Rattle.rbac_manifest.specs.Kinds.{as_reading, kinds_read, is_row, meaning_in};
ghost use Rattle.rbac_manifest.specs.Kinds.{implied_kind, implied_version, kind_at, asks_version};
ghost use Rattle.rbac_manifest.specs.Kinds.{needs_version, version_read, version_at, kind_named};
ghost use Rattle.rbac_manifest.specs.Kinds.{kind_of};
ghost use Rattle.rbac_manifest.specs.Document.{bad_header};
ghost use Rattle.rbac_manifest.specs.DocumentList.{IsListOf};
ghost use Rattle.rbac_manifest.specs.Reads.{Loads};
ghost use Rattle.rbac_manifest.specs.declared.fault.Cause.TheVariants.{NoMemory};
ghost use Rattle.rbac_manifest.specs.declared.kind.Implied.{Implied};

use crate::fault::Cause;
use json_fields::field;
use rbac_terms::{
    CLUSTER_ROLE, CLUSTER_ROLE_BINDING, NAMESPACE, ROLE, ROLE_BINDING, SERVICE_ACCOUNT,
};
use serde_json::Value;

// The RBAC group, followed by `$rest`.
macro_rules! rbac_group {
    ($rest:literal) => {
        concat!("rbac.authorization.k8s.io", $rest)
    };
}

pub(crate) const RBAC_GROUP: &str = rbac_group!("");

// The version of the RBAC group that the table names. The older `RBAC_V1BETA1` is read as this one.
const RBAC_V1: &str = rbac_group!("/v1");

const RBAC_V1BETA1: &str = rbac_group!("/v1beta1");

const RBAC_PREFIX: &str = rbac_group!("/");

// The version of OpenShift's users and groups, which no API of Kubernetes has.
const USERS_V1: &str = "user.openshift.io/v1";

const GROUP: &str = "Group";

// A pair of version and kind that is read, and what a document with this pair is.
#[derive(Drop)]
struct Row {
    version: &'static str,
    kind: &'static str,
    means: Kind,
}

// The pairs that are read, with versions as `version_read` gives them.
const KINDS_READ: &[Row] = &[
    Row {
        version: RBAC_V1,
        kind: ROLE,
        means: Kind::Role,
    },
    Row {
        version: RBAC_V1,
        kind: CLUSTER_ROLE,
        means: Kind::ClusterRole,
    },
    Row {
        version: RBAC_V1,
        kind: ROLE_BINDING,
        means: Kind::RoleBinding,
    },
    Row {
        version: RBAC_V1,
        kind: CLUSTER_ROLE_BINDING,
        means: Kind::ClusterRoleBinding,
    },
    Row {
        version: RBAC_V1,
        kind: "RoleList",
        means: Kind::List(Implied::Role),
    },
    Row {
        version: RBAC_V1,
        kind: "ClusterRoleList",
        means: Kind::List(Implied::ClusterRole),
    },
    Row {
        version: RBAC_V1,
        kind: "RoleBindingList",
        means: Kind::List(Implied::RoleBinding),
    },
    Row {
        version: RBAC_V1,
        kind: "ClusterRoleBindingList",
        means: Kind::List(Implied::ClusterRoleBinding),
    },
    Row {
        version: "v1",
        kind: "List",
        means: Kind::List(Implied::Nothing),
    },
    Row {
        version: "v1",
        kind: NAMESPACE,
        means: Kind::Namespace,
    },
    Row {
        version: "v1",
        kind: SERVICE_ACCOUNT,
        means: Kind::ServiceAccount,
    },
    Row {
        version: "v1",
        kind: "NamespaceList",
        means: Kind::List(Implied::Namespace),
    },
    Row {
        version: "v1",
        kind: "ServiceAccountList",
        means: Kind::List(Implied::ServiceAccount),
    },
    Row {
        version: "v1",
        kind: "APIResourceList",
        means: Kind::ApiList,
    },
    Row {
        version: "rbacaudit/v1",
        kind: "Universe",
        means: Kind::Universe,
    },
    Row {
        version: USERS_V1,
        kind: GROUP,
        means: Kind::Group,
    },
    Row {
        version: USERS_V1,
        kind: "GroupList",
        means: Kind::List(Implied::Group),
    },
];

fn kinds_read() -> &'static [Row]
    ensures { map as_reading result.now ≡ kinds_read }
{
    KINDS_READ
}

// What a list implies about the kind and version of its documents.
#[derive(Clone, Copy, Drop, PartialEq, Eq)]
pub(crate) enum Implied {
    Nothing,
    Role,
    ClusterRole,
    RoleBinding,
    ClusterRoleBinding,
    Namespace,
    ServiceAccount,
    Group,
}

// What a document is.
#[derive(Clone, Copy, Drop)]
pub(crate) enum Kind {
    Role,
    ClusterRole,
    RoleBinding,
    ClusterRoleBinding,
    Namespace,
    ServiceAccount,
    // A list of API resources, which isn't a list of documents.
    ApiList,
    // Lists of a universe.
    Universe,
    // The members of a group.
    Group,
    List(Implied),
    // Passed over.
    Other,
}

impl Implied {
    fn kind(self) -> Option<&'static str>
        ensures { option_map (λ s. s.now) result ≡ implied_kind self }
    {
        match self {
            Implied::Nothing => None,
            Implied::Role => Some(ROLE),
            Implied::ClusterRole => Some(CLUSTER_ROLE),
            Implied::RoleBinding => Some(ROLE_BINDING),
            Implied::ClusterRoleBinding => Some(CLUSTER_ROLE_BINDING),
            Implied::Namespace => Some(NAMESPACE),
            Implied::ServiceAccount => Some(SERVICE_ACCOUNT),
            Implied::Group => Some(GROUP),
        }
    }

    fn version(self) -> Option<&'static str>
        ensures { option_map (λ s. s.now) result ≡ implied_version self }
    {
        match self {
            Implied::Nothing => None,
            Implied::Role
            | Implied::ClusterRole
            | Implied::RoleBinding
            | Implied::ClusterRoleBinding => Some(RBAC_V1),
            Implied::Namespace | Implied::ServiceAccount => Some("v1"),
            Implied::Group => Some(USERS_V1),
        }
    }
}

// The text of a document's kind: its own, or the implied one if its own is missing.
#[tactic(auto, unfolding(crate::specs::Kinds::kind_at))]
fn kind_text<'v>(document: &'v Value, implied: Implied) -> Option<&'v str>
    ensures { option_map (λ s. s.now) result ≡ kind_at implied (view document.now) }
{
    match field(document, "kind") {
        Some(kind) => kind.as_str(),
        None => implied.kind(),
    }
}

// Whether a document of this kind is refused if it has no version and no list implies one.
#[tactic(auto, unfolding(crate::specs::Kinds::needs_version))]
fn needs_version(kind: &str) -> bool
    ensures { result ≡ needs_version kind.now }
{
    some_asks_version(kinds_read(), kind)
}

// Whether one of these rows is of this kind and needs a version.
fn some_asks_version(rows: &[Row], kind: &str) -> bool
    ensures { result ≡ list_any (asks_version kind.now) (map as_reading rows.now) }
{
    for row in rows {
        if asks_version(row, kind) {
            return true;
        }
    }
    false
}

// Whether this row is of this kind and needs a version.
fn asks_version(row: &Row, kind: &str) -> bool
    ensures { result ≡ asks_version kind.now (as_reading row.now) }
{
    row.kind == kind && !matches!(row.means, Kind::ApiList)
}

// A version as it is read. In the RBAC group, v1beta1 is read as v1, and versions other than these
// two give `None`.
#[tactic(auto, unfolding(crate::specs::Kinds::version_read))]
fn version_read(version: &str) -> Option<&str>
    ensures { option_map (λ s. s.now) result ≡ version_read version.now }
{
    if !version.as_bytes().starts_with(RBAC_PREFIX.as_bytes()) {
        return Some(version);
    }
    if version == RBAC_V1 || version == RBAC_V1BETA1 {
        return Some(RBAC_V1);
    }
    None
}

// The text of a document's version as it is read: its own, or the implied one if its own is
// missing. If both are missing, `v1` if the kind doesn't need a version.
#[tactic(auto, unfolding(crate::specs::Kinds::version_at))]
fn version_text<'v>(document: &'v Value, implied: Implied, kind: &str) -> Option<&'v str>
    ensures { option_map (λ s. s.now) result ≡ version_at implied kind.now (view document.now) }
{
    match field(document, "apiVersion") {
        Some(version) => match version.as_str() {
            Some(version) => version_read(version),
            None => None,
        },
        None => match implied.version() {
            Some(version) => Some(version),
            None if needs_version(kind) => None,
            None => Some("v1"),
        },
    }
}

// What a document of this version and kind is.
#[tactic(auto, unfolding(crate::specs::Kinds::kind_named))]
pub(crate) fn kind_named(version: &str, kind: &str) -> Kind
    ensures { result ≡ kind_named version.now kind.now }
{
    meaning_in(kinds_read(), version, kind)
}

// Whether this row is the one for this version and kind.
fn is_row(row: &Row, version: &str, kind: &str) -> bool
    ensures { result ≡ is_row version.now kind.now (as_reading row.now) }
{
    row.version == version && row.kind == kind
}

// What a document of this version and kind is according to these rows.
fn meaning_in(rows: &[Row], version: &str, kind: &str) -> Kind
    ensures { result ≡ meaning_in (map as_reading rows.now) version.now kind.now }
{
    for row in rows {
        if is_row(row, version, kind) {
            return row.means;
        }
    }
    Kind::Other
}

// The kind of a document, or M2 or M3 for its kind and version. Doesn't allocate.
#[tactic(auto, unfolding(crate::specs::Document::bad_header, crate::specs::Document::not_an_object, crate::specs::Document::bad_version, crate::specs::Kinds::kind_of))]
pub(crate) fn kind_of(document: &Value, implied: Implied) -> Result<Kind, Cause>
    ensures loads { Loads result (bad_header implied (view document.now))
        (kind_of implied (view document.now)) }
    ensures always { IfErr result (λ e. e ≢ NoMemory) }
{
    if !document.is_object() {
        return Err(Cause::NotAnObject);
    }
    let Some(kind) = kind_text(document, implied) else {
        return Err(Cause::NotAnObject);
    };
    let Some(version) = version_text(document, implied, kind) else {
        return Err(Cause::BadVersion);
    };
    Ok(kind_named(version, kind))
}

// What a document implies about its items, if it is a list with a valid kind and version.
pub(crate) fn list_kind(document: &Value) -> Option<Implied>
    ensures { MatchOption result
        ((implied : Implied) → IsListOf implied (view document.now) → ⊥)
        (λ implied. IsListOf implied (view document.now)) }
{
    match kind_of(document, Implied::Nothing) {
        Ok(Kind::List(implied)) => Some(implied),
        _ => None,
    }
}
