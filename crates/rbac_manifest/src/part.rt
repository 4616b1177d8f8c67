//! Which members of a document are read.

ghost use Rattle.std.specs.Prelude.{◌≡◌, map};
ghost use Rattle.rbac_manifest.specs.Part.{is_among, object_names, list_names, metadata_names};
ghost use Rattle.rbac_manifest.specs.Part.{read_under};

use json_list::Kept;

// A part of a document, by what is read of it.
#[derive(Clone, Copy)]
pub(crate) enum Part {
    // A document: its metadata, and the members that are read as a whole.
    Document,
    // Its metadata: the name, the namespace and the labels.
    Metadata,
    // All of it.
    Whole,
}

// The members of roles and bindings that are read, besides the metadata.
const OBJECT_NAMES: &[&str] = &[
    "kind",
    "apiVersion",
    "roleRef",
    "subjects",
    "rules",
    "aggregationRule",
];

// The members of API resource lists, Universe documents and Groups that are read, besides those
// above.
const LIST_NAMES: &[&str] = &[
    "groupVersion",
    "resources",
    "principals",
    "namespaces",
    "verbs",
    "names",
    "urls",
    "users",
];

// The members of metadata that are read.
const METADATA_NAMES: &[&str] = &["name", "namespace", "labels"];

// Whether a name is one of these.
fn is_among(names: &[&str], name: &str) -> bool
    ensures { result ≡ is_among (map (λ known. known.now) names.now) name.now }
{
    for known in names {
        if name == *known {
            return true;
        }
    }
    false
}

// Whether a member of a role or a binding is read.
fn is_of_object(name: &str) -> bool
    ensures { result ≡ is_among object_names name.now }
{
    is_among(OBJECT_NAMES, name)
}

// Whether a member of an API resource list, a Universe document or a Group is read.
fn is_of_list(name: &str) -> bool
    ensures { result ≡ is_among list_names name.now }
{
    is_among(LIST_NAMES, name)
}

// Whether a member of metadata is read.
fn is_of_metadata(name: &str) -> bool
    ensures { result ≡ is_among metadata_names name.now }
{
    is_among(METADATA_NAMES, name)
}

impl Kept for Part {
    ghost under = { read_under };

    #[tactic(auto, unfolding(crate::specs::Part::read_under))]
    fn under(self, name: &str) -> Option<Self> {
        match self {
            Part::Document => {
                if name == "metadata" {
                    Some(Part::Metadata)
                } else if is_of_object(name) || is_of_list(name) {
                    Some(Part::Whole)
                } else {
                    None
                }
            }
            Part::Metadata => {
                if is_of_metadata(name) {
                    Some(Part::Whole)
                } else {
                    None
                }
            }
            Part::Whole => Some(Part::Whole),
        }
    }
}
