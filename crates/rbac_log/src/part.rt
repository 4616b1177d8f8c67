//! Which members of a line's values are read.

ghost use Rattle.std.specs.Prelude.{◌≡◌};
ghost use Rattle.rbac_log.specs.Part.{is_of_event, is_of_field, read_under};

use json_list::{Kept, is_among};

// A part of a line, by what is read of it.
#[derive(Clone, Copy)]
pub(crate) enum Part {
    // An event, or a list of events.
    Event,
    // A field of an event.
    Field,
}

// The fields of an event that are read.
const EVENT_NAMES: &[&str] = &[
    "kind",
    "apiVersion",
    "stage",
    "requestURI",
    "verb",
    "user",
    "impersonatedUser",
    "objectRef",
    "responseStatus",
    "annotations",
];

// The members of these fields that are read.
const FIELD_NAMES: &[&str] = &[
    "username",
    "groups",
    "apiGroup",
    "resource",
    "subresource",
    "namespace",
    "name",
    "code",
    "authorization.k8s.io/decision",
];

// Whether a field of an event is read.
fn is_of_event(name: &str) -> bool
    ensures { result ≡ is_of_event name.now }
{
    is_among(EVENT_NAMES, name)
}

// Whether a member of a field is read.
fn is_of_field(name: &str) -> bool
    ensures { result ≡ is_of_field name.now }
{
    is_among(FIELD_NAMES, name)
}

impl Kept for Part {
    ghost under = { read_under };

    #[tactic(auto, unfolding(crate::specs::Part::read_under))]
    fn under(self, name: &str) -> Option<Self> {
        match self {
            Part::Event => {
                if name == "items" {
                    Some(Part::Event)
                } else if is_of_event(name) {
                    Some(Part::Field)
                } else {
                    None
                }
            }
            Part::Field => {
                if is_of_field(name) {
                    Some(Part::Field)
                } else {
                    None
                }
            }
        }
    }
}
