//! What is kept of a value that is read.

ghost use Rattle.std.specs.Prelude.{◌≡◌, ℕ, List, Option, Some, map};
ghost use Rattle.json_list.specs.Lean.{is_among};

/// What is kept of a value: which members of an object, and what of each of them. A member that is
/// left out is read as well, so that whatever `serde_json` refuses is refused, but no value is made
/// of it.
pub trait Kept: Copy {
    ghost under: { Self → List ℕ → Option Self };

    /// What is kept of the value of a member of this name; `None` if the member is left out (own).
    fn under(self, name: &str) -> Option<Self>
        ensures { result ≡ under self name.now };
}

// All of a value.
#[derive(Clone, Copy)]
pub(crate) struct Whole;

impl Kept for Whole {
    ghost under = { λ whole name. Some whole };

    fn under(self, _name: &str) -> Option<Self> {
        Some(self)
    }
}

/// Whether a name is one of these (own). Doesn't allocate.
pub fn is_among(names: &[&str], name: &str) -> bool
    ensures { result ≡ is_among (map (λ known. known.now) names.now) name.now }
{
    for known in names {
        if name == *known {
            return true;
        }
    }
    false
}
