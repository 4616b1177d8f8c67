//! Why a request is allowed.

ghost use Rattle.std.specs.Prelude.{MatchOption};
ghost use Rattle.rbac_terms.specs.Granting.{Names};
ghost use Rattle.rbac_terms.specs.declared.granting.Subject.{Subject};
ghost use Rattle.rbac_model.specs.Lists.{IsFirstAt};
ghost use Rattle.rbac_model.specs.Policies.{BindingNames};

use crate::references::SourceRole;
use rbac_terms::{Binding, Principal, names};

/// Why a request is allowed (own): the first grant that allows it, by its binding and the place
/// where its rule is written, and the first subject of the binding that names the principal.
#[derive(Clone, Copy)]
pub struct Why<'p> {
    /// The binding that grants.
    pub binding: &'p Binding,
    /// The role where the rule is written.
    pub source: SourceRole<'p>,
    /// The place of the rule in that role, from 0.
    pub rule_place: usize,
    /// The place, among the binding's subjects, of the first one that names the principal, from 0.
    pub subject_place: usize,
}

/// The place, from 0, of the binding's first subject that names the principal; `None` if none does.
/// Doesn't allocate.
pub fn naming_place(binding: &Binding, principal: &Principal) -> Option<usize>
    ensures { MatchOption result (¬ BindingNames binding.now principal.now)
        (λ at. (s : Subject)
        × IsFirstAt (λ s. Names s binding.now.namespace principal.now) binding.now.subjects at s) }
{
    let namespace = binding.namespace.as_ref();
    for (place, subject) in binding.subjects.as_slice().iter().enumerate() {
        if names(subject, namespace, principal) {
            return Some(place);
        }
    }
    None
}
