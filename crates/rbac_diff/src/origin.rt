//! Where a change comes from.

ghost use Rattle.std.specs.Prelude.{◌≡◌, IfOk};

use crate::change::ChangeKind;
use rbac_terms::Binding;
use std::alloc::{AllocError, Global};
use std::marker::Model;
use std::rc::Rc;

// Whether a permission is gained or lost, and by which binding. A binding can have millions of
// permissions, so each has only a pointer to what they share.
#[derive(Drop)]
pub(crate) struct Origin<'p> {
    shared: Rc<Shared<'p>>,
}

// What all permissions share that were found by one binding.
#[derive(Drop)]
struct Shared<'p> {
    kind: ChangeKind,
    binding: &'p Binding,
}

impl<'p> Model for Origin<'p> {
    ghost use Rattle.rbac_diff.specs.Listed.{OriginView};

    ghost Value = { OriginView };

    ghost view = { λ origin. record {
      kind = origin.shared.value.kind;
      binding = origin.shared.value.binding.now;
    } };
}

impl<'p> Origin<'p> {
    pub(crate) fn new(
        alloc: Global,
        kind: ChangeKind,
        binding: &'p Binding,
    ) -> Result<Self, AllocError>
        ensures { IfOk result (λ origin. origin ≡ record { kind = kind; binding = binding.now }) }
    {
        let shared = Rc::new(alloc, Shared { kind, binding })?;
        Ok(Origin { shared })
    }

    pub(crate) fn kind(&self) -> ChangeKind
        ensures { result ≡ self.now.kind }
    {
        self.shared.kind
    }

    pub(crate) fn binding(&self) -> &'p Binding
        ensures { result.now ≡ self.now.binding }
    {
        self.shared.binding
    }
}

impl<'p> Clone for Origin<'p> {
    ghost is_clone = { λ origin copy. copy ≡ origin };

    fn clone(&self) -> Result<Self, AllocError> {
        Ok(Origin {
            shared: self.shared.clone()?,
        })
    }
}
