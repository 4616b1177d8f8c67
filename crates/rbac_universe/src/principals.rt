//! One principal for each key, with all groups that are given under this key.

use crate::unions::Unites;
use rbac_terms::Principal;
use std::alloc::AllocError;
use std::cmp::Ordering;

impl Unites for Principal {
    ghost use Rattle.std.specs.Prelude.{Contains};
    ghost use Rattle.rbac_terms.specs.Principals.{given_of};
    ghost use Rattle.rbac_model.specs.Unions.{who_texts};

    ghost name = { who_texts };

    ghost has = { λ who group. Contains (given_of who) group };

    fn cmp_name(&self, other: &Self) -> Ordering {
        self.key().cmp(other.key())
    }

    fn unite(&mut self, more: Self) -> Result<(), AllocError> {
        self.give(more)
    }
}
