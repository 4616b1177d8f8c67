//! Numbers of grants, ascending.

ghost use Rattle.std.specs.Prelude.{◌≡◌, ◌<◌, ◌++◌, ◌∷◌, [], ℕ, All, Contains, OnOk, ◌↔◌};
ghost use Rattle.std.specs.List.Sorted.{IsStrictlyIncreasing, IsSorted};
ghost use Rattle.std.specs.Ordering.{nat_cmp};

use std::alloc::{AllocError, Global};
use std::marker::Model;

/// Numbers of grants, ascending, each once.
#[derive(Drop)]
pub struct GrantNos {
    items: Vec<u32>,
}

impl Model for GrantNos {
    ghost use Rattle.std.specs.Prelude.{ℕ, List};
    ghost use Rattle.std.specs.List.Sorted.{IsStrictlyIncreasing};

    ghost Value = { List ℕ };

    ghost view = { λ ns. ns.items.items };

    ghost invariant = { λ ns. IsStrictlyIncreasing ns.items.items };
}

impl GrantNos {
    // No numbers. Doesn't allocate.
    pub(crate) fn new(alloc: Global) -> Self
        ensures { result ≡ [] }
    {
        GrantNos {
            items: Vec::new(alloc),
        }
    }

    // These numbers, each once. They are sorted, so repeats are adjacent. Doesn't allocate.
    pub(crate) fn from_sorted(mut items: Vec<u32>) -> Self
        requires { IsSorted nat_cmp items.items }
        ensures ascending { IsStrictlyIncreasing result }
        ensures same { (n : ℕ) → Contains result n ↔ Contains items.items n }
    {
        items.dedup();
        GrantNos { items }
    }

    /// The numbers, in order.
    pub fn as_slice(&self) -> &[u32]
        ensures numbers { result.now ≡ self.now }
        ensures ascending { IsStrictlyIncreasing self.now }
    {
        self.items.as_slice()
    }

    // Adds a number, which is greater than all others, at the end.
    pub(crate) fn push(&mut self, no: u32) -> Result<(), AllocError>
        requires { All (λ n. n < no) self.old }
        ensures { OnOk result (self.new ≡ self.old ++ no ∷ []) }
    {
        self.items.push(no)?;
        Ok(())
    }
}
