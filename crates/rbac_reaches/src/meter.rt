//! The count of entries that were read.

ghost use Rattle.std.specs.Prelude.{◌≡◌};
ghost use Rattle.rbac_reaches.specs.Reaches.{raised};

use std::marker::Model;

/// How many entries of reaches were read (own). The count saturates at the largest `u128`.
#[derive(Debug, Drop)]
pub struct Meter {
    reads: u128,
}

impl Model for Meter {
    ghost use Rattle.std.specs.Prelude.{ℕ};

    ghost Value = { ℕ };

    ghost view = { λ m. m.reads };
}

impl Meter {
    /// A meter with no reads. Doesn't allocate.
    pub fn new() -> Self
        ensures { result ≡ 0 }
    {
        Meter { reads: 0 }
    }

    /// How many entries were read. Doesn't allocate.
    pub fn count(&self) -> u128
        ensures { result ≡ self.now }
    {
        let Meter { reads } = self;
        *reads
    }

    // Counts one more read.
    pub(crate) fn raise(&mut self)
        ensures { self.new ≡ raised self.old 1 }
    {
        self.reads = self.reads.saturating_add(1);
    }
}
