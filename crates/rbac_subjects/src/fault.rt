//! Why a call into this crate fails.

ghost use Rattle.std.specs.Prelude.{◌≡◌};

use std::alloc::{AllocError, AllocFailed};
use std::error::Error;
use std::fmt;

/// Why an index can't be built or queried (own). It is printed as `out of memory`, without a
/// number.
#[derive(Debug, Drop, Clone, Copy, PartialEq, Eq)]
pub enum IndexFault {
    /// X1: out of memory.
    NoMemory,
}

impl From<AllocError> for IndexFault {
    ghost use Rattle.rbac_subjects.specs.declared.fault.IndexFault.TheVariants.{NoMemory};

    ghost from_gives = { λ _ fault. fault ≡ NoMemory };

    fn from(_: AllocError) -> Self {
        IndexFault::NoMemory
    }
}

impl<T: Drop> From<AllocFailed<T>> for IndexFault {
    ghost use Rattle.rbac_subjects.specs.declared.fault.IndexFault.TheVariants.{NoMemory};

    ghost from_gives = { λ _ fault. fault ≡ NoMemory };

    fn from(_: AllocFailed<T>) -> Self {
        IndexFault::NoMemory
    }
}

impl fmt::Display for IndexFault {
    ghost use Rattle.std.specs.Prelude.{Some, codes};

    ghost output = { λ _. Some (codes "out of memory") };

    fn fmt<W: fmt::Write>(&self, f: &mut fmt::Formatter<W>) -> fmt::Result {
        f.write_str("out of memory")
    }
}

impl Error for IndexFault {}
