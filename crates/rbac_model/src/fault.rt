//! Why a policy can't be made.

ghost use Rattle.std.specs.Prelude.{◌≡◌};

use std::alloc::{AllocError, AllocFailed};
use std::error::Error;
use std::fmt;

/// Why objects don't resolve to a policy (own). A fault is printed as the refusal's number and
/// name; out of memory is printed without a number.
#[derive(Debug, Drop, Clone, Copy, PartialEq, Eq)]
pub enum ResolveFault {
    /// P2: more than a million grants.
    TooMany,
    /// P5: out of memory.
    NoMemory,
}

impl From<AllocError> for ResolveFault {
    ghost use Rattle.rbac_model.specs.declared.fault.ResolveFault.TheVariants.{NoMemory};

    ghost from_gives = { λ _ fault. fault ≡ NoMemory };

    fn from(_: AllocError) -> Self {
        ResolveFault::NoMemory
    }
}

impl<T: Drop> From<AllocFailed<T>> for ResolveFault {
    ghost use Rattle.rbac_model.specs.declared.fault.ResolveFault.TheVariants.{NoMemory};

    ghost from_gives = { λ _ fault. fault ≡ NoMemory };

    fn from(_: AllocFailed<T>) -> Self {
        ResolveFault::NoMemory
    }
}

impl fmt::Display for ResolveFault {
    ghost use Rattle.std.specs.Prelude.{Some};
    ghost use Rattle.rbac_model.specs.Faults.{fault_text};

    ghost output = { λ fault. Some (fault_text fault) };

    fn fmt<W: fmt::Write>(&self, f: &mut fmt::Formatter<W>) -> fmt::Result {
        let text = match self {
            ResolveFault::TooMany => "P2 too many grants",
            ResolveFault::NoMemory => "out of memory",
        };
        f.write_str(text)
    }
}

impl Error for ResolveFault {}
