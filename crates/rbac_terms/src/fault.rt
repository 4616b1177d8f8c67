//! Why a term can't be made.

ghost use Rattle.std.specs.Prelude.{◌≡◌};

use std::alloc::{AllocError, AllocFailed};
use std::error::Error;
use std::fmt;

/// Why a principal, a target or a key can't be made, or why putting an object fails (own). A fault
/// is printed as the refusal's number and name; out of memory is printed without a number.
#[derive(Debug, Drop, Clone, Copy, PartialEq, Eq)]
pub enum ModelFault {
    /// P1: a principal without a name.
    EmptyName,
    /// P3: a resource text that is empty or begins with a slash, or a URL that doesn't begin with a
    /// slash.
    BadTarget,
    /// P5: out of memory.
    NoMemory,
}

impl From<AllocError> for ModelFault {
    ghost use Rattle.rbac_terms.specs.declared.fault.ModelFault.TheVariants.{NoMemory};

    ghost from_gives = { λ _ fault. fault ≡ NoMemory };

    fn from(_: AllocError) -> Self {
        ModelFault::NoMemory
    }
}

impl<T: Drop> From<AllocFailed<T>> for ModelFault {
    ghost use Rattle.rbac_terms.specs.declared.fault.ModelFault.TheVariants.{NoMemory};

    ghost from_gives = { λ _ fault. fault ≡ NoMemory };

    fn from(_: AllocFailed<T>) -> Self {
        ModelFault::NoMemory
    }
}

impl fmt::Display for ModelFault {
    ghost use Rattle.std.specs.Prelude.{Some};
    ghost use Rattle.rbac_terms.specs.Faults.{fault_text};

    ghost output = { λ fault. Some (fault_text fault) };

    fn fmt<W: fmt::Write>(&self, f: &mut fmt::Formatter<W>) -> fmt::Result {
        let text = match self {
            ModelFault::EmptyName => "P1 empty name",
            ModelFault::BadTarget => "P3 bad target",
            ModelFault::NoMemory => "out of memory",
        };
        f.write_str(text)
    }
}

impl Error for ModelFault {}
