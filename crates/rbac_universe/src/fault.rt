//! Why a universe can't be made.

ghost use Rattle.std.specs.Prelude.{◌≡◌};

use std::alloc::AllocError;
use std::error::Error;
use std::fmt;

/// Why lists don't make a universe (own). A fault is printed as the refusal's number and name; out
/// of memory is printed without a number.
#[derive(Debug, Drop, Clone, Copy, PartialEq, Eq)]
pub enum UniverseFault {
    /// P3: a listed resource whose text is empty or begins with a slash, or a listed URL that
    /// doesn't begin with a slash. Comes before P4, and applies even if there are no names.
    BadTarget,
    /// P4: more than 65,535 principals, namespaces or verbs, or more than 1,000,000 targets,
    /// counted without repeats.
    TooLarge,
    /// P5: out of memory.
    NoMemory,
}

impl From<AllocError> for UniverseFault {
    ghost use Rattle.rbac_universe.specs.declared.fault.UniverseFault.TheVariants.{NoMemory};

    ghost from_gives = { λ _ fault. fault ≡ NoMemory };

    fn from(_: AllocError) -> Self {
        UniverseFault::NoMemory
    }
}

impl fmt::Display for UniverseFault {
    ghost use Rattle.std.specs.Prelude.{Some};
    ghost use Rattle.rbac_universe.specs.Faults.{fault_text};

    ghost output = { λ fault. Some (fault_text fault) };

    fn fmt<W: fmt::Write>(&self, f: &mut fmt::Formatter<W>) -> fmt::Result {
        let text = match self {
            UniverseFault::BadTarget => "P3 bad target",
            UniverseFault::TooLarge => "P4 universe too large",
            UniverseFault::NoMemory => "out of memory",
        };
        f.write_str(text)
    }
}

impl Error for UniverseFault {}
