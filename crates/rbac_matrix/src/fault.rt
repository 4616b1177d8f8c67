//! Why a row's key can't be made.

ghost use Rattle.std.specs.Prelude.{◌≡◌};

use rbac_terms::ModelFault;
use std::error::Error;
use std::fmt;

/// Why the key of a row can't be made (own). It is printed as `out of memory`, without a number.
#[derive(Debug, Drop, Clone, Copy, PartialEq, Eq)]
pub enum MatrixFault {
    /// Y1: out of memory.
    NoMemory,
}

impl From<ModelFault> for MatrixFault {
    ghost use Rattle.rbac_matrix.specs.declared.fault.MatrixFault.TheVariants.{NoMemory};

    ghost from_gives = { λ _ fault. fault ≡ NoMemory };

    fn from(_: ModelFault) -> Self {
        MatrixFault::NoMemory
    }
}

impl fmt::Display for MatrixFault {
    ghost use Rattle.std.specs.Prelude.{Some, codes};

    ghost output = { λ _. Some (codes "out of memory") };

    fn fmt<W: fmt::Write>(&self, f: &mut fmt::Formatter<W>) -> fmt::Result {
        f.write_str("out of memory")
    }
}

impl Error for MatrixFault {}
