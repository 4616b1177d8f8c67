//! Why a text wasn't read.

ghost use Rattle.std.specs.Prelude.{◌≡◌};

use std::alloc::{AllocError, AllocFailed};

/// Why a text wasn't read (own).
#[derive(Clone, Copy, Debug, Drop, PartialEq, Eq)]
pub enum ReadFault {
    /// `serde_json` doesn't read the text either: it isn't JSON, nests more than 127 deep, or has a
    /// number beyond the range of a float.
    Refused,
    /// Out of memory.
    NoMemory,
}

impl From<json::Invalid> for ReadFault {
    ghost use Rattle.json_list.specs.declared.fault.ReadFault.TheVariants.{Refused};

    ghost from_gives = { λ _ fault. fault ≡ Refused };

    fn from(_: json::Invalid) -> Self {
        ReadFault::Refused
    }
}

impl From<AllocError> for ReadFault {
    ghost use Rattle.json_list.specs.declared.fault.ReadFault.TheVariants.{NoMemory};

    ghost from_gives = { λ _ fault. fault ≡ NoMemory };

    fn from(_: AllocError) -> Self {
        ReadFault::NoMemory
    }
}

impl<T: Drop> From<AllocFailed<T>> for ReadFault {
    ghost use Rattle.json_list.specs.declared.fault.ReadFault.TheVariants.{NoMemory};

    ghost from_gives = { λ _ fault. fault ≡ NoMemory };

    fn from(_: AllocFailed<T>) -> Self {
        ReadFault::NoMemory
    }
}
