//! Why a text isn't a token.

ghost use Rattle.std.specs.Prelude.{◌≡◌};

use rbac_terms::ModelFault;
use std::alloc::{AllocError, AllocFailed};
use std::error::Error;
use std::fmt;

/// Why a text isn't the token of a key or of a mark (own). A fault is printed as the refusal's
/// number and name; out of memory is printed without a number.
#[derive(Debug, Drop, Clone, Copy, PartialEq, Eq)]
pub enum TokenFault {
    /// K1: the text isn't unpadded URL-safe base64.
    NotBase64,
    /// K2: the encoded bytes before the first tab, or all bytes if there is no tab, aren't a
    /// version: a key's token has `1`, and a mark's `1` or `2`.
    BadVersion,
    /// K3: no key or mark is printed as these bytes.
    NotCanonical,
    /// K4: out of memory.
    NoMemory,
}

impl From<AllocError> for TokenFault {
    ghost use Rattle.rbac_token.specs.declared.fault.TokenFault.TheVariants.{NoMemory};

    ghost from_gives = { λ _ fault. fault ≡ NoMemory };

    fn from(_: AllocError) -> Self {
        TokenFault::NoMemory
    }
}

impl<T: Drop> From<AllocFailed<T>> for TokenFault {
    ghost use Rattle.rbac_token.specs.declared.fault.TokenFault.TheVariants.{NoMemory};

    ghost from_gives = { λ _ fault. fault ≡ NoMemory };

    fn from(_: AllocFailed<T>) -> Self {
        TokenFault::NoMemory
    }
}

impl From<ModelFault> for TokenFault {
    ghost use Rattle.rbac_token.specs.Faults.{token_fault};

    ghost from_gives = { λ cause fault. fault ≡ token_fault cause };

    fn from(cause: ModelFault) -> Self {
        match cause {
            ModelFault::EmptyName | ModelFault::BadTarget => TokenFault::NotCanonical,
            ModelFault::NoMemory => TokenFault::NoMemory,
        }
    }
}

impl fmt::Display for TokenFault {
    ghost use Rattle.std.specs.Prelude.{Some};
    ghost use Rattle.rbac_token.specs.Faults.{fault_text};

    ghost output = { λ fault. Some (fault_text fault) };

    fn fmt<W: fmt::Write>(&self, f: &mut fmt::Formatter<W>) -> fmt::Result {
        let text = match self {
            TokenFault::NotBase64 => "K1 not base64",
            TokenFault::BadVersion => "K2 bad version",
            TokenFault::NotCanonical => "K3 not canonical",
            TokenFault::NoMemory => "out of memory",
        };
        f.write_str(text)
    }
}

impl Error for TokenFault {}
