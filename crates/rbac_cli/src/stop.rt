//! What stops an answer.

ghost use Rattle.std.specs.Prelude.{◌≡◌};
ghost use Rattle.rbac_cli.specs.Printing.{fault_at};

use crate::outcome::RunFault;
use rbac_index::IndexFault;
use rbac_matrix::MatrixFault;
use rbac_streams::{Page, PrintFault};
use rbac_token::TokenFault;
use rbac_universe::UniverseFault;
use std::alloc::{AllocError, AllocFailed};

/// What stops an answer. The page knows how much was written by then: see [`Stop::fault`].
#[derive(Clone, Copy, Drop)]
pub(crate) enum Stop {
    /// The lists that were loaded make no universe. Out of memory is `NoMemory`.
    NoUniverse(UniverseFault),
    /// Out of memory.
    NoMemory,
    /// A write failed.
    SinkFailed,
}

impl Stop {
    // The fault of a run that was stopped so. The page knows how much was written.
    pub(crate) fn fault(self, page: &Page) -> RunFault
        ensures { result ≡ fault_at page.now self }
    {
        let written = page.written();
        match self {
            Stop::NoUniverse(fault) => RunFault::Universe(fault),
            Stop::NoMemory => RunFault::Memory { written },
            Stop::SinkFailed => RunFault::Write { written },
        }
    }
}

impl From<PrintFault> for Stop {
    ghost use Rattle.rbac_cli.specs.Printing.{print_stop};

    ghost from_gives = { λ fault stop. stop ≡ print_stop fault };

    fn from(fault: PrintFault) -> Self {
        match fault {
            PrintFault::SinkFailed => Stop::SinkFailed,
            PrintFault::NoMemory => Stop::NoMemory,
        }
    }
}

impl From<UniverseFault> for Stop {
    ghost use Rattle.rbac_cli.specs.Printing.{universe_stop};

    ghost from_gives = { λ fault stop. stop ≡ universe_stop fault };

    fn from(fault: UniverseFault) -> Self {
        match fault {
            UniverseFault::NoMemory => Stop::NoMemory,
            fault => Stop::NoUniverse(fault),
        }
    }
}

impl From<AllocError> for Stop {
    ghost use Rattle.rbac_cli.specs.declared.stop.Stop.TheVariants.{NoMemory};

    ghost from_gives = { λ _ stop. stop ≡ NoMemory };

    fn from(_: AllocError) -> Self {
        Stop::NoMemory
    }
}

impl<T: Drop> From<AllocFailed<T>> for Stop {
    ghost use Rattle.rbac_cli.specs.declared.stop.Stop.TheVariants.{NoMemory};

    ghost from_gives = { λ _ stop. stop ≡ NoMemory };

    fn from(_: AllocFailed<T>) -> Self {
        Stop::NoMemory
    }
}

impl From<IndexFault> for Stop {
    ghost use Rattle.rbac_cli.specs.declared.stop.Stop.TheVariants.{NoMemory};

    ghost from_gives = { λ _ stop. stop ≡ NoMemory };

    fn from(_: IndexFault) -> Self {
        Stop::NoMemory
    }
}

impl From<MatrixFault> for Stop {
    ghost use Rattle.rbac_cli.specs.declared.stop.Stop.TheVariants.{NoMemory};

    ghost from_gives = { λ _ stop. stop ≡ NoMemory };

    fn from(_: MatrixFault) -> Self {
        Stop::NoMemory
    }
}

// Making a token, unlike reading one, fails only if it runs out of memory.
impl From<TokenFault> for Stop {
    ghost use Rattle.rbac_cli.specs.declared.stop.Stop.TheVariants.{NoMemory};

    ghost from_gives = { λ _ stop. stop ≡ NoMemory };

    fn from(_: TokenFault) -> Self {
        Stop::NoMemory
    }
}
