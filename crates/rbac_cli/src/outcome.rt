//! How a run ends.

use rbac_manifest::LoadFault;
use rbac_universe::UniverseFault;
use std::error::Error;
use std::fmt;

/// The exit status of a run that gave its answer.
#[derive(Clone, Copy, Debug, PartialEq, Eq)]
pub enum Status {
    /// 0: `yes`, no findings, no changes, nothing unused, a path to TO, or the answer of any other
    /// command.
    Zero,
    /// 1: `no`, findings, changes, something unused, or no path to TO.
    One,
}

/// Why a run stopped. What was written up to then stays written.
#[derive(Clone, Copy, Debug, PartialEq, Eq)]
pub enum RunFault {
    /// The inputs were refused, and nothing was written.
    Load(LoadFault),
    /// The lists that were loaded make no universe for a matrix, or have too many resources for
    /// `universe`, and nothing was written. Out of memory is `Memory`.
    Universe(UniverseFault),
    /// Out of memory after this many bytes were written, at most `u128::MAX`.
    Memory { written: u128 },
    /// A write failed after this many bytes were written, at most `u128::MAX`.
    Write { written: u128 },
}

impl fmt::Display for RunFault {
    ghost use Rattle.std.specs.Prelude.{Some};
    ghost use Rattle.rbac_cli.specs.RunTexts.{run_fault_text};

    ghost output = { λ fault. Some (run_fault_text fault) };

    fn fmt<W: fmt::Write>(&self, f: &mut fmt::Formatter<W>) -> fmt::Result {
        match self {
            RunFault::Load(fault) => write!(f, "{fault}"),
            RunFault::Universe(fault) => write!(f, "{fault}"),
            RunFault::Memory { .. } => write!(f, "out of memory"),
            RunFault::Write { written } => write!(f, "write failed after {written} bytes"),
        }
    }
}

impl Error for RunFault {}
