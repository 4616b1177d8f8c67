//! Why a log is refused.

use crate::fault::LineFault;
use std::error::Error;
use std::fmt;

/// Why an audit log is refused (own). Lines are counted from 1. Out of memory is printed without a
/// line.
#[derive(Clone, Copy, Debug, Drop, PartialEq, Eq)]
pub enum LogFault {
    /// I1: a read failed, or the file couldn't be opened.
    ReadFault,
    /// I2: the line with this number has more than 67,108,864 bytes.
    LongLine(u128),
    /// I2: the log has 2^64 - 1 bytes or more.
    LongLog,
    /// Out of memory.
    NoMemory,
    /// The line with this number has this fault, which isn't out of memory.
    Line {
        /// The number of the line.
        number: u128,
        /// Its fault: G1 to G9.
        fault: LineFault,
    },
}

impl fmt::Display for LogFault {
    ghost use Rattle.std.specs.Prelude.{Some};
    ghost use Rattle.rbac_log.specs.FaultTexts.{log_fault_text};

    ghost output = { λ fault. Some (log_fault_text fault) };

    fn fmt<W: fmt::Write>(&self, f: &mut fmt::Formatter<W>) -> fmt::Result {
        match self {
            LogFault::ReadFault => write!(f, "I1 read fault"),
            LogFault::LongLine(number) => write!(f, "line {number}: I2 too long"),
            LogFault::LongLog => write!(f, "I2 too long"),
            LogFault::NoMemory => write!(f, "out of memory"),
            LogFault::Line { number, fault } => write!(f, "line {number}: {fault}"),
        }
    }
}

impl Error for LogFault {}
