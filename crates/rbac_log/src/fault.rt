//! Why a line of a log is refused.

ghost use Rattle.std.specs.Prelude.{◌≡◌};
ghost use Rattle.std.specs.Result.{result_map_both};
ghost use Rattle.rbac_log.specs.Outcome.{fault_for};
ghost use Rattle.rbac_log.specs.declared.fault.LineFault.TheVariants.{NoMemory};

use json_fields::Trouble;
use std::alloc::AllocError;
use std::error::Error;
use std::fmt;

/// Why a line of an audit log is refused (own). If an event has several faults, the one with the
/// least number is reported; of a list of events, the first one with a fault. A fault is printed as
/// its number and name; out of memory is printed without a number.
#[derive(Clone, Copy, Debug, Drop, PartialEq, Eq)]
pub enum LineFault {
    /// G1: the line isn't JSON.
    NotJson,
    /// G2: the line is no `Event` and no `EventList` of `audit.k8s.io/v1`, the items of a list
    /// aren't a list, or an item of it isn't an event.
    NotAnEvent,
    /// G3: the stage is missing, is empty or isn't a text.
    BadStage,
    /// G4: the annotations aren't an object, or the decision among them isn't a text.
    BadAnnotations,
    /// G5: the verb is missing, is empty or isn't a text.
    BadVerb,
    /// G6: the user is missing or has no name, or its groups aren't a list of texts.
    BadUser,
    /// G7: the impersonated user has no name, or its groups aren't a list of texts.
    BadImpersonatedUser,
    /// G8: the reference to an object isn't an object, or one of its fields that are read isn't a
    /// text.
    BadObjectRef,
    /// G9: the URI isn't a text.
    BadUri,
    /// Out of memory.
    NoMemory,
}

impl From<AllocError> for LineFault {
    ghost from_gives = { λ _ fault. fault ≡ NoMemory };

    fn from(_: AllocError) -> Self {
        LineFault::NoMemory
    }
}

impl fmt::Display for LineFault {
    ghost use Rattle.std.specs.Prelude.{Some};
    ghost use Rattle.rbac_log.specs.FaultTexts.{fault_text};

    ghost output = { λ fault. Some (fault_text fault) };

    fn fmt<W: fmt::Write>(&self, f: &mut fmt::Formatter<W>) -> fmt::Result {
        let text = match self {
            LineFault::NotJson => "G1 not JSON",
            LineFault::NotAnEvent => "G2 not an audit event",
            LineFault::BadStage => "G3 bad stage",
            LineFault::BadAnnotations => "G4 bad annotations",
            LineFault::BadVerb => "G5 bad verb",
            LineFault::BadUser => "G6 bad user",
            LineFault::BadImpersonatedUser => "G7 bad impersonatedUser",
            LineFault::BadObjectRef => "G8 bad objectRef",
            LineFault::BadUri => "G9 bad requestURI",
            LineFault::NoMemory => "out of memory",
        };
        f.write_str(text)
    }
}

impl Error for LineFault {}

// What was read, or why the line is refused: the fault `refused` if the shape of what was read is
// wrong, otherwise out of memory.
pub(crate) fn read_or<T: Drop>(read: Result<T, Trouble>, refused: LineFault) -> Result<T, LineFault>
    ensures { result ≡ result_map_both (λ value. value) (λ trouble. fault_for trouble refused) read }
{
    match read {
        Ok(value) => Ok(value),
        Err(Trouble::Shape) => Err(refused),
        Err(Trouble::Memory) => Err(LineFault::NoMemory),
    }
}
