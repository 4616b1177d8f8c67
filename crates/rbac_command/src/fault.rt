//! Why a command line is refused.

ghost use Rattle.std.specs.Prelude.{◌≡◌};

use rbac_question::QuestionFault;
use std::alloc::AllocError;
use std::error::Error;
use std::fmt;

/// Why a command line is refused (own).
#[derive(Debug, Drop)]
pub enum UsageFault {
    /// U1: `clap` refused the words, or help or the version was asked for. `Display` gives `clap`'s
    /// text, and `use_stderr` whether it is a refusal.
    Refused(clap::Error),
    /// U2 to U12: the words are refused for what they mean; or out of memory.
    Question(QuestionFault),
}

impl From<AllocError> for UsageFault {
    ghost use Rattle.rbac_command.specs.declared.fault.UsageFault.TheVariants.{Question};
    ghost use Rattle.rbac_question.specs.declared.fault.QuestionFault.TheVariants.{NoMemory};

    ghost from_gives = { λ _ fault. fault ≡ Question NoMemory };

    fn from(_: AllocError) -> Self {
        UsageFault::Question(QuestionFault::NoMemory)
    }
}

impl From<QuestionFault> for UsageFault {
    ghost use Rattle.rbac_command.specs.declared.fault.UsageFault.TheVariants.{Question};

    ghost from_gives = { λ cause fault. fault ≡ Question cause };

    fn from(cause: QuestionFault) -> Self {
        UsageFault::Question(cause)
    }
}

impl fmt::Display for UsageFault {
    ghost use Rattle.rbac_command.specs.Faults.{usage_text};

    ghost output = { usage_text };

    fn fmt<W: fmt::Write>(&self, f: &mut fmt::Formatter<W>) -> fmt::Result {
        match self {
            UsageFault::Refused(error) => write!(f, "{error}"),
            UsageFault::Question(fault) => write!(f, "{fault}"),
        }
    }
}

impl Error for UsageFault {}
