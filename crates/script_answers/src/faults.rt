//! The reasons why a text is rejected.

use std::alloc::{AllocError, AllocFailed};
use std::error::Error;
use std::fmt;

/// The reason why a text is neither a key nor an action of an answer.
#[derive(Clone, Copy, Debug, PartialEq, Eq)]
pub enum LineFault {
    /// A text that is neither a call as in the transcript, nor the first words of a call followed by `*`.
    NoCall,
    /// A text that is not an action, or is spelled differently from the transcript.
    NoAct,
    /// Out of memory.
    Memory,
}

impl fmt::Display for LineFault {
    ghost use Rattle.std.specs.Prelude.{Some};
    ghost use Rattle.script_answers.specs.Faults.{fault_text};

    ghost output = { λ fault. Some (fault_text fault) };

    fn fmt<W: fmt::Write>(&self, f: &mut fmt::Formatter<W>) -> fmt::Result {
        f.write_str(match self {
            LineFault::NoCall => "not a call",
            LineFault::NoAct => "not an action",
            LineFault::Memory => "memory",
        })
    }
}

impl Error for LineFault {}

impl From<AllocError> for LineFault {
    ghost use Rattle.std.specs.Prelude.{◌≡◌};
    ghost use Rattle.script_answers.specs.declared.faults.LineFault.TheVariants.{Memory};

    ghost from_gives = { λ _ fault. fault ≡ Memory };

    fn from(_: AllocError) -> LineFault {
        LineFault::Memory
    }
}

impl<T: Drop> From<AllocFailed<T>> for LineFault {
    ghost use Rattle.std.specs.Prelude.{◌≡◌};
    ghost use Rattle.script_answers.specs.declared.faults.LineFault.TheVariants.{Memory};

    ghost from_gives = { λ _ fault. fault ≡ Memory };

    fn from(_: AllocFailed<T>) -> LineFault {
        LineFault::Memory
    }
}
