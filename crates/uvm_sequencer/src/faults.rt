//! Errors of the calls of a sequencer.

use std::alloc::{AllocError, AllocFailed};
use std::error::Error;
use std::fmt;

/// An error of a call of a sequencer.
#[derive(Clone, Copy, Debug, PartialEq, Eq)]
pub enum SeqFault {
    /// The port does not drive this sequencer.
    NoDriver,
    /// The driver is not idle, or the sequence has already made this request.
    Twice,
    /// The driver holds no item.
    NothingOut,
    /// The sequence is not granted, or has already sent its item.
    NotGranted,
    /// The sequence holds no lock.
    NotHeld,
    /// An allocation failed.
    Memory,
}

impl fmt::Display for SeqFault {
    ghost use Rattle.std.specs.Prelude.{Some};
    ghost use Rattle.uvm_sequencer.specs.Faults.{fault_text};

    ghost output = { λ fault. Some (fault_text fault) };

    fn fmt<W: fmt::Write>(&self, f: &mut fmt::Formatter<W>) -> fmt::Result {
        f.write_str(match self {
            SeqFault::NoDriver => "no driver",
            SeqFault::Twice => "asked twice",
            SeqFault::NothingOut => "nothing out",
            SeqFault::NotGranted => "not granted",
            SeqFault::NotHeld => "not held",
            SeqFault::Memory => "out of memory",
        })
    }
}

impl Error for SeqFault {}

impl From<AllocError> for SeqFault {
    ghost use Rattle.std.specs.Prelude.{◌≡◌};
    ghost use Rattle.uvm_sequencer.specs.declared.faults.SeqFault.TheVariants.{Memory};

    ghost from_gives = { λ _ fault. fault ≡ Memory };

    fn from(_: AllocError) -> SeqFault {
        SeqFault::Memory
    }
}

impl<T: Drop> From<AllocFailed<T>> for SeqFault {
    ghost use Rattle.std.specs.Prelude.{◌≡◌};
    ghost use Rattle.uvm_sequencer.specs.declared.faults.SeqFault.TheVariants.{Memory};

    ghost from_gives = { λ _ fault. fault ≡ Memory };

    fn from(_: AllocFailed<T>) -> SeqFault {
        SeqFault::Memory
    }
}
