//! Errors of connections and ports.

use std::alloc::{AllocError, AllocFailed};
use std::error::Error;
use std::fmt;

/// An error of a connection or a port.
#[derive(Clone, Copy, Debug, PartialEq, Eq)]
pub enum WireFault {
    /// The kinds of the two ends differ, or no connection may go from the first to the second.
    KindDiffers,
    /// The port reaches no target.
    TooFew,
    /// The port reaches several targets, or an earlier port in path order drives the sequencer that it reaches.
    TooMany,
    /// Nothing that can be connected was added at the node.
    Unknown,
    /// The wiring is closed.
    Late,
    /// An allocation failed.
    Memory,
}

impl fmt::Display for WireFault {
    ghost use Rattle.std.specs.Prelude.{Some};
    ghost use Rattle.uvm_tlm.specs.Faults.{fault_text};

    ghost output = { λ fault. Some (fault_text fault) };

    fn fmt<W: fmt::Write>(&self, f: &mut fmt::Formatter<W>) -> fmt::Result {
        f.write_str(match self {
            WireFault::KindDiffers => "kinds differ",
            WireFault::TooFew => "too few connections",
            WireFault::TooMany => "too many connections",
            WireFault::Unknown => "unknown node",
            WireFault::Late => "connected too late",
            WireFault::Memory => "out of memory",
        })
    }
}

impl Error for WireFault {}

impl From<AllocError> for WireFault {
    ghost use Rattle.std.specs.Prelude.{◌≡◌};
    ghost use Rattle.uvm_tlm.specs.declared.faults.WireFault.TheVariants.{Memory};

    ghost from_gives = { λ _ fault. fault ≡ Memory };

    fn from(_: AllocError) -> WireFault {
        WireFault::Memory
    }
}

impl<T: Drop> From<AllocFailed<T>> for WireFault {
    ghost use Rattle.std.specs.Prelude.{◌≡◌};
    ghost use Rattle.uvm_tlm.specs.declared.faults.WireFault.TheVariants.{Memory};

    ghost from_gives = { λ _ fault. fault ≡ Memory };

    fn from(_: AllocFailed<T>) -> WireFault {
        WireFault::Memory
    }
}
