//! Errors of dropping an objection in a phase.

use std::alloc::AllocError;
use std::error::Error;
use std::fmt;

/// The errors of dropping an objection in a phase, in the order of their checks.
#[derive(Clone, Copy, Debug, PartialEq, Eq)]
pub enum DropFault {
    /// More was to be dropped at a node than is raised there.
    BelowZero,
    /// Out of memory.
    Memory,
}

impl fmt::Display for DropFault {
    ghost use Rattle.std.specs.Prelude.{Some};
    ghost use Rattle.world_state.specs.Faults.{fault_text};

    ghost output = { λ fault. Some (fault_text fault) };

    fn fmt<W: fmt::Write>(&self, f: &mut fmt::Formatter<W>) -> fmt::Result {
        f.write_str(match self {
            DropFault::BelowZero => "objection dropped below zero",
            DropFault::Memory => "out of memory",
        })
    }
}

impl Error for DropFault {}

impl From<AllocError> for DropFault {
    ghost use Rattle.std.specs.Prelude.{◌≡◌};
    ghost use Rattle.world_state.specs.declared.faults.DropFault.TheVariants.{Memory};

    ghost from_gives = { λ _ fault. fault ≡ Memory };

    fn from(_: AllocError) -> DropFault {
        DropFault::Memory
    }
}
