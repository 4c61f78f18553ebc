//! The errors of the factory.

use std::alloc::{AllocError, AllocFailed};
use std::error::Error;
use std::fmt;

/// The reason why a call of `register`, `override_type` or `override_inst` fails. The variants of one call are in the order of
/// its checks. An error changes nothing.
#[derive(Clone, Copy, Debug, PartialEq, Eq)]
pub enum FactoryFault {
    /// A type with this name is already registered (`register`).
    Known,
    /// One of the two types is not registered (`override_type`, `override_inst`).
    NoType,
    /// One of the two types is a component type and the other a sequence type (`override_type`, `override_inst`).
    KindDiffers,
    /// `Factory::MAX_TYPES` types are already registered (`register`).
    Full,
    /// Out of memory.
    Memory,
}

impl fmt::Display for FactoryFault {
    ghost use Rattle.std.specs.Prelude.{Some};
    ghost use Rattle.uvm_factory.specs.Faults.{fault_text};

    ghost output = { λ fault. Some (fault_text fault) };

    fn fmt<W: fmt::Write>(&self, f: &mut fmt::Formatter<W>) -> fmt::Result {
        f.write_str(match self {
            FactoryFault::Known => "type known",
            FactoryFault::NoType => "no such type",
            FactoryFault::KindDiffers => "types of two kinds",
            FactoryFault::Full => "too many types",
            FactoryFault::Memory => "out of memory",
        })
    }
}

impl Error for FactoryFault {}

impl From<AllocError> for FactoryFault {
    ghost use Rattle.std.specs.Prelude.{◌≡◌};
    ghost use Rattle.uvm_factory.specs.declared.faults.FactoryFault.TheVariants.{Memory};

    ghost from_gives = { λ _ fault. fault ≡ Memory };

    fn from(_: AllocError) -> FactoryFault {
        FactoryFault::Memory
    }
}

impl<T: Drop> From<AllocFailed<T>> for FactoryFault {
    ghost use Rattle.std.specs.Prelude.{◌≡◌};
    ghost use Rattle.uvm_factory.specs.declared.faults.FactoryFault.TheVariants.{Memory};

    ghost from_gives = { λ _ fault. fault ≡ Memory };

    fn from(_: AllocFailed<T>) -> FactoryFault {
        FactoryFault::Memory
    }
}

/// The reason why `Factory::resolve` returns no type. The variants are in the order of the checks.
#[derive(Clone, Copy, Debug, PartialEq, Eq)]
pub enum Unmade {
    /// The requested type is not registered.
    NoType,
    /// The overrides form a loop: more steps lead from the type than there are registered types.
    Loop,
}

impl fmt::Display for Unmade {
    ghost use Rattle.std.specs.Prelude.{Some};
    ghost use Rattle.uvm_factory.specs.Faults.{unmade_text};

    ghost output = { λ unmade. Some (unmade_text unmade) };

    fn fmt<W: fmt::Write>(&self, f: &mut fmt::Formatter<W>) -> fmt::Result {
        f.write_str(match self {
            Unmade::NoType => "no such type",
            Unmade::Loop => "override loop",
        })
    }
}

impl Error for Unmade {}
