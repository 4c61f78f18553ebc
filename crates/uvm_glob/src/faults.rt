//! The error of a text that is not a name, path or glob.

use std::alloc::{AllocError, AllocFailed};
use std::error::Error;
use std::fmt;

/// The reason why a text is not a name, path or glob, or why its value was not created. The variants are in the order of the
/// checks; each check covers the whole text.
#[derive(Clone, Copy, Debug, PartialEq, Eq)]
pub enum PathFault {
    /// A name has no byte, or the text of a path has none.
    Empty,
    /// A name has more than `Name::MAX_LEN` bytes, or a path or glob has more than `Path::MAX_LEN`.
    TooLong,
    /// The text has a byte that is not allowed.
    BadByte,
    /// A path has more than `Path::MAX_NAMES` names.
    TooDeep,
    /// Out of memory; the text itself is valid.
    Memory,
}

impl fmt::Display for PathFault {
    ghost use Rattle.std.specs.Prelude.{Some};
    ghost use Rattle.uvm_glob.specs.Faults.{fault_text};

    ghost output = { λ fault. Some (fault_text fault) };

    fn fmt<W: fmt::Write>(&self, f: &mut fmt::Formatter<W>) -> fmt::Result {
        f.write_str(match self {
            PathFault::Empty => "an empty name",
            PathFault::TooLong => "too long",
            PathFault::BadByte => "a byte that may not stand there",
            PathFault::TooDeep => "more than 32 names",
            PathFault::Memory => "out of memory",
        })
    }
}

impl Error for PathFault {}

impl From<AllocError> for PathFault {
    ghost use Rattle.std.specs.Prelude.{◌≡◌};
    ghost use Rattle.uvm_glob.specs.declared.faults.PathFault.TheVariants.{Memory};

    ghost from_gives = { λ _ fault. fault ≡ Memory };

    fn from(_: AllocError) -> PathFault {
        PathFault::Memory
    }
}
