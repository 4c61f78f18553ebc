//! The checks that a bench can fail.

use std::alloc::AllocError;
use std::fmt;

/// A check that a bench fails.
#[derive(Clone, Copy, PartialEq, Eq)]
pub enum Violation {
    /// Out of memory.
    Memory,
    /// A step with an unexpected error.
    Fault,
    /// A run that does not end within 200,000 steps.
    Endless,
    /// A run that goes on after it has ended, was aborted or has failed.
    GoesOn,
    /// A needed object that is no longer needed before it is supplied.
    NeedLost,
    /// An object of the needed type that the kernel does not accept.
    NotTaken,
    /// An object of another type that the kernel accepts.
    WrongTaken,
    /// An entry without a line, or a line without an entry.
    Lines,
    /// A component or sequence that is returned twice.
    CameTwice,
    /// An object that is dropped before it is returned.
    DroppedEarly,
    /// An object that is returned late, or before another that precedes it.
    Order,
    /// Objects that the kernel holds and does not return.
    Held,
    /// An object that is not returned, or is returned twice.
    NotBack,
    /// An object that is not dropped, or is dropped twice.
    NotDropped,
    /// A second run that differs from the first.
    Differs,
}

impl fmt::Display for Violation {
    fn fmt<W: fmt::Write>(&self, f: &mut fmt::Formatter<W>) -> fmt::Result {
        f.write_str(match self {
            Violation::Memory => "memory was refused",
            Violation::Fault => "a step gave a fault",
            Violation::Endless => "the run did not end",
            Violation::GoesOn => "a run that had ended went on",
            Violation::NeedLost => "an object was needed no more before it came",
            Violation::NotTaken => "an object of the type that was needed was not taken",
            Violation::WrongTaken => "an object of another type was taken",
            Violation::Lines => "the lines are not those of the entries",
            Violation::CameTwice => "an object came back twice",
            Violation::DroppedEarly => "an object was dropped before it came back",
            Violation::Order => "an object came back late, or before another",
            Violation::Held => "objects are held that do not come back",
            Violation::NotBack => "not each object came back once",
            Violation::NotDropped => "not each object was dropped once",
            Violation::Differs => "the second run was another one",
        })
    }
}

impl From<AllocError> for Violation {
    fn from(_error: AllocError) -> Violation {
        Violation::Memory
    }
}
