//! The errors of creating a text.

use std::alloc::AllocError;
use std::error::Error;
use std::fmt;

/// The reasons why some bytes are not the text of a report, in the order in which they are checked. Each check covers all bytes.
#[derive(Clone, Copy, Debug, PartialEq, Eq)]
pub enum TextFault {
    /// There are more than 200 bytes.
    TooLong,
    /// A byte is not from 0x20 to 0x7E.
    BadByte,
    /// An allocation failed.
    Memory,
}

impl fmt::Display for TextFault {
    ghost use Rattle.std.specs.Prelude.{Some};
    ghost use Rattle.uvm_report.specs.Texts.{fault_text};

    ghost output = { λ fault. Some (fault_text fault) };

    fn fmt<W: fmt::Write>(&self, f: &mut fmt::Formatter<W>) -> fmt::Result {
        f.write_str(match self {
            TextFault::TooLong => "more than 200 bytes",
            TextFault::BadByte => "a byte that may not stand there",
            TextFault::Memory => "out of memory",
        })
    }
}

impl Error for TextFault {}

impl From<AllocError> for TextFault {
    ghost use Rattle.std.specs.Prelude.{◌≡◌};
    ghost use Rattle.uvm_report.specs.declared.faults.TextFault.TheVariants.{Memory};

    ghost from_gives = { λ _ fault. fault ≡ Memory };

    fn from(_: AllocError) -> TextFault {
        TextFault::Memory
    }
}
