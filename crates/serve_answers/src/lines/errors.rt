//! The errors of reading lines.

ghost use Rattle.std.specs.Prelude.{◌≡◌};
ghost use Rattle.serve_answers.specs.LinesErrors.{error_text};

use std::alloc::AllocError;
use std::error::Error;
use std::fmt;

/// The reason why a line is not read.
#[derive(Clone, Copy, Debug, PartialEq, Eq)]
pub enum LineError {
    /// A line of 4,097 bytes without a newline.
    TooLong,
    /// An input that ends before the newline.
    Ended,
    /// A reader that failed.
    Unreadable,
    /// Out of memory.
    Memory,
}

impl LineError {
    /// Returns the text of the error.
    pub fn label(&self) -> &'static str
        ensures { result.now ≡ error_text self.now }
    {
        match self {
            LineError::TooLong => "line too long",
            LineError::Ended => "answers end",
            LineError::Unreadable => "cannot read the answers",
            LineError::Memory => "memory",
        }
    }
}

impl fmt::Display for LineError {
    ghost use Rattle.std.specs.Prelude.{Some};
    ghost use Rattle.serve_answers.specs.LinesErrors.{error_text};

    ghost output = { λ error. Some (error_text error) };

    fn fmt<W: fmt::Write>(&self, f: &mut fmt::Formatter<W>) -> fmt::Result {
        f.write_str(self.label())
    }
}

impl Error for LineError {}

impl From<AllocError> for LineError {
    ghost use Rattle.std.specs.Prelude.{◌≡◌};
    ghost use Rattle.serve_answers.specs.declared.lines.errors.LineError.TheVariants.{Memory};

    ghost from_gives = { λ _ error. error ≡ Memory };

    fn from(_: AllocError) -> LineError {
        LineError::Memory
    }
}
