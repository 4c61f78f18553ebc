//! The reasons why a run over a client stops before its end.

ghost use Rattle.std.specs.Prelude.{◌≡◌};
ghost use Rattle.serve_dialogue.specs.Errors.{error_text, wrong_line};

use serve_answers::AnswerError;
use std::alloc::AllocError;
use std::error::Error;
use std::fmt;

/// The reason why there is no run over a client, or why it stops before its end.
#[derive(Clone, Copy, Debug, PartialEq, Eq)]
pub enum ServeError {
    /// Out of memory.
    Memory,
    /// A full log: it has its greatest number of entries, and one more would come next.
    LogFull,
    /// A text that the client refuses.
    Output,
    /// A script without a test.
    NoTest,
    /// A request that the client does not answer.
    NoAnswer(AnswerError),
}

impl ServeError {
    /// Returns the number of the client's line that is wrong, from 1; 0 if none is.
    pub fn wrong_line(&self) -> u64
        ensures { result ≡ wrong_line self.now }
    {
        match self {
            ServeError::NoAnswer(error) => error.wrong_line(),
            _ => 0,
        }
    }

    /// Returns the text of the error.
    pub fn label(&self) -> &'static str
        ensures { result.now ≡ error_text self.now }
    {
        match self {
            ServeError::Memory => "memory",
            ServeError::LogFull => "log full",
            ServeError::Output => "output fault",
            ServeError::NoTest => "no test",
            ServeError::NoAnswer(error) => error.label(),
        }
    }
}

impl fmt::Display for ServeError {
    ghost use Rattle.std.specs.Prelude.{Some};
    ghost use Rattle.serve_dialogue.specs.Errors.{error_text};

    ghost output = { λ error. Some (error_text error) };

    fn fmt<W: fmt::Write>(&self, f: &mut fmt::Formatter<W>) -> fmt::Result {
        f.write_str(self.label())
    }
}

impl Error for ServeError {}

impl From<AllocError> for ServeError {
    ghost use Rattle.std.specs.Prelude.{◌≡◌};
    ghost use Rattle.serve_dialogue.specs.declared.errors.ServeError.TheVariants.{Memory};

    ghost from_gives = { λ _ error. error ≡ Memory };

    fn from(_: AllocError) -> ServeError {
        ServeError::Memory
    }
}
