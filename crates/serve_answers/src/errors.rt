//! The errors of reading answers.

ghost use Rattle.std.specs.Prelude.{◌≡◌};
ghost use Rattle.serve_answers.specs.Errors.{error_text, line_in, wrong_line};

use crate::lines::LineError;
use std::error::Error;
use std::fmt;

/// The reason why an answer is not read. `line` is the number of the line at which reading stopped, from 1.
#[derive(Clone, Copy, Debug, PartialEq, Eq)]
pub enum AnswerError {
    /// A line that is not an action.
    NoAct {
        /// The number of the line.
        line: u64,
    },
    /// A line that is neither `made` nor `declined`.
    NeitherMadeNorDeclined {
        /// The number of the line.
        line: u64,
    },
    /// A line with one action more than an answer may have.
    TooManyActs {
        /// The number of the line.
        line: u64,
    },
    /// A line that is not read, or whose action is not read because memory ran out.
    Unread {
        /// The number of the line.
        line: u64,
        /// The reason.
        why: LineError,
    },
}

impl AnswerError {
    /// Returns the number of the line at which reading stopped, from 1.
    pub fn line(&self) -> u64
        ensures { result ≡ line_in self.now }
    {
        match *self {
            AnswerError::NoAct { line } => line,
            AnswerError::NeitherMadeNorDeclined { line } => line,
            AnswerError::TooManyActs { line } => line,
            AnswerError::Unread { line, .. } => line,
        }
    }

    /// Returns the number of the line that is wrong, from 1. Returns 0 if the reader failed or memory ran out.
    pub fn wrong_line(&self) -> u64
        ensures { result ≡ wrong_line self.now }
    {
        match self {
            AnswerError::Unread {
                why: LineError::Unreadable | LineError::Memory,
                ..
            } => 0,
            _ => self.line(),
        }
    }

    /// Returns the text of the error.
    pub fn label(&self) -> &'static str
        ensures { result.now ≡ error_text self.now }
    {
        match self {
            AnswerError::NoAct { .. } => "no act",
            AnswerError::NeitherMadeNorDeclined { .. } => "neither made nor declined",
            AnswerError::TooManyActs { .. } => "too many acts",
            AnswerError::Unread { why, .. } => why.label(),
        }
    }
}

impl fmt::Display for AnswerError {
    ghost use Rattle.std.specs.Prelude.{Some};
    ghost use Rattle.serve_answers.specs.Errors.{error_text};

    ghost output = { λ error. Some (error_text error) };

    fn fmt<W: fmt::Write>(&self, f: &mut fmt::Formatter<W>) -> fmt::Result {
        f.write_str(self.label())
    }
}

impl Error for AnswerError {}
