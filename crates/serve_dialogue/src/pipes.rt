//! A client at the other end of two pipes.

ghost use Rattle.std.specs.Prelude.{◌≡◌, [], IfOk};

use crate::clients::Client;
use serve_answers::{AnswerError, AnswerReader};
use std::alloc::{AllocError, Global};
use std::io;
use std::marker::Model;
use uvm_object::Acts;

/// A client at the other end of two pipes. It has a reader, from which the answers come, and a writer, which the client reads. Contracts see
/// both.
#[derive(Drop)]
pub struct Pipe<R, W> {
    answers: AnswerReader<R>,
    output: W,
}

impl<R, W> Model for Pipe<R, W> {
    ghost use Rattle.serve_dialogue.specs.Pipes.{PipeValue};

    ghost Value = { PipeValue R W };

    ghost view = { λ p. record { answers = p.answers; output = p.output } };
}

impl<R: io::BufRead, W: io::Write> Pipe<R, W> {
    /// Creates a client of a reader and a writer, before anything is said.
    ///
    /// Errors: out of memory; the reader and the writer are dropped.
    pub fn new(alloc: Global, reader: R, output: W) -> Result<Pipe<R, W>, AllocError>
    where
        R: Drop,
        W: Drop,
        ensures { IfOk result (λ pipe. pipe ≡ record { answers = record { reader = reader; line = []; count = 0 }; output = output }) }
    {
        Ok(Pipe {
            answers: AnswerReader::new(alloc, reader)?,
            output,
        })
    }

    /// Returns a reference to the writer that the client reads.
    pub fn output(&self) -> &W
        ensures { result.now ≡ self.now.output }
    {
        &self.output
    }

    /// Returns what was read of the client's last line, without its newline.
    pub fn last_line(&self) -> &[u8]
        ensures { result.now ≡ self.now.answers.line }
    {
        self.answers.last_line()
    }
}

impl<R: io::BufRead, W: io::Write> Client for Pipe<R, W> {
    ghost use Rattle.serve_dialogue.specs.Pipes.{HasClosed, HasPassed, passed-joined, passed-silent};

    ghost spoke = { HasPassed R.remaining W.contents };

    ghost ended = { HasClosed R.remaining W.contents };

    ghost line = { λ p. p.answers.count };

    ghost sent = { λ _. Unit {0} };

    ghost refuses = { λ _. Unit {0} };

    ghost breaks = { λ _. Unit {0} };

    ghost silent = { passed-silent R.remaining W.contents };

    ghost joined = { passed-joined R.remaining W.contents };

    fn say(&mut self, text: &[u8]) -> io::Result<()> {
        // If tracing is off, most entries have no text: for an empty one the writer is not called.
        if text.is_empty() {
            return Ok(());
        }
        self.output.write_all(text)
    }

    fn send(&mut self, text: &[u8]) -> io::Result<()> {
        self.output.write_all(text)?;
        self.output.flush()
    }

    fn read_made(&mut self) -> Result<bool, AnswerError> {
        self.answers.read_made()
    }

    fn read_acts(&mut self) -> Result<Acts, AnswerError> {
        self.answers.read_acts()
    }
}
