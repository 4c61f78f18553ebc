//! Reads the answers of a client line by line.

ghost use Rattle.std.specs.Prelude.{◌≡◌, ◌++◌, ◌∷◌, ◌≤◌, ◌+◌, ◌≢◌, [], All, Bool, IfErr, IfNone, IfOk, IfSome, OnOk, length};
ghost use Rattle.std.specs.Io.KnownBytes.{Consumes};
ghost use Rattle.serve_answers.specs.Lines.{HasEnded, IsLine};
ghost use Rattle.serve_answers.specs.Answers.{BreaksOff, HasStopped, IsTellingAct, IsUnread, NeitherStands, act_row, answer_text, count_after, made_text, made_word};
ghost use Rattle.serve_answers.specs.Errors.{line_in};

use crate::actions::action_in;
use crate::errors::AnswerError;
use crate::lines::{LineError, MOST_BYTES, read_line};
use script_answers::LineFault;
use std::alloc::{AllocError, Global};
use std::io;
use std::marker::Model;
use uvm_object::{Act, Acts};

/// The greatest number of actions in an answer.
pub const MOST_ACTS: usize = 1000;

/// A reader of the answers of a client. Contracts see the reader of its bytes, the line that was read last, and the number of that line.
#[derive(Drop)]
pub struct AnswerReader<R> {
    reader: R,
    line: Vec<u8>,
    count: u64,
}

impl<R> Model for AnswerReader<R> {
    ghost use Rattle.std.specs.Prelude.{◌<◌, vec_capacity};
    ghost use Rattle.serve_answers.specs.Readers.{ReaderValue};

    ghost Value = { ReaderValue R };

    ghost view = { λ c. record { reader = c.reader; line = c.line.items; count = c.count } };

    ghost invariant = { λ c. 4096 < vec_capacity c.line };
}

impl<R: io::BufRead> AnswerReader<R> {
    /// Creates a reader of answers, before the first line. Reserves all the memory that lines take.
    ///
    /// Errors: out of memory; the reader is dropped.
    pub fn new(alloc: Global, reader: R) -> Result<AnswerReader<R>, AllocError>
    where
        R: Drop,
        ensures { IfOk result (λ answers. answers ≡ record { reader = reader; line = []; count = 0 }) }
    {
        Ok(AnswerReader {
            line: Vec::with_capacity(alloc, MOST_BYTES + 1)?,
            reader,
            count: 0,
        })
    }

    /// Returns the number of the current line, from 1; 0 before the first line. It is at most 2^64 - 1.
    pub fn line_number(&self) -> u64
        ensures { result ≡ self.now.count }
    {
        self.count
    }

    /// Returns what was read of the current line, without its newline.
    pub fn last_line(&self) -> &[u8]
        ensures { result.now ≡ self.now.line }
    {
        self.line.as_slice()
    }

    /// Reads whether the client made the requested object: a line `made` or `declined`.
    ///
    /// Errors: `Unread` if the line is not read; `NeitherMadeNorDeclined` if it is another one. Never runs out of memory.
    pub fn read_made(&mut self) -> Result<bool, AnswerError>
        ensures ok { IfOk result (λ made. Consumes (R.remaining self.old.reader) (R.remaining self.new.reader) (made_text made)) }
        ensures err { IfErr result (λ error. NeitherStands error self.new.line (Consumes (R.remaining self.old.reader) (R.remaining self.new.reader)) (HasEnded (R.remaining self.old.reader) (R.remaining self.new.reader))) }
        ensures count { self.new.count ≡ count_after self.old.count 1 }
        ensures number { IfErr result (λ error. line_in error ≡ self.new.count) }
    {
        self.next_line()?;
        match made_in(self.line.as_slice()) {
            Some(made) => Ok(made),
            None => Err(AnswerError::NeitherMadeNorDeclined { line: self.count }),
        }
    }

    /// Reads the actions of an answer: one action per line, up to an empty line, and at most `MOST_ACTS` actions.
    ///
    /// Errors, at the first line that has one: `Unread` if the line is not read; `NoAct` if it is not an action; `TooManyActs` if it is an
    /// action after `MOST_ACTS` others; `Unread` with `Memory` if memory runs out for an action. The actions before it are lost.
    pub fn read_acts(&mut self) -> Result<Acts, AnswerError>
        ensures ok { IfOk result (λ acts. Consumes (R.remaining self.old.reader) (R.remaining self.new.reader) (answer_text acts)) }
        ensures alone { IfOk result (λ acts. All IsTellingAct acts) }
        ensures few { IfOk result (λ acts. length acts ≤ MOST_ACTS) }
        ensures count { IfOk result (λ acts. self.new.count ≡ count_after self.old.count (length acts + 1)) }
        ensures err { IfErr result (λ error. BreaksOff error (Consumes (R.remaining self.old.reader) (R.remaining self.new.reader)) (HasEnded (R.remaining self.old.reader) (R.remaining self.new.reader)) self.old.count self.new.count) }
        ensures number { IfErr result (λ error. line_in error ≡ self.new.count) }
    {
        let mut acts = Acts::new(*self.line.allocator());
        for _place in 0..MOST_ACTS {
            let Some(act) = self.next_act()? else {
                return Ok(acts);
            };
            let Ok(()) = acts.push(act) else {
                return Err(self.out_of_memory());
            };
        }
        if self.next_act()?.is_none() {
            return Ok(acts);
        }
        Err(AnswerError::TooManyActs { line: self.count })
    }

    // Reads the next line as an action. Returns `None` if the line is empty.
    fn next_act(&mut self) -> Result<Option<Act>, AnswerError>
        ensures act { IfOk result (λ next. IfSome next (λ act. Consumes (R.remaining self.old.reader) (R.remaining self.new.reader) (act_row act))) }
        ensures alone { IfOk result (λ next. IfSome next IsTellingAct) }
        ensures none { IfOk result (λ next. IfNone next (Consumes (R.remaining self.old.reader) (R.remaining self.new.reader) (10 ∷ []))) }
        ensures err { IfErr result (λ error. HasStopped error (Consumes (R.remaining self.old.reader) (R.remaining self.new.reader)) (HasEnded (R.remaining self.old.reader) (R.remaining self.new.reader))) }
        ensures count { self.new.count ≡ count_after self.old.count 1 }
        ensures number { IfErr result (λ error. line_in error ≡ self.new.count) }
    {
        self.next_line()?;
        if self.line.is_empty() {
            return Ok(None);
        }
        match action_in(*self.line.allocator(), self.line.as_slice()) {
            Ok(act) => Ok(Some(act)),
            Err(LineFault::Memory) => Err(self.out_of_memory()),
            Err(_) => Err(AnswerError::NoAct { line: self.count }),
        }
    }

    // Reads the next line.
    fn next_line(&mut self) -> Result<(), AnswerError>
        ensures line { OnOk result (IsLine self.new.line) }
        ensures ok { OnOk result (Consumes (R.remaining self.old.reader) (R.remaining self.new.reader) (self.new.line ++ 10 ∷ [])) }
        ensures err { IfErr result (λ error. IsUnread error self.new.line (Consumes (R.remaining self.old.reader) (R.remaining self.new.reader)) (HasEnded (R.remaining self.old.reader) (R.remaining self.new.reader))) }
        ensures count { self.new.count ≡ count_after self.old.count 1 }
        ensures number { IfErr result (λ error. line_in error ≡ self.new.count) }
    {
        self.count = self.count.saturating_add(1);
        match read_line(&mut self.reader, &mut self.line) {
            Ok(()) => Ok(()),
            Err(why) => Err(AnswerError::Unread {
                line: self.count,
                why,
            }),
        }
    }

    // Returns the error for an action that runs out of memory.
    fn out_of_memory(&self) -> AnswerError
        ensures { result ≡ AnswerError.Unread self.now.count LineError.Memory }
    {
        AnswerError::Unread {
            line: self.count,
            why: LineError::Memory,
        }
    }
}

// Returns whether a line says that the client made an object. Returns `None` if it is neither `made` nor `declined`.
fn made_in(line: &[u8]) -> Option<bool>
    ensures some { IfSome result (λ made. line.now ≡ made_word made) }
    ensures none { IfNone result ((made : Bool) → line.now ≢ made_word made) }
{
    if line == b"made".as_slice() {
        return Some(true);
    }
    if line == b"declined".as_slice() {
        return Some(false);
    }
    None
}
