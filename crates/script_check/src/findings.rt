//! What a check finds, and how it is written.

use script_spans::{Span, column_at, is_first, last_line, line_at};
use std::{io, str};

/// How serious a finding is.
#[derive(Clone, Copy, Debug, PartialEq, Eq)]
pub enum Level {
    /// `run` rejects the document.
    Error,
    /// `run` accepts the document, but a part of it has no effect.
    Warning,
}

/// What a check finds in a document.
#[derive(Drop)]
pub struct Finding {
    /// How serious it is.
    pub level: Level,
    /// The place in the text; `None` for the document as a whole, which is told as its first line and column.
    pub span: Option<Span>,
    /// What is wrong.
    pub text: String,
    /// What would be right, or nothing.
    pub advice: String,
}

// The greatest number of bytes of a line that are shown before a place, and from it on.
const SHOWN_BEFORE: usize = 100;

const SHOWN_AFTER: usize = 100;

impl Finding {
    // Returns the index of the first byte of its place; 0 for the document as a whole.
    pub(crate) fn start(&self) -> usize {
        match self.span {
            Some(span) => span.start,
            None => 0,
        }
    }

    /// Writes the finding: a line `FILE:LINE:COLUMN: TEXT`, the line of the file with a mark under the place, and the advice. `bytes` are those
    /// of the file; a byte order mark is no part of its first line. A long line is cut. Errors: the writer's, which may have taken a part.
    pub fn write<W: io::Write>(&self, file: &str, bytes: &[u8], out: &mut W) -> io::Result<()> {
        let (mark, text) = split_mark(bytes);
        let start = self.start().saturating_sub(mark);
        let line = line_at(text, start);
        let column = column_at(text, start);
        let level = match self.level {
            Level::Error => "",
            Level::Warning => "warning: ",
        };
        writeln!(out, "{file}:{line}:{column}: {level}{}", self.text)?;
        if let (Some(span), Ok(_)) = (self.span, str::from_utf8(text)) {
            let end = span.end.saturating_sub(mark);
            write_place(text, Span { start, end }, out)?;
        }
        if self.advice.is_empty() {
            return Ok(());
        }
        writeln!(out, "    {}", self.advice)
    }
}

// Returns the number of bytes of the byte order mark that a text begins with, or 0, and the text behind it.
fn split_mark(bytes: &[u8]) -> (usize, &[u8]) {
    match bytes {
        [0xEF, 0xBB, 0xBF, text @ ..] => (3, text),
        _ => (0, bytes),
    }
}

// Writes the line of a place, and a line with a mark under the place.
fn write_place<W: io::Write>(bytes: &[u8], span: Span, out: &mut W) -> io::Result<()> {
    let start = span.start.min(bytes.len());
    let (before, after) = bytes.split_at(start);
    let before = last_shown(last_line(before));
    let after = first_shown(line_start(after), SHOWN_AFTER);
    out.write_all(b"    ")?;
    write_printable(before, out)?;
    write_printable(after, out)?;
    out.write_all(b"\n    ")?;
    for _at in 0..characters(before) {
        out.write_all(b" ")?;
    }
    let marked = span.end.saturating_sub(start).min(after.len());
    let count = characters(&after[..marked]).max(1);
    for _at in 0..count {
        out.write_all(b"^")?;
    }
    out.write_all(b"\n")
}

// Returns what comes before the first line break.
fn line_start(bytes: &[u8]) -> &[u8] {
    match bytes
        .iter()
        .position(|byte| *byte == b'\n' || *byte == b'\r')
    {
        Some(place) => &bytes[..place],
        None => bytes,
    }
}

// Returns the last whole characters, of at most `SHOWN_BEFORE` bytes.
fn last_shown(bytes: &[u8]) -> &[u8] {
    let from = bytes.len().saturating_sub(SHOWN_BEFORE);
    for place in from..bytes.len() {
        if is_first(bytes[place]) {
            return &bytes[place..];
        }
    }
    &[]
}

// Returns the first whole characters, of at most `most` bytes.
fn first_shown(bytes: &[u8], most: usize) -> &[u8] {
    if bytes.len() <= most {
        return bytes;
    }
    for place in (0..most).rev() {
        if is_first(bytes[place + 1]) {
            return &bytes[..place + 1];
        }
    }
    &[]
}

fn characters(bytes: &[u8]) -> usize {
    bytes.iter().filter(|byte| is_first(**byte)).count()
}

// Writes bytes, a blank in place of each control character.
fn write_printable<W: io::Write>(bytes: &[u8], out: &mut W) -> io::Result<()> {
    for byte in bytes {
        let shown = if *byte < b' ' { b' ' } else { *byte };
        out.write_all(&[shown])?;
    }
    Ok(())
}
