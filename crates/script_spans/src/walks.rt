//! Finds a value in the text of a TOML document, by the keys and indices that lead to it.
//!
//! The text is one that `toml` accepts. Nothing rests on the place that is found but the line and the column of a message.

ghost use Rattle.std.specs.Prelude.{◌≤◌, IfOk, IfSome, length};

use crate::texts::Span;
use std::alloc::{AllocError, AllocFailed, Global};
use toml_parser::text::{byte_at, first, skip, skip_blank, skip_ws};
use toml_parser::{Key, ParseError, dotted_key, quoted, starts_string, unquoted};

/// A step from a table or an array to a value in it.
#[derive(Clone, Copy, Debug, PartialEq, Eq)]
pub enum Step<'a> {
    /// To the value at a key of a table.
    Key(&'a str),
    /// To an element of an array, counted from 0.
    Index(usize),
}

/// Returns the place of the value to which a path leads, or of what the text has of the path: the nearest value, row or table above it. With
/// `at_key`, the place of a key is that of the key itself. Returns `None` if the text has nothing of the path. Errors: out of memory.
pub fn locate(
    alloc: Global,
    text: &str,
    path: &[Step<'_>],
    at_key: bool,
) -> Result<Option<Span>, AllocError>
    ensures { IfOk result (λ found. IfSome found (λ span. (span.start ≤ span.end) × (span.end ≤ length text.now))) }
{
    match search(alloc, text, path, at_key)? {
        Some(found) => Ok(Some(span_of(text, found))),
        None => Ok(None),
    }
}

// Returns the range of a text that is found, without blanks at its end.
fn span_of(text: &str, found: Found) -> Span
    ensures { (result.start ≤ result.end) × (result.end ≤ length text.now) }
{
    let start = text.len().saturating_sub(found.from);
    let end = text.len().saturating_sub(found.to).max(start);
    Span {
        start,
        end: without_blanks(text.as_bytes(), start, end),
    }
}

// Returns the end of a range without the blanks and tabs before it.
fn without_blanks(bytes: &[u8], start: usize, end: usize) -> usize
    requires range { start ≤ end }
    requires within { end ≤ length bytes.now }
    ensures range { start ≤ result }
    ensures within { result ≤ length bytes.now }
{
    for last in (start..end).rev() {
        if bytes[last] != b' ' && bytes[last] != b'\t' {
            return last + 1;
        }
    }
    start
}

// Returns what the text has of a path. Errors: out of memory.
fn search(
    alloc: Global,
    text: &str,
    path: &[Step<'_>],
    at_key: bool,
) -> Result<Option<Found>, AllocError> {
    let mut walk = Walk {
        alloc,
        path,
        at_key,
        rest: text.strip_prefix('\u{feff}').unwrap_or(text),
        section: Some(0),
        rows: 0,
        open: Vec::new(alloc),
        best: None,
    };
    for _step in 0..text.len() {
        match walk.step() {
            Ok(()) => {}
            Err(Stop::End) => return Ok(walk.best),
            Err(Stop::Memory) => return Err(AllocError),
        }
    }
    Ok(walk.best)
}

// Why a walk stops.
#[derive(Clone, Copy)]
enum Stop {
    // The text ends, or is not TOML.
    End,
    // Memory ran out.
    Memory,
}

impl From<ParseError> for Stop {
    fn from(error: ParseError) -> Stop {
        match error {
            ParseError::OutOfMemory => Stop::Memory,
            ParseError::At(..) => Stop::End,
        }
    }
}

impl<T: Drop> From<AllocFailed<T>> for Stop {
    fn from(_error: AllocFailed<T>) -> Stop {
        Stop::Memory
    }
}

// What is found: the number of steps that lead to it, and the number of bytes of the text that are left where it begins and where it ends.
#[derive(Clone, Copy)]
struct Found {
    depth: usize,
    from: usize,
    to: usize,
}

// An array or an inline table that is not closed yet.
#[derive(Clone, Copy)]
struct Open {
    // The number of elements before the next one; `None` for a table.
    elements: Option<usize>,
    // The number of steps that lead to it; `None` if the path leads elsewhere.
    depth: Option<usize>,
    // The number of bytes of the text that are left where it begins.
    from: usize,
}

// A walk through a text.
#[derive(Drop)]
struct Walk<'a> {
    alloc: Global,
    path: &'a [Step<'a>],
    at_key: bool,
    // The text that is not read yet.
    rest: &'a str,
    // The number of steps that lead to the table of the last header; `None` if the path leads elsewhere.
    section: Option<usize>,
    // The number of headers so far of the array of tables on the path.
    rows: usize,
    // The arrays and inline tables that are not closed, the innermost last.
    open: Vec<Open>,
    // What matches the most steps so far, the first such.
    best: Option<Found>,
}

impl Walk<'_> {
    // Reads a header, a key with the beginning of its value, an element, or a mark.
    fn step(&mut self) -> Result<(), Stop> {
        self.rest = skip_blank(self.rest, true);
        if self.rest.is_empty() {
            return Err(Stop::End);
        }
        match self.open.pop() {
            Some(open) => self.step_inside(open),
            None if first(self.rest) == b'[' => self.header(),
            None => self.pair(self.section),
        }
    }

    // Does the same inside an array or an inline table.
    fn step_inside(&mut self, open: Open) -> Result<(), Stop> {
        let byte = first(self.rest);
        if byte == b']' || byte == b'}' {
            self.rest = skip(self.rest, 1);
            self.found(open.depth, open.from);
            return Ok(());
        }
        let next = Open {
            elements: open.elements.map(|count| count.saturating_add(1)),
            ..open
        };
        if byte == b',' {
            self.rest = skip(self.rest, 1);
            self.open.push(open)?;
            return Ok(());
        }
        self.open.push(next)?;
        match open.elements {
            Some(index) => self.value(self.below(open.depth, Step::Index(index))),
            None => self.pair(open.depth),
        }
    }

    // Reads a header: `[KEY]`, or `[[KEY]]` for a row of an array of tables.
    fn header(&mut self) -> Result<(), Stop> {
        let from = self.rest.len();
        let is_row = byte_at(self.rest, 1) == b'[';
        let inner = self.rest.trim_start_matches('[');
        let (key, after) = dotted_key(self.alloc, skip_ws(inner))?;
        self.rest = after.strip_prefix(']').ok_or(Stop::End)?;
        if is_row {
            self.rest = self.rest.strip_prefix(']').ok_or(Stop::End)?;
        }
        self.section = self.headed(&key, is_row);
        self.found(self.section, from);
        Ok(())
    }

    // Returns the number of steps that lead to the table of a header.
    fn headed(&mut self, key: &Key, is_row: bool) -> Option<usize> {
        let mut depth = Some(0);
        for part in &key.path {
            depth = self.in_last_row(self.below(depth, Step::Key(part.as_str())));
        }
        let depth = self.below(depth, Step::Key(key.last.as_str()));
        if is_row && self.is_at_row(depth) {
            self.rows = self.rows.saturating_add(1);
            self.in_last_row(depth)
        } else {
            depth
        }
    }

    // Returns whether the next step of the path leads to an element.
    fn is_at_row(&self, depth: Option<usize>) -> bool {
        match depth {
            Some(depth) => matches!(self.path.get(depth), Some(Step::Index(_))),
            None => false,
        }
    }

    // Returns the number of steps that lead to the last row so far of an array of tables; the same number if the path does not lead on to an
    // element; `None` if it leads to another row.
    fn in_last_row(&self, depth: Option<usize>) -> Option<usize> {
        match self.path.get(depth?) {
            Some(Step::Index(row)) if row.saturating_add(1) == self.rows => {
                Some(depth?.saturating_add(1))
            }
            Some(Step::Index(_)) => None,
            _ => depth,
        }
    }

    // Reads a key and the beginning of its value, in a table to which so many steps lead.
    fn pair(&mut self, table: Option<usize>) -> Result<(), Stop> {
        let from = self.rest.len();
        let (key, after) = dotted_key(self.alloc, self.rest)?;
        self.rest = after;
        let mut depth = table;
        for part in &key.path {
            depth = self.below(depth, Step::Key(part.as_str()));
            if depth == Some(self.path.len()) {
                self.found(depth, from);
            }
        }
        let depth = self.below(depth, Step::Key(key.last.as_str()));
        if self.at_key {
            self.found(depth, from);
        }
        self.rest = skip_ws(after.strip_prefix('=').ok_or(Stop::End)?);
        self.value(depth)
    }

    // Reads a value, or the beginning of an array or an inline table.
    fn value(&mut self, depth: Option<usize>) -> Result<(), Stop> {
        let from = self.rest.len();
        let byte = first(self.rest);
        if byte == b'[' || byte == b'{' {
            self.rest = skip(self.rest, 1);
            let elements = if byte == b'[' { Some(0) } else { None };
            let open = Open {
                elements,
                depth,
                from,
            };
            self.open.push(open)?;
            return Ok(());
        }
        self.rest = if starts_string(self.rest) {
            quoted(self.alloc, self.rest)?.1
        } else {
            unquoted(self.alloc, self.rest)?.1
        };
        self.found(depth, from);
        Ok(())
    }

    // Returns the number of steps that lead to a value in a table or an array; `None` if the path leads elsewhere.
    fn below(&self, depth: Option<usize>, step: Step<'_>) -> Option<usize> {
        let depth = depth?;
        match self.path.get(depth) {
            Some(wanted) if *wanted == step => Some(depth.saturating_add(1)),
            _ => None,
        }
    }

    // Keeps the range from `from` to what is not read yet, if more steps lead to it than to what was found before.
    fn found(&mut self, depth: Option<usize>, from: usize) {
        let Some(depth) = depth else {
            return;
        };
        if self.best.is_none_or(|best| best.depth < depth) {
            self.best = Some(Found {
                depth,
                from,
                to: self.rest.len(),
            });
        }
    }
}
