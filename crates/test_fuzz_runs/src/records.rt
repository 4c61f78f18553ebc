//! The record of what a run has shown.

use crate::runs::Behaviour;
use crate::violations::Violation;
use bench_run::Core;
use std::alloc::Global;
use uvm_object::{Entry, Log, Object, Outcome, Who};

/// What a run has shown: its transcript, the components and sequences whose objects were returned, and the numbers of the returned objects.
#[derive(Drop)]
pub struct Record {
    text: Vec<u8>,
    entries: usize,
    // The sequence that the newest entry has finished, until its object is returned.
    leaving: Option<Who>,
    // The component or sequence whose object was returned last, since the newest entry.
    last: Option<Who>,
    whos: Vec<Who>,
    numbers: Vec<u64>,
}

impl Record {
    /// Creates the record of a run that has not begun.
    pub(crate) fn new(alloc: Global) -> Record {
        Record {
            text: Vec::new(alloc),
            entries: 0,
            leaving: None,
            last: None,
            whos: Vec::new(alloc),
            numbers: Vec::new(alloc),
        }
    }

    /// Returns the transcript of the run so far.
    pub fn text(&self) -> &[u8] {
        self.text.as_slice()
    }

    /// Records that a new order of returned objects begins: the next may be any.
    pub(crate) fn begin_return(&mut self) {
        self.last = None;
    }

    /// Returns whether another run has the same transcript.
    pub fn is_text_of(&self, other: &Record) -> bool {
        self.text.as_slice() == other.text.as_slice()
    }

    /// Returns whether another run has the same transcript and the same returned objects, in the same order.
    pub fn is_same(&self, other: &Record) -> bool {
        self.is_text_of(other)
            && self.numbers.as_slice() == other.numbers.as_slice()
            && self.whos.as_slice() == other.whos.as_slice()
    }

    /// Records the newest entry. Errors: `Order` if the sequence that the previous entry finished was not returned; `Memory`; `Lines` if
    /// the log did not grow by exactly one entry.
    pub(crate) fn note_entry(&mut self, core: &Core) -> Result<(), Violation> {
        if self.leaving.is_some() {
            return Err(Violation::Order);
        }
        core.last_text(true, &mut self.text)?;
        self.entries = self.entries.wrapping_add(1);
        self.last = None;
        self.leaving = match core.log().last() {
            Some(Entry::Did { who, outcome, .. }) => match outcome.get() {
                Outcome::Finished => Some(*who),
                _ => None,
            },
            _ => None,
        };
        if core.log().len() == self.entries {
            Ok(())
        } else {
            Err(Violation::Lines)
        }
    }

    /// Records an object that is returned, before it is dropped. Errors: `DroppedEarly` if the number of dropped objects is not that of the
    /// objects that were returned before; `Memory`.
    pub(crate) fn note_object<P: Behaviour>(
        &mut self,
        object: &Object<P>,
    ) -> Result<(), Violation> {
        let ticket = object.part.ticket();
        if ticket.counts().dropped() != self.numbers.len() as u64 {
            return Err(Violation::DroppedEarly);
        }
        match self.numbers.push(ticket.number()) {
            Ok(()) => Ok(()),
            Err(_) => Err(Violation::Memory),
        }
    }

    /// Records the component or sequence of a returned object. Errors: `CameTwice` if it was returned already; `Order` if it does not
    /// follow the one that was returned last since the newest entry; `Memory`.
    pub(crate) fn note_who(&mut self, core: &Core, who: &Who) -> Result<(), Violation> {
        if self.whos.iter().any(|other| *other == *who) {
            return Err(Violation::CameTwice);
        }
        if let Some(last) = self.last {
            if !goes_before(core, &last, who) {
                return Err(Violation::Order);
            }
        }
        if self.leaving == Some(*who) {
            self.leaving = None;
        }
        self.last = Some(*who);
        match self.whos.push(*who) {
            Ok(()) => Ok(()),
            Err(_) => Err(Violation::Memory),
        }
    }

    /// Returns whether each of the first `made` objects was returned exactly once, and no other was.
    pub(crate) fn are_back(&self, made: u64) -> bool {
        let mut numbers = 0u64;
        for number in 0..made {
            if self.numbers.iter().any(|other| *other == number) {
                numbers = numbers.wrapping_add(1);
            }
        }
        numbers == made && self.numbers.len() as u64 == made
    }

    /// Returns whether the transcript agrees with a log. Its lines that are not of reports must be those of the entries, in order. Each
    /// report line must directly follow the line of an entry.
    pub(crate) fn has_lines_of(&self, log: &Log) -> bool {
        let mut entries = log.iter();
        let mut may_report = false;
        for line in self.text.as_slice().split(|byte| *byte == b'\n') {
            if line.starts_with(b"UVM_") {
                if !may_report {
                    return false;
                }
                may_report = false;
            } else if !line.is_empty() {
                match entries.next() {
                    Some(entry) if line.starts_with(word_of(entry)) => may_report = true,
                    _ => return false,
                }
            }
        }
        entries.next().is_none()
    }
}

// Returns the bytes with which the line of an entry begins.
fn word_of(entry: &Entry) -> &'static [u8] {
    match entry {
        Entry::Begin(_) => b"begin ",
        Entry::End(_) => b"end ",
        Entry::Time(_) => b"time ",
        Entry::Heard { .. } => b"heard ",
        Entry::Did { .. } => b"did ",
        Entry::Locked { .. } => b"locked ",
        Entry::Granted { .. } => b"granted ",
        Entry::Passed { .. } => b"passed ",
        Entry::Drained { .. } => b"drained ",
        Entry::Note { .. } => b"note ",
        Entry::Over(_) => b"over ",
    }
}

// Returns whether the first is returned before the second. Sequences come first, in ascending order of number; then components in
// pre-order.
fn goes_before(core: &Core, first: &Who, second: &Who) -> bool {
    match (first, second) {
        (Who::Sequence { id: first, .. }, Who::Sequence { id: second, .. }) => {
            first.number() < second.number()
        }
        (Who::Sequence { .. }, Who::Node(_)) => true,
        (Who::Node(_), Who::Sequence { .. }) => false,
        (Who::Node(first), Who::Node(second)) => match (core.path(*first), core.path(*second)) {
            (Some(first), Some(second)) => first.cmp(second).is_lt(),
            // The core returns no paths after an out-of-memory error.
            _ => true,
        },
    }
}
