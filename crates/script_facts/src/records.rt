//! Which sequences and phases a run had, gathered in one pass over the log.

use std::alloc::{AllocError, Global};
use uvm_object::{Entry, Log, Outcome, Reason, Who};
use uvm_phase::Phase;
use uvm_sequences::{SeqId, Sequences};

/// A sequence that was started.
#[derive(Clone, Copy, Drop)]
pub struct Started {
    /// The sequence.
    pub who: Who,
    /// Whether it has ended its last step.
    pub finished: bool,
}

/// The sequences and phases of a run.
#[derive(Drop)]
pub struct Records {
    /// The sequences in the order of their numbers, which begin at 1.
    pub sequences: Vec<Started>,
    /// Whether the build phase has ended.
    pub is_built: bool,
    /// The phase that has begun last and has not ended.
    pub phase: Option<Phase>,
}

impl Records {
    /// Gathers what a log says of the sequences. Errors: out of memory.
    pub fn of_log(alloc: Global, log: &Log, sequences: &Sequences) -> Result<Records, AllocError> {
        let mut records = Records {
            sequences: Vec::new(alloc),
            is_built: false,
            phase: None,
        };
        for entry in log.iter() {
            match entry {
                Entry::Begin(phase) => records.phase = Some(*phase),
                Entry::End(phase) => records.end(*phase),
                Entry::Did { who, outcome, .. } => match outcome.get() {
                    Outcome::Started(id) => records.start(id, sequences)?,
                    Outcome::Finished => records.finish(who),
                    _ => {}
                },
                _ => {}
            }
        }
        Ok(records)
    }

    // Adds the end of a phase.
    fn end(&mut self, phase: Phase) {
        self.is_built = self.is_built || phase == Phase::Build;
        self.phase = if phase.is_runtime() {
            Some(Phase::Run)
        } else {
            None
        };
    }

    // Adds a sequence. Errors: out of memory.
    fn start(&mut self, id: SeqId, sequences: &Sequences) -> Result<(), AllocError> {
        if let Some(home) = sequences.home(id) {
            let who = Who::Sequence { home, id };
            let finished = false;
            self.sequences.push(Started { who, finished })?;
        }
        Ok(())
    }

    // Adds the end of the last step of a sequence.
    fn finish(&mut self, who: &Who) {
        if let Who::Sequence { id, .. } = who {
            if let Some(started) = self.sequences.get_mut(place_of(*id)) {
                started.finished = true;
            }
        }
    }
}

// Returns the place of a sequence in the order of the numbers.
pub(crate) fn place_of(id: SeqId) -> usize {
    usize::try_from(id.number().saturating_sub(1)).unwrap_or(usize::MAX)
}

// Returns an error if memory ran out.
pub(crate) fn kept<T: Drop, E: Drop>(added: Result<T, E>) -> Result<(), AllocError> {
    match added {
        Ok(_) => Ok(()),
        Err(_) => Err(AllocError),
    }
}

/// Returns the reason why a run ended; `None` if it was aborted.
pub fn reason_of(log: &Log) -> Option<Reason> {
    match log.last() {
        Some(Entry::Over(reason)) => Some(*reason),
        _ => None,
    }
}
