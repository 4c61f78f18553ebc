//! The sequences that end with a phase (IEEE 1800.2-2020, Clause 14).

ghost use Rattle.std.specs.Prelude.{◌≡◌, IfOk};
ghost use Rattle.world_sequencing.specs.SequencesMatch.{AreEnded, ends_with, finished_by, is_in_phase, is_live_in, leaving_with};

use crate::start_records::StartRecord;
use std::alloc::{AllocError, Global};
use uvm_object::Who;
use uvm_phase::Phase;
use uvm_sequences::{Sequences, laws};

/// Returns the active sequences that were started in a phase, in the order of their starts. Errors: out of memory.
pub fn leaving_with(
    alloc: Global,
    sequences: &Sequences,
    start_records: &[StartRecord],
    phase: Phase,
) -> Result<Vec<Who>, AllocError>
    ensures { IfOk result (λ leaving. leaving.items ≡ leaving_with sequences.now.steps phase start_records.now) }
{
    start_records
        .iter()
        .filter(|start_record| ends_with(sequences, start_record, phase))
        .map(|start_record| start_record.who)
        .collect(alloc)
}

// Returns whether a sequence ends with a phase: it was started in it and is active.
fn ends_with(sequences: &Sequences, start_record: &StartRecord, phase: Phase) -> bool
    ensures { result ≡ ends_with sequences.now.steps phase start_record.now }
{
    is_in_phase(phase, start_record.phase) && is_live(sequences, &start_record.who)
}

// Returns whether a sequence was started in the phase.
fn is_in_phase(phase: Phase, started: Option<Phase>) -> bool
    ensures { result ≡ is_in_phase phase started }
{
    match started {
        Some(other) => other == phase,
        None => false,
    }
}

/// Returns whether a performer is an active sequence.
pub fn is_live(sequences: &Sequences, who: &Who) -> bool
    ensures { result ≡ is_live_in sequences.now.steps who.now }
{
    match who {
        Who::Node(_) => false,
        Who::Sequence { id, .. } => sequences.is_live(*id),
    }
}

/// Ends the sequences in `leaving`, and no others.
pub fn finish_all(sequences: &mut Sequences, leaving: &[Who])
    ensures { AreEnded leaving.now sequences.old sequences.new }
{
    laws::steps_change_alone();
    for who in leaving {
        finish(sequences, who);
    }
}

// Ends a sequence; does nothing for a component.
fn finish(sequences: &mut Sequences, who: &Who)
    ensures { sequences.new ≡ finished_by who.now sequences.old }
{
    match who {
        Who::Node(_) => {}
        Who::Sequence { id, .. } => sequences.finish(*id),
    }
}
