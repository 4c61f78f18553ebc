//! The start records of sequences, and the steps of sequences (IEEE 1800.2-2020, Clause 14).

ghost use Rattle.std.specs.Prelude.{◌≡◌, [], IfOk, None, ◌∷◌, ◌++◌, ◌+◌, ◌<◌, Some, false, IfErr, IsOk, IsSome, OnOk, length, vec_len, vec_capacity};
ghost use Rattle.std.specs.Option.{ForSome, option_copied};
ghost use Rattle.uvm_glob.specs.Paths.{path_fault};
ghost use Rattle.uvm_sequences.specs.declared.starts.SeqStep.TheVariants.{PreStart};
ghost use Rattle.uvm_sequences.specs.Sequences.{numbered};
ghost use Rattle.uvm_factory.specs.declared.types.Kind.TheVariants.{Sequence};
ghost use Rattle.uvm_acts.specs.declared.acts.Act.TheVariants.{Start};
ghost use Rattle.bench_history.specs.Refusals.{is_none_at_all};
ghost use Rattle.bench_history.specs.Sequences.{parent_names, sequence_in, start_priority};
ghost use Rattle.world_sequencing.specs.SequencesMatch.{IsStart, MayFail, name_started, priority_given, start_record_at, phase_at};
ghost use Rattle.bench_history.specs.Dues.{step_call};

use std::alloc::{AllocError, Global};
use uvm_glob::{Name, Path, PathFault};
use uvm_object::{Act, Call, Who};
use uvm_phase::Phase;
use uvm_sequences::{SeqId, SeqStep, Sequences};
use uvm_tree::NodeId;

/// A sequence that was started, its starter, and the phase of the start.
#[derive(Clone, Copy)]
pub struct StartRecord {
    pub who: Who,
    pub starter: Who,
    pub phase: Option<Phase>,
}

// The priority of a sequence that has neither a given priority nor a parent.
const USUAL_PRIORITY: u16 = 100;

/// Returns whether the given priority is 0, which is not allowed.
pub fn is_none_at_all(priority: Option<u16>) -> bool
    ensures { result ≡ is_none_at_all priority }
{
    match priority {
        Some(priority) => priority == 0,
        None => false,
    }
}

/// Returns the names from the root sequence down to the sequence `who` itself; empty for a component. Errors: out of memory.
pub fn parent_names(
    sequences: &Sequences,
    alloc: Global,
    who: &Who,
) -> Result<Vec<Name>, AllocError>
    ensures { IfOk result (λ names. names.items ≡ parent_names sequences.now.started who.now) }
{
    match who {
        Who::Node(_) => Ok(Vec::new(alloc)),
        Who::Sequence { id, .. } => sequences.names(alloc, *id),
    }
}

/// Returns `path` extended by `names` and then `name`. Errors: a fault of the resulting path or of one on the way, only if the resulting
/// path has a fault; out of memory.
pub fn path_below(path: &Path, names: &[Name], name: &Name) -> Result<Path, PathFault>
    ensures ok { IfOk result (λ below. (path_fault (path.now ++ names.now ++ name.now ∷ []) ≡ None) × (below ≡ path.now ++ names.now ++ name.now ∷ [])) }
    ensures err { IfErr result (λ fault. MayFail (path_fault (path.now ++ names.now ++ name.now ∷ [])) fault) }
{
    let mut below = path.copy()?;
    // The depth is counted here, so that no push counts the names before it.
    let mut depth = path.depth();
    for parent in names {
        below.push_at(depth, parent)?;
        depth += 1;
    }
    below.push_at(depth, name)?;
    Ok(below)
}

/// Starts a sequence on a sequencer, as a child of its starter if that is a sequence. Its priority is the given one, else its parent's,
/// else 100. Errors: out of memory, only if no capacity was reserved.
pub fn start_under(
    sequences: &mut Sequences,
    home: NodeId,
    starter: &Who,
    name: Name,
    given: Option<u16>,
) -> Result<SeqId, AllocError>
    requires parent { ForSome (sequence_in starter.now) (λ above. IsSome (numbered sequences.old.started above)) }
    requires positive { is_none_at_all given ≡ false }
    ensures id { IfOk result (λ id. id ≡ length sequences.old.started + 1) }
    ensures started { OnOk result (sequences.new.started ≡ record { home = home; parent = sequence_in starter.now; name = name; priority = start_priority sequences.old.started (sequence_in starter.now) given } ∷ sequences.old.started) }
    ensures steps { OnOk result (sequences.new.steps ≡ Some PreStart ∷ sequences.old.steps) }
    ensures room { 0 < sequences.old.spare → IsOk result }
{
    let priority = start_priority(sequences, sequence_in(starter), given);
    match starter {
        Who::Node(_) => sequences.start(home, None, name, priority),
        Who::Sequence { id, .. } => sequences.start(home, Some(*id), name, priority),
    }
}

/// Returns the name of the sequence that an action starts.
pub fn name_started(act: &Act) -> Name
    requires { IsStart act.now }
    ensures { result ≡ name_started act.now }
{
    match act {
        Act::Start { name, .. } => *name,
        _ => unreachable!(),
    }
}

/// Returns the priority that an action gives to the sequence that it starts, if any.
pub fn priority_given(act: &Act) -> Option<u16>
    ensures { result ≡ priority_given act.now }
{
    match act {
        Act::Start { priority, .. } => *priority,
        _ => None,
    }
}

/// Returns the number of the sequence, if `who` is one.
pub fn sequence_in(who: &Who) -> Option<SeqId>
    ensures { result ≡ sequence_in who.now }
{
    match who {
        Who::Node(_) => None,
        Who::Sequence { id, .. } => Some(*id),
    }
}

/// Returns the priority of a sequence: the given one, else its parent's, else 100.
pub fn start_priority(sequences: &Sequences, parent: Option<SeqId>, given: Option<u16>) -> u16
    requires { is_none_at_all given ≡ false }
    ensures value { result ≡ start_priority sequences.now.started parent given }
    ensures positive { 0 < result }
{
    if let Some(priority) = given {
        return priority;
    }
    let Some(parent) = parent else {
        return USUAL_PRIORITY;
    };
    match sequences.priority(parent) {
        Some(priority) => priority,
        None => USUAL_PRIORITY,
    }
}

/// Records who started a sequence, and in which phase. Errors: out of memory, only if no capacity was reserved.
pub fn push(
    start_records: &mut Vec<StartRecord>,
    who: &Who,
    starter: &Who,
    phase: Option<Phase>,
) -> Result<(), AllocError>
    ensures items { OnOk result (start_records.new.items ≡ start_records.old.items ++ record { who = who.now; starter = starter.now; phase = phase } ∷ []) }
    ensures room { vec_len start_records.old < vec_capacity start_records.old → IsOk result }
{
    start_records.push(StartRecord {
        who: who.copy(),
        starter: starter.copy(),
        phase,
    })?;
    Ok(())
}

/// Returns the call that a sequence receives for a step.
pub fn step_call(step: SeqStep) -> Call
    ensures { result ≡ step_call step }
{
    match step {
        SeqStep::PreStart => Call::PreStart,
        SeqStep::Body => Call::Body,
        SeqStep::PostStart => Call::PostStart,
    }
}

/// Returns the start record of the sequence of a number; `None` if no sequence has it.
pub fn start_record_at(start_records: &[StartRecord], id: SeqId) -> Option<&StartRecord>
    ensures { option_copied result ≡ start_record_at start_records.now id }
{
    match id.number() {
        0 => None,
        number => start_records.get(number as usize - 1),
    }
}

/// Returns the phase in which the sequence of a number was started; `None` if no sequence has it or it has no phase.
pub fn phase_at(start_records: &[StartRecord], id: SeqId) -> Option<Phase>
    ensures { result ≡ phase_at start_records.now id }
{
    start_record_at(start_records, id)?.phase
}
