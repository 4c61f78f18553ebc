//! Records grants at sequencers, and transfers at FIFOs.

ghost use Rattle.std.specs.Prelude.{◌≡◌, List, OnOk, IfOk, Some, is_some};
ghost use Rattle.uvm_object.specs.declared.entries.Entry.{Entry};
ghost use Rattle.uvm_object.specs.declared.entries.Entry.TheVariants.{Granted, Locked, Passed};
ghost use Rattle.bench_script.specs.Scripts.{ScriptValue};
ghost use Rattle.bench_history.specs.Cases.{Exactly, chosen_at};
ghost use Rattle.bench_history.specs.Cases as cases;
ghost use Rattle.world_services.specs.Services.{ServicesMatch};
ghost use Rattle.world_entries.specs.Coming.{PreservesMatch, IsEntryContext};

use bench_history::laws;
use std::alloc::AllocError;
use uvm_object::{Call, Passage, StoredCall, Who};
use uvm_sequencer::laws as sequencers;
use uvm_sequences::SeqId;
use uvm_tree::NodeId;
use world_sequencing::arbiters::{choose_at, passed_at, settle_at};
use world_sequencing::start_records::phase_at;
use world_services::services::Services;
use world_services::tells::{schedule_call, tell_passed};
use world_wiring::fifo_states::pass;

/// Records that a sequencer grants the lock of a sequence, the next to grant, and schedules the call to that sequence (IEEE 1800.2-2020,
/// Clause 15). Errors: out of memory.
pub fn lock(
    services: &mut Services,
    place: u32,
    sequencer: NodeId,
    id: SeqId,
) -> Result<(), AllocError>
    requires { IsEntryContext (λ _. Exactly (Locked sequencer id)) place services.old }
    ensures { OnOk result (PreservesMatch (λ _. Exactly (Locked sequencer id)) (Locked sequencer id) place services.old services.new) }
{
    // It is the first lock to grant, and its sequence is active.
    laws::locks_go_in_order();
    laws::lockers_are_there();
    laws::wiring_stays();
    let time = services.time;
    let phase = phase_at(services.start_records.as_slice(), id);
    let who = Who::Sequence {
        id,
        home: sequencer,
    };
    let held = StoredCall::new(services.agenda.alloc(), &Call::Held)?;
    schedule_call(services, who, phase, held, time, place)?;
    let known = services.grant_index.known(sequencer);
    settle_at(
        &mut services.arbiters,
        &services.sequences,
        known,
        sequencer,
        id,
    );
    // The requests that the new holder blocks are counted once.
    let passed = passed_at(&services.arbiters, &services.sequences, 0, sequencer);
    services.grant_index.learn(sequencer, passed);
    services.report_state.newest = None;
    Ok(())
}

/// Records that a sequencer grants an item request, and schedules the call to its sequence, which it returns (Clause 15). The random number
/// `word` decides if one is needed. Errors: out of memory.
pub fn grant(
    services: &mut Services,
    place: u32,
    sequencer: NodeId,
    word: Option<u64>,
) -> Result<SeqId, AllocError>
    requires { IsEntryContext (λ history. cases.Grant sequencer (is_some word) (chosen_at history sequencer)) place services.old }
    ensures chosen { IfOk result (λ id. (script : ScriptValue) (history : List Entry) → ServicesMatch script history services.old → chosen_at history sequencer word ≡ Some id) }
    ensures goes_on { IfOk result (λ id. PreservesMatch (λ history. cases.Grant sequencer (is_some word) (chosen_at history sequencer)) (Granted sequencer (record { id = id; word = word })) place services.old services.new) }
{
    // It is the first sequencer that can serve its driver, and the chosen sequence is active.
    laws::grants_go_in_order();
    laws::chosen_are_there();
    // A blocked request stays blocked.
    sequencers::passed_stays();
    laws::wiring_stays();
    let time = services.time;
    let known = services.grant_index.known(sequencer);
    let id = choose_at(
        &mut services.arbiters,
        &services.sequences,
        known,
        sequencer,
        word,
    );
    let who = Who::Sequence {
        id,
        home: sequencer,
    };
    let phase = phase_at(services.start_records.as_slice(), id);
    let held = StoredCall::new(services.agenda.alloc(), &Call::Grant)?;
    schedule_call(services, who, phase, held, time, place)?;
    services.report_state.newest = None;
    Ok(id)
}

/// Records that a transfer at a FIFO completes, and schedules the call to its requester (Clause 12). Errors: out of memory.
pub fn pass_item(
    services: &mut Services,
    place: u32,
    fifo: NodeId,
    passage: &Passage,
) -> Result<(), AllocError>
    ensures { OnOk result (PreservesMatch (λ _. Exactly (Passed fifo passage.now)) (Passed fifo passage.now) place services.old services.new) }
{
    // It is the next transfer.
    laws::passages_go_in_order();
    // The call is scheduled in a phase that has not ended, and goes to a component.
    laws::passages_are_in_phase();
    laws::waiters_are_components();
    laws::wiring_stays();
    tell_passed(services, place, passage)?;
    pass(&mut services.fifo_states, fifo);
    services.report_state.newest = None;
    Ok(())
}
