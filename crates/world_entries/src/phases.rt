//! Records phases and time, drains, notes, and the end of a run.

ghost use Rattle.std.specs.Prelude.{◌≡◌, ◌||◌, [], ◌∷◌, ◌≤◌, ◌^◌, OnOk, IfOk, ℕ, List, unwrap_or, if◌then◌else◌};
ghost use Rattle.uvm_phase.specs.Phases.{is_runtime};
ghost use Rattle.uvm_object.specs.declared.entries.Entry.{Entry};
ghost use Rattle.uvm_object.specs.declared.entries.Reason as reasons;
ghost use Rattle.uvm_object.specs.declared.entries.Entry.TheVariants.{Begin, End, Time, Drained, Note, Over};
ghost use Rattle.bench_script.specs.Scripts.{ScriptValue};
ghost use Rattle.bench_history.specs.Cases.{Exactly};
ghost use Rattle.bench_history.specs.History.{ends_build};
ghost use Rattle.bench_history.specs.Sequences.{leaving_of};
ghost use Rattle.bench_history.specs.Wires.{ends_connect};
ghost use Rattle.world_state.specs.ReportsMatch.{CanReport};
ghost use Rattle.world_services.specs.Services.{ServicesMatch};
ghost use Rattle.world_entries.specs.Coming.{PreservesMatch, IsEntryContext};

use bench_history::{EventTarget, RunStage, laws};
use std::alloc::{AllocError, Global};
use uvm_object::{Call, Fatal, Origin, Who};
use uvm_objection::laws as objections;
use uvm_phase::{Phase, laws as agenda};
use uvm_tlm::Wiring;
use uvm_tree::{NodeId, laws as trees};
use world_sequencing::arbiters::{end_phase, lapsed_with};
use world_sequencing::ends::{finish_all, leaving_with};
use world_services::act_results::report_at;
use world_services::services::Services;
use world_services::tells::move_drains;
use world_state::events::tell_each;
use world_wiring::connections::close_after;
use world_wiring::fifo_states::end_waits;

/// Records that a phase begins (IEEE 1800.2-2020, Clause 9).
pub fn begin(services: &mut Services, phase: Phase)
    ensures { (place : ℕ) → PreservesMatch (λ _. Exactly (Begin phase)) (Begin phase) place services.old services.new }
{
    // The phases that were active go on in parallel with it.
    laws::phases_begin_behind();
    laws::wiring_stays();
    services.report_state.newest = None;
    services.stage = RunStage::During(phase);
    services.phase_cursors.begin(phase);
}

/// Records that a phase ends (Clause 9), in the entry at `place`. Ends all active sequences that were started in it, and returns them
/// (Clause 14). If such a sequence has a grant and the driver asked in a phase that goes on, the grant is withdrawn. If the request was a
/// `try`, the driver receives the call that there is no item. Errors: out of memory.
pub fn end(
    services: &mut Services,
    alloc: Global,
    place: u32,
    phase: Phase,
) -> Result<Vec<Who>, AllocError>
    requires { IsEntryContext (λ _. Exactly (End phase)) place services.old }
    ensures leaving { IfOk result (λ leaving. (script : ScriptValue) (history : List Entry) → ServicesMatch script history services.old → leaving.items ≡ leaving_of (End phase ∷ history)) }
    ensures goes_on { OnOk result (PreservesMatch (λ _. Exactly (End phase)) (End phase) place services.old services.new) }
{
    agenda::order_keeps_filters::<EventTarget, Option<Call>>();
    laws::wiring_stays();
    // When connect closes the wiring, build has ended, and each node occurs in the path order once.
    laws::connect_follows_build();
    trees::path_order_is_in_order();
    // If no phase goes on in parallel with it, all active sequences were started in it, and all requests of drivers end with it.
    laws::living_run();
    laws::running_phases_end();
    laws::asks_are_in_phase();
    laws::phases_in_progress_are_open();
    laws::task_phases_follow_connect();
    let start_records = services.start_records.as_slice();
    let leaving = leaving_with(alloc, &services.sequences, start_records, phase)?;
    close_after(&mut services.wiring, &services.tree, alloc, phase)?;
    services.report_state.newest = None;
    services.stage = RunStage::After(phase);
    services.agenda.clear(phase);
    end_waits(&mut services.fifo_states, phase);
    finish_all(&mut services.sequences, leaving.as_slice());
    let (arbiters, sequences) = (&services.arbiters, &services.sequences);
    let nodes = reopened(&services.wiring, phase);
    let lapsed = lapsed_with(alloc, arbiters, sequences, nodes, phase)?;
    services.grant_index.reopen(nodes)?;
    end_phase(&mut services.arbiters, &services.sequences, phase);
    let (sequences, time) = (&services.sequences, services.time);
    tell_each(
        &mut services.agenda,
        sequences,
        time,
        place,
        lapsed.as_slice(),
    )?;
    services.built = is_built_with(phase, services.built);
    services.past_connect = is_past_connect_with(phase, services.past_connect);
    Ok(leaving)
}

// Returns the nodes at which a request can be granted after a phase ended, which could not be before: all in path order if other phases go
// on, otherwise none.
fn reopened(wiring: &Wiring, phase: Phase) -> &[NodeId]
    ensures { result.now ≡ (if is_runtime phase then unwrap_or wiring.now.order [] else []) }
{
    if phase.is_runtime() {
        wiring.order()
    } else {
        &[]
    }
}

// Returns whether build has ended, once `phase` has ended.
fn is_built_with(phase: Phase, built: bool) -> bool
    ensures { result ≡ (ends_build (End phase) || built) }
{
    matches!(phase, Phase::Build) || built
}

// Returns whether connect has ended, once `phase` has ended.
fn is_past_connect_with(phase: Phase, past: bool) -> bool
    ensures { result ≡ (ends_connect (End phase) || past) }
{
    matches!(phase, Phase::Connect) || past
}

/// Records that time advances to a value of at most 10^18, in ticks (Clause 9).
pub fn pass_time(services: &mut Services, time: u64)
    requires { time ≤ 10 ^ 18 }
    ensures { (place : ℕ) → PreservesMatch (λ _. Exactly (Time time)) (Time time) place services.old services.new }
{
    laws::wiring_stays();
    services.report_state.newest = None;
    services.time = time;
}

/// Records that the drain of a node ends, in the objection of the phase of its origin. The delayed count is propagated to the parent (IEEE
/// 1800.2-2020, 10.5). A drain that begins with it belongs to the same phase. Errors: out of memory.
pub fn end_drain(
    services: &mut Services,
    place: u32,
    node: NodeId,
    origin: Origin,
) -> Result<(), AllocError>
    requires { IsEntryContext (λ _. Exactly (Drained node origin)) place services.old }
    ensures { OnOk result (PreservesMatch (λ _. Exactly (Drained node origin)) (Drained node origin) place services.old services.new) }
{
    // It is the first event of the agenda, so the node delays a count, and its drain is due now.
    laws::drains_go_in_order();
    agenda::order_keeps_all::<EventTarget, Option<Call>>();
    objections::places_stay();
    objections::nodes_grow();
    objections::settled_go_by_totals();
    objections::begun_drains_are_held();
    laws::wiring_stays();
    let phase = origin.phase;
    let began = services.objections.drained(phase, node)?;
    move_drains(services, phase, place, began, Some(node))?;
    services.report_state.newest = None;
    Ok(())
}

/// Records that the kernel reports at a node, and that the remaining actions of the last answer are skipped. Errors: out of memory.
pub fn note(
    services: &mut Services,
    alloc: Global,
    fatal: Fatal,
    node: NodeId,
) -> Result<(), AllocError>
    requires { CanReport services.old.report_state }
    ensures { OnOk result ((place : ℕ) → PreservesMatch (λ _. Exactly (Note fatal node)) (Note fatal node) place services.old services.new) }
{
    laws::wiring_stays();
    let report = fatal.report(alloc)?;
    report_at(services, alloc, node, &report)?;
    services.answer.noted = true;
    Ok(())
}

/// Records that the run has ended.
pub fn finish(services: &mut Services)
    ensures { (reason : reasons.Reason) (place : ℕ) → PreservesMatch (λ _. Exactly (Over reason)) (Over reason) place services.old services.new }
{
    laws::wiring_stays();
    services.report_state.newest = None;
    services.stage = RunStage::Ended;
}
