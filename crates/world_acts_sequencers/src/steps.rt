//! The steps of sequences (IEEE 1800.2-2020, Clause 14).

ghost use Rattle.std.specs.Prelude.{◌≡◌, ◌∷◌, ◌++◌, [], true, OnOk, IfOk};
ghost use Rattle.uvm_sequences.specs.Sequences.{finished, name_at};
ghost use Rattle.uvm_acts.specs.declared.acts.Act.TheVariants.{EndStep};
ghost use Rattle.bench_history.specs.Dues.{step_call};
ghost use Rattle.bench_history.specs.Refusals.{is_open_to};
ghost use Rattle.world_acts_sequencers.specs.DriversMatch.{IsFinished, finished_calls, lapsed_item};
ghost use Rattle.world_sequencing.specs.SequencesMatch.{start_record_at};
ghost use Rattle.world_services.specs.ActResults.{IsActResult};

use bench_history::{DriverPort, DueCall};
use std::alloc::{AllocError, Global};
use uvm_object::{Call, LoggedOutcome};
use uvm_sequences::{SeqId, laws};
use uvm_tree::laws as trees;
use world_sequencing::arbiters::{driver_at, leave_at, push_item};
use world_sequencing::start_records::{sequence_in, start_record_at, step_call};
use world_services::act_results::{ActResult, done};
use world_services::services::Services;
use world_services::tells::{tell, tell_living};
use world_state::events::cancel;

/// Ends the current step of the performer, a sequence. Schedules the call for its next step, if there is one. Otherwise ends the sequence,
/// and schedules the call to its starter. Errors: out of memory.
pub fn end_step(services: &mut Services, alloc: Global, place: u32) -> Result<ActResult, AllocError>
    requires { is_open_to EndStep services.old.answer.performer ≡ true }
    ensures { IfOk result (λ act_result. IsActResult EndStep act_result place services.old services.new) }
{
    trees::path_order_is_in_order();
    // The step of no other sequence changes.
    laws::steps_change_alone();
    let performer = services.answer.performer;
    let Some(id) = sequence_in(&performer) else {
        unreachable!()
    };
    let time = services.time;
    match services.sequences.step(id) {
        Some(step) => {
            tell(services, step_call(step), time, place)?;
            Ok(done(services))
        }
        None => {
            finish(services, alloc, place, id)?;
            services.report_state.newest = None;
            Ok(ActResult::Completed(LoggedOutcome::finished()))
        }
    }
}

// Ends a sequence: cancels its events, skips the actions left in its answer, and removes its requests and locks. Schedules the call to its
// starter, and to a driver whose `Try` loses its grant. Errors: out of memory.
fn finish(services: &mut Services, alloc: Global, place: u32, id: SeqId) -> Result<(), AllocError>
    requires { is_open_to EndStep services.old.answer.performer ≡ true }
    ensures { OnOk result (IsFinished id place services.old services.new) }
{
    let performer = services.answer.performer;
    let home = performer.node();
    services.sequences.finish(id);
    services.answer.noted = true;
    services.grant_index.open_at(home)?;
    services.grant_index.learn(home, 0);
    cancel(&mut services.agenda, performer);
    let driver = driver_at(&services.arbiters, home);
    let lapses = leave_at(&mut services.arbiters, home, id);
    let calls = calls_left(alloc, services, id, driver, lapses)?;
    tell_living(services, place, calls.as_slice())
}

// Returns the calls that the end of a sequence causes: to its starter, and to a driver whose `Try` loses its grant. Errors: out of memory.
fn calls_left(
    alloc: Global,
    services: &Services,
    id: SeqId,
    driver: Option<DriverPort>,
    lapses: bool,
) -> Result<Vec<DueCall>, AllocError>
    ensures { IfOk result (λ calls. calls.items ≡ finished_calls (start_record_at services.now.start_records.items id) (name_at services.now.sequences.started id) id ++ lapsed_item lapses driver) }
{
    let mut calls = finished_calls(alloc, services, id)?;
    if lapses {
        push_item(&mut calls, driver, None)?;
    }
    Ok(calls)
}

// Returns the call that reports to the starter of a sequence that it has finished, in the phase in which it was started. Errors: out of
// memory.
fn finished_calls(alloc: Global, services: &Services, id: SeqId) -> Result<Vec<DueCall>, AllocError>
    ensures { IfOk result (λ calls. calls.items ≡ finished_calls (start_record_at services.now.start_records.items id) (name_at services.now.sequences.started id) id) }
{
    let mut calls = Vec::new(alloc);
    let start_record = start_record_at(services.start_records.as_slice(), id);
    if let (Some(start_record), Some(name)) = (start_record, services.sequences.name(id)) {
        let (who, phase) = (start_record.starter, start_record.phase);
        let call = Call::Finished { name: *name, id };
        calls.push(DueCall { who, call, phase })?;
    }
    Ok(calls)
}
