//! Calls that the services schedule, and the ends of drains.

ghost use Rattle.std.specs.Prelude.{◌≡◌, OnOk, Some, ◌<◌, IsOk};
ghost use Rattle.std.specs.List.{flat_map};
ghost use Rattle.std.specs.Option.{option_to_list};
ghost use Rattle.bench_history.specs.Dues.{caused_at, drain_from, due_from, call_of_passage};
ghost use Rattle.bench_history.specs.EventTargets.{is_drain_of};
ghost use Rattle.world_state.specs.Agendas.{Reschedules, Schedules};
ghost use Rattle.world_state.specs.CallsMatch.{living_numbered, is_told};

use crate::services::Services;
use bench_history::{DueCall, EventTarget};
use std::alloc::AllocError;
use uvm_object::{Call, EventCall, Passage, StoredCall, Who};
use uvm_objection::Due;
use uvm_phase::Phase;
use uvm_tlm::MoveKind;
use uvm_tree::NodeId;
use world_state::events::{add_call, add_event, caused_at, end_drain, tell_each};

/// Schedules the end of the drain that began in the objection of a phase, if any. Removes the scheduled end of the drain that has ended
/// there, if any. The place of the entry is the cause. Errors: out of memory.
pub fn move_drains(
    services: &mut Services,
    phase: Phase,
    place: u32,
    began: Option<Due>,
    ended: Option<NodeId>,
) -> Result<(), AllocError>
    ensures dues { OnOk result (Reschedules (flat_map (drain_from phase (caused_at place)) (option_to_list began)) (is_drain_of phase (option_to_list ended)) services.old.agenda.dues services.new.agenda.dues) }
    ensures rest { services.new ≡ record services.old { agenda = services.new.agenda } }
{
    end_drain(&mut services.agenda, phase, ended);
    if let Some(drain) = began {
        let owner = EventTarget::Drain(drain.node, phase);
        prove!(owner.who() == Who::Node(drain.node));
        let cause = caused_at(place);
        add_event(
            &mut services.agenda,
            Some(phase),
            drain.at,
            cause,
            owner,
            EventCall::nothing(),
        )?;
    }
    Ok(())
}

/// Schedules now the call that reports a completed transfer to its requester. The place of the entry is the cause. Errors: out of memory.
pub fn tell_passed(services: &mut Services, place: u32, passage: &Passage) -> Result<(), AllocError>
    ensures dues { OnOk result (Schedules (due_from (Some (call_of_passage passage.now.kind passage.now)) passage.now.who (Some passage.now.phase) services.old.time (caused_at place)) services.old.agenda.dues services.new.agenda.dues) }
    ensures rest { services.new ≡ record services.old { agenda = services.new.agenda } }
{
    let (time, phase) = (services.time, Some(passage.phase));
    let held = StoredCall::new(services.agenda.alloc(), &call_of_passage(passage))?;
    schedule_call(services, passage.who, phase, held, time, place)
}

fn call_of_passage(passage: &Passage) -> Call
    ensures { result ≡ call_of_passage passage.now.kind passage.now }
{
    let (port, item) = (passage.port, passage.item);
    match passage.kind {
        MoveKind::Put => Call::Stored { port },
        MoveKind::Take => Call::Taken { port, item },
        MoveKind::Peek => Call::Peeked { port, item },
    }
}

/// Schedules a call to the performer, in the phase of its action and at a time in ticks. The place of the entry is the cause. Errors: out
/// of memory.
pub fn tell(services: &mut Services, call: Call, time: u64, place: u32) -> Result<(), AllocError>
    ensures dues { OnOk result (Schedules (due_from (Some call) services.old.answer.performer services.old.answer.phase time (caused_at place)) services.old.agenda.dues services.new.agenda.dues) }
    ensures rest { services.new ≡ record services.old { agenda = services.new.agenda } }
{
    let (performer, phase) = (services.answer.performer, services.answer.phase);
    let held = StoredCall::new(services.agenda.alloc(), &call)?;
    schedule_call(services, performer, phase, held, time, place)
}

/// Schedules a call to `who`, in a phase and at a time in ticks; does nothing if there is no phase. The place of the entry is the cause.
/// Errors: out of memory, only if no capacity was reserved.
pub fn schedule_call(
    services: &mut Services,
    who: Who,
    phase: Option<Phase>,
    call: StoredCall,
    time: u64,
    place: u32,
) -> Result<(), AllocError>
    ensures dues { OnOk result (Schedules (due_from (Some call) who phase time (caused_at place)) services.old.agenda.dues services.new.agenda.dues) }
    ensures rest { services.new ≡ record services.old { agenda = services.new.agenda } }
    ensures memory { 0 < services.old.agenda.spare → IsOk result }
{
    let agenda = &mut services.agenda;
    add_call(agenda, phase, time, caused_at(place), who, call)
}

/// Schedules calls for the current time, each in its phase, except calls to sequences that have ended. The place of the entry is the cause,
/// and the calls are numbered in their order. Errors: out of memory.
pub fn tell_living(services: &mut Services, place: u32, calls: &[DueCall]) -> Result<(), AllocError>
    ensures dues { OnOk result (Schedules (living_numbered (is_told services.old.sequences.steps) services.old.time place 0 calls.now) services.old.agenda.dues services.new.agenda.dues) }
    ensures rest { services.new ≡ record services.old { agenda = services.new.agenda } }
{
    let time = services.time;
    let agenda = &mut services.agenda;
    tell_each(agenda, &services.sequences, time, place, calls)
}
