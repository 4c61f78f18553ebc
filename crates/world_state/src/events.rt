//! The events that are due: calls that entries cause, and the ends of drains.

ghost use Rattle.std.specs.Prelude.{◌≡◌, IfOk, OnOk, ◌∷◌, [], true, ◌<◌, IsOk, Some};
ghost use Rattle.std.specs.Option.{option_to_list};
ghost use Rattle.bench_history.specs.Dues.{caused_at, is_of_one, event_in, calls_numbered};
ghost use Rattle.bench_history.specs.EventTargets.{is_drain_of};
ghost use Rattle.uvm_acts.specs.declared.acts.Act.TheVariants.{EndStep};
ghost use Rattle.bench_history.specs.Refusals.{is_open_to};
ghost use Rattle.world_state.specs.Agendas.{Reschedules, Schedules};
ghost use Rattle.world_state.specs.CallsMatch.{if_told, living_numbered, is_told};

use bench_history::{DueCall, EventTarget};
use std::alloc::AllocError;
use std::hash::Hash;
use uvm_object::{EventCall, StoredCall, Who};
use uvm_phase::{Agenda, Cause, Phase, laws as agendas};
use uvm_sequences::Sequences;
use uvm_tree::NodeId;

/// Removes the end of a drain from the agenda, if a drain has ended. `ended` is the node that delayed an objection by its drain time, and
/// `phase` the phase of the objection.
pub fn end_drain(agenda: &mut Agenda<EventTarget, EventCall>, phase: Phase, ended: Option<NodeId>)
    ensures { Reschedules [] (is_drain_of phase (option_to_list ended)) agenda.old.dues agenda.new.dues }
{
    agendas::order_keeps_filters::<EventTarget, EventCall>();
    if let Some(node) = ended {
        agenda.cancel(&EventTarget::Drain(node, phase));
    }
}

/// Removes all events whose target is a sequence that has finished.
pub fn cancel(agenda: &mut Agenda<EventTarget, EventCall>, performer: Who)
    requires { is_open_to EndStep performer ≡ true }
    ensures { Reschedules [] (is_of_one (performer ∷ [])) agenda.old.dues agenda.new.dues }
{
    agendas::order_keeps_filters::<EventTarget, EventCall>();
    agenda.cancel(&EventTarget::Object(performer));
}

/// Returns the cause of the only event that the entry at a place of the log causes.
pub fn caused_at(place: u32) -> Cause
    ensures { result ≡ caused_at place }
{
    Cause { place, number: 0 }
}

// Returns the cause of the call with this number among those of the entry at a place. Errors: out of memory, if the number exceeds 32 bits,
// as memory cannot hold so many calls of one entry.
fn numbered(place: u32, number: usize) -> Result<Cause, AllocError>
    ensures { IfOk result (λ cause. cause ≡ record { place = place; number = number }) }
{
    match u32::try_from(number) {
        Ok(number) => Ok(Cause { place, number }),
        Err(_) => Err(AllocError),
    }
}

/// Schedules an event of `phase` at `time` ticks; does nothing if there is no phase. Errors: out of memory, only if the agenda has no
/// reserved capacity.
pub fn add_event<O: Copy + Eq + Hash + Drop, N: Drop>(
    agenda: &mut Agenda<O, N>,
    phase: Option<Phase>,
    time: u64,
    cause: Cause,
    owner: O,
    notice: N,
) -> Result<(), AllocError>
    ensures dues { OnOk result (Schedules (event_in phase time cause owner notice) agenda.old.dues agenda.new.dues) }
    ensures memory { 0 < agenda.old.spare → IsOk result }
{
    match phase {
        Some(phase) => agenda.due(time, cause, phase, owner, notice),
        None => Ok(()),
    }
}

/// Schedules a call to `who` in `phase` at `time` ticks; does nothing if there is no phase. Errors: out of memory, only if the agenda has no
/// reserved capacity.
pub fn add_call(
    agenda: &mut Agenda<EventTarget, EventCall>,
    phase: Option<Phase>,
    time: u64,
    cause: Cause,
    who: Who,
    call: StoredCall,
) -> Result<(), AllocError>
    ensures dues { OnOk result (Schedules (event_in phase time cause (EventTarget.Object who) (Some call)) agenda.old.dues agenda.new.dues) }
    ensures memory { 0 < agenda.old.spare → IsOk result }
{
    add_event(
        agenda,
        phase,
        time,
        cause,
        EventTarget::Object(who),
        EventCall::of_call(call),
    )
}

/// Schedules calls at `time` ticks, each in its phase, except those to sequences that have ended. Their cause is the entry at `place`,
/// and they are numbered in their order. Errors: out of memory.
pub fn tell_each(
    agenda: &mut Agenda<EventTarget, EventCall>,
    sequences: &Sequences,
    time: u64,
    place: u32,
    calls: &[DueCall],
) -> Result<(), AllocError>
    ensures { OnOk result (Schedules (living_numbered (is_told sequences.now.steps) time place 0 calls.now) agenda.old.dues agenda.new.dues) }
{
    for (number, told) in calls.iter().enumerate() {
        let cause = numbered(place, number)?;
        tell_if(agenda, is_told(sequences, &told.who), time, cause, told)?;
    }
    Ok(())
}

// Schedules a call at `time` ticks if its receiver still receives calls. Errors: out of memory.
fn tell_if(
    agenda: &mut Agenda<EventTarget, EventCall>,
    tells: bool,
    time: u64,
    cause: Cause,
    told: &DueCall,
) -> Result<(), AllocError>
    ensures { OnOk result (Schedules (if_told tells (event_in told.now.phase time cause (EventTarget.Object told.now.who) (Some told.now.call))) agenda.old.dues agenda.new.dues) }
{
    if !tells {
        return Ok(());
    }
    let held = StoredCall::new(agenda.alloc(), &told.call)?;
    add_call(agenda, told.phase, time, cause, told.who, held)
}

/// Returns whether `who` still receives calls: every component does, and every active sequence.
pub fn is_told(sequences: &Sequences, who: &Who) -> bool
    ensures { result ≡ is_told sequences.now.steps who.now }
{
    match who {
        Who::Node(_) => true,
        Who::Sequence { id, .. } => sequences.is_live(*id),
    }
}

/// Schedules calls at `time` ticks, each in its phase. Their cause is the entry at `place`, and they are numbered in their order.
/// Errors: out of memory.
pub fn tell_all(
    agenda: &mut Agenda<EventTarget, EventCall>,
    time: u64,
    place: u32,
    calls: &[DueCall],
) -> Result<(), AllocError>
    ensures { OnOk result (Schedules (calls_numbered time place 0 calls.now) agenda.old.dues agenda.new.dues) }
{
    for (number, told) in calls.iter().enumerate() {
        let cause = numbered(place, number)?;
        let held = StoredCall::new(agenda.alloc(), &told.call)?;
        add_call(agenda, told.phase, time, cause, told.who, held)?;
    }
    Ok(())
}
