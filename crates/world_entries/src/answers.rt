//! Records the calls that objects receive, and their answers.

ghost use Rattle.std.specs.Prelude.{◌≡◌, List, false, length, Some, None, IfSome};
ghost use Rattle.uvm_acts.specs.declared.acts.Act.{Act};
ghost use Rattle.uvm_acts.specs.declared.acts.Call as calls;
ghost use Rattle.uvm_object.specs.declared.entries.Entry.TheVariants.{Heard};
ghost use Rattle.bench_history.specs.Cases.{Answer};
ghost use Rattle.bench_history.specs.History.{phase_heard};
ghost use Rattle.world_services.specs.PhaseCursors.{IsHeardInPhaseCursors};
ghost use Rattle.world_entries.specs.Coming.{PreservesMatch, IsEntryContext};

use bench_history::{EventTarget, laws};
use uvm_object::{Call, Origin, Who};
use uvm_phase::{Phase, laws as agenda};
use uvm_tree::{NodeId, laws as trees};
use world_services::phase_cursors::PhaseCursors;
use world_services::services::{AnswerCursor, Services};

/// Records that `who` received a call and answered with `count` actions, in the entry at `place`. The call was scheduled with `origin`;
/// without an origin it is the callback of an active phase.
pub fn hear(
    services: &mut Services,
    place: u32,
    who: Who,
    call: &Call,
    origin: Option<Origin>,
    count: usize,
)
    requires { IsEntryContext (λ _. Answer who call.now origin) place services.old }
    ensures { (acts : List Act) → length acts ≡ count → PreservesMatch (λ _. Answer who call.now origin) (Heard who origin call.now acts) place services.old services.new }
{
    match origin {
        None => hear_in_turn(services, place, who, call, count),
        Some(origin) => hear_due(services, place, who, origin, count),
    }
}

// Records that `who` received the callback of an active phase and answered with `count` actions, in the entry at `place`.
fn hear_in_turn(services: &mut Services, place: u32, who: Who, call: &Call, count: usize)
    ensures { (acts : List Act) → length acts ≡ count → PreservesMatch (λ _. Answer who call.now None) (Heard who None call.now acts) place services.old services.new }
{
    // The receiver of the call is active, and its node exists: for a sequence that is its sequencer.
    laws::asked_are_there();
    laws::homes_are_nodes();
    // The receiver is the first of the components that wait, in the order of the phase.
    laws::calls_go_in_turn();
    laws::nodes_are_a_tree();
    trees::nodes_are_ordered();
    trees::least_is_least();
    // No request can be granted.
    laws::answers_are_settled();
    laws::wiring_stays();
    let phase = phase_called(call);
    hear_call(&mut services.phase_cursors, phase, who.node());
    services.report_state.newest = None;
    services.grant_index.close();
    services.answer = answer_cursor(place, who, phase, count);
}

// Records that the next component of a phase received its callback; does nothing without a phase.
fn hear_call(phase_cursors: &mut PhaseCursors, phase: Option<Phase>, node: NodeId)
    ensures { IfSome phase (λ phase. IsHeardInPhaseCursors phase node phase_cursors.old phase_cursors.new) }
{
    if let Some(phase) = phase {
        phase_cursors.hear(phase, node);
    }
}

// Returns the phase of a call that was not scheduled: the phase whose callback it is.
fn phase_called(call: &Call) -> Option<Phase>
    ensures { result ≡ phase_heard call.now None }
{
    match call {
        Call::Phase(phase) => Some(*phase),
        _ => None,
    }
}

// Records that `who` received a scheduled call and answered with `count` actions, in the entry at `place`. The actions belong to the phase
// of the call.
fn hear_due(services: &mut Services, place: u32, who: Who, origin: Origin, count: usize)
    requires { (call : calls.Call) × IsEntryContext (λ _. Answer who call (Some origin)) place services.old }
    ensures { (call : calls.Call) (acts : List Act) → length acts ≡ count → PreservesMatch (λ _. Answer who call (Some origin)) (Heard who (Some origin) call acts) place services.old services.new }
{
    // The call is the first event of the agenda, and is removed from it.
    laws::due_calls_go_in_order();
    // The target of the event is active, and its node exists: for a sequence that is its sequencer.
    laws::asked_are_there();
    laws::homes_are_nodes();
    agenda::order_keeps_all::<EventTarget, Option<Call>>();
    agenda::order_loses_first::<EventTarget, Option<Call>>();
    // No request can be granted.
    laws::answers_are_settled();
    laws::wiring_stays();
    services.pass_blocked();
    services.grant_index.close();
    services.report_state.newest = None;
    let _ = services.agenda.take_first();
    services.answer = answer_cursor(place, who, Some(origin.phase), count);
}

// Returns the cursor of an answer of which no action is performed yet.
fn answer_cursor(place: u32, who: Who, phase: Option<Phase>, count: usize) -> AnswerCursor
    ensures { result ≡ record { performer = who; phase = phase; place = Some place; count = count; done = 0; noted = false } }
{
    AnswerCursor {
        performer: who,
        phase,
        place: Some(place as usize),
        count,
        done: 0,
        noted: false,
    }
}
