//! Dispatches each action of a driver or of a sequence to its function.

ghost use Rattle.std.specs.Prelude.{◌≡◌, true, IfOk};
ghost use Rattle.bench_history.specs.Refusals.{is_open_to};
ghost use Rattle.world_services.specs.ActResults.{CanPerform, IsActResult};
ghost use Rattle.world_acts_sequencers.specs.SequencersKinds.{IsSequencerAct};

use crate::drivers::{ask, item_done};
use crate::requests::{grab, lock, request, send, unlock};
use crate::starts::start;
use crate::steps::end_step;
use std::alloc::{AllocError, Global};
use uvm_object::Act;
use world_services::act_results::ActResult;
use world_services::services::Services;

/// Performs an action of a driver at a sequencer, a start of a sequence, or an action of a sequence, or refuses it. The action is open to
/// the performer. A start may need its object first. Errors: out of memory.
pub fn perform_sequencer_act(
    services: &mut Services,
    alloc: Global,
    place: u32,
    act: &Act,
) -> Result<ActResult, AllocError>
    requires can { CanPerform services.old }
    requires open { is_open_to act.now services.old.answer.performer ≡ true }
    requires kind { IsSequencerAct act.now }
    ensures { IfOk result (λ act_result. IsActResult act.now act_result place services.old services.new) }
{
    match act {
        Act::Ask { port, how } => ask(services, alloc, place, port, *how),
        Act::ItemDone { port, response } => item_done(services, alloc, place, port, *response),
        Act::Start {
            type_name,
            name,
            on,
            priority,
        } => start(services, alloc, type_name, name, on, *priority),
        Act::Request { priority } => request(services, alloc, *priority),
        Act::Lock => lock(services, alloc),
        Act::Grab => grab(services, alloc),
        Act::Unlock => unlock(services, alloc),
        Act::Send { item } => send(services, alloc, place, *item),
        Act::EndStep => end_step(services, alloc, place),
        _ => unreachable!(),
    }
}
