//! Dispatches each action to the module that performs it, and appends the entry of an action.

ghost use Rattle.std.specs.Prelude.{◌≡◌, ◌∷◌, ◌<◌, ◌+◌, ◌||◌, ◌==◌, length, true, OnOk, OnErr, IfOk, IsOk};
ghost use Rattle.uvm_object.specs.declared.entries.Entry.TheVariants.{Did};
ghost use Rattle.bench_history.specs.Refusals.{is_open_to};
ghost use Rattle.world_services.specs.ActResults.{CanPerform, IsActResult, IsActResultOfAny};

use crate::logs::push;
use std::alloc::{AllocError, Global};
use uvm_object::{Act, Entry, Fatal, Log, LoggedOutcome, StoredAct};
use world_acts_ports::performing::perform_port_act;
use world_acts_sequencers::performing::perform_sequencer_act;
use world_acts_tree::performing::perform_tree_act;
use world_services::act_results::{ActResult, is_open_to, refused};
use world_services::services::{AnswerCursor, Services};

/// Performs an action of the performer or refuses it, or returns which object it needs. The entry of the action gets `place` in the log.
/// Refuses it with `NotOpen` if it is not open to the performer. Errors: out of memory.
pub fn perform(
    services: &mut Services,
    alloc: Global,
    place: u32,
    act: &Act,
) -> Result<ActResult, AllocError>
    requires { CanPerform services.old }
    ensures { IfOk result (λ act_result. IsActResultOfAny act.now act_result place services.old services.new) }
{
    let performer = services.answer.performer;
    if !is_open_to(act, &performer) {
        return refused(services, alloc, Fatal::NotOpen);
    }
    perform_open(services, alloc, place, act)
}

// Performs an action that is open to the performer, like `perform`. Errors: out of memory.
fn perform_open(
    services: &mut Services,
    alloc: Global,
    place: u32,
    act: &Act,
) -> Result<ActResult, AllocError>
    requires can { CanPerform services.old }
    requires open { is_open_to act.now services.old.answer.performer ≡ true }
    ensures { IfOk result (λ act_result. IsActResult act.now act_result place services.old services.new) }
{
    match act {
        Act::Put { .. }
        | Act::TryPut { .. }
        | Act::Take { .. }
        | Act::TryTake { .. }
        | Act::Peek { .. }
        | Act::Write { .. } => perform_port_act(services, alloc, place, act),
        Act::Ask { .. }
        | Act::ItemDone { .. }
        | Act::Start { .. }
        | Act::Request { .. }
        | Act::Lock
        | Act::Grab
        | Act::Unlock
        | Act::Send { .. }
        | Act::EndStep => perform_sequencer_act(services, alloc, place, act),
        Act::Create { .. }
        | Act::Add { .. }
        | Act::Set { .. }
        | Act::Get { .. }
        | Act::OverrideType { .. }
        | Act::OverrideInst { .. }
        | Act::Connect { .. }
        | Act::Report { .. }
        | Act::Verbosity { .. }
        | Act::Actions { .. }
        | Act::Severity { .. }
        | Act::RaiseObjection { .. }
        | Act::DropObjection { .. }
        | Act::SetDrain { .. }
        | Act::Wait { .. } => perform_tree_act(services, alloc, place, act),
    }
}

/// Appends the entry of an action to the log, and counts the action of the answer as done. Errors: out of memory, only if no capacity was
/// reserved. An error leaves the entries unchanged.
pub fn enter(
    log: &mut Log,
    answer: &mut AnswerCursor,
    outcome: LoggedOutcome,
    stored_act: StoredAct,
) -> Result<(), AllocError>
    requires room { length log.old.entries < log.old.limit }
    requires open { answer.old.done < answer.old.count }
    ensures ok { OnOk result (log.new.entries ≡ Did answer.old.performer outcome stored_act ∷ log.old.entries) }
    ensures answer { OnOk result (answer.new ≡ record answer.old { done = answer.old.done + 1 }) }
    ensures err { OnErr result (log.new.entries ≡ log.old.entries) }
    ensures limit { log.new.limit ≡ log.old.limit }
    ensures memory { 0 < log.old.spare → IsOk result }
{
    let entry = Entry::Did {
        who: answer.performer,
        outcome,
        act: stored_act,
    };
    push(log, entry)?;
    answer.done = one_more(answer.done, answer.count);
    Ok(())
}

fn one_more(done: usize, count: usize) -> usize
    requires { done < count }
    ensures { result ≡ done + 1 }
{
    prove!(done < count);
    done + 1
}
