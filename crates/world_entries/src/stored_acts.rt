//! Performs an action of the last answer: its entry is appended to the log, or it waits for an object.

ghost use Rattle.std.specs.Prelude.{◌≡◌, ◌<◌, length, OnErr, IfOk, Some, slice_get};
ghost use Rattle.std.specs.Option.{option_copied};
ghost use Rattle.uvm_acts.specs.declared.acts.Act.{Act};
ghost use Rattle.bench_history.specs.Sequences.{leaving_after};
ghost use Rattle.world_services.specs.ActResults.{CanPerform};
ghost use Rattle.world_services.specs.Services.{acts_at};
ghost use Rattle.world_entries.specs.StoredActs.{IsCarriedOut};

use crate::making::{PendingCreation, make_room};
use crate::performing::{enter, perform};
use std::alloc::{AllocError, Global};
use uvm_object::{Entry, Log, LoggedOutcome, Outcome, StoredAct, Who};
use world_services::act_results::ActResult;
use world_services::services::Services;

/// Performs an action of the last answer, or refuses it, appends its entry to the log, and puts the sequence that it has ended into `leaving`,
/// if any. An action that needs an object is not performed: it waits for the object, and capacity is reserved for its entry. Returns it then.
/// Errors: out of memory. An error leaves the entries unchanged.
pub fn carry_out(
    log: &mut Log,
    services: &mut Services,
    alloc: Global,
    stored_act: StoredAct,
    leaving: &mut Vec<Who>,
) -> Result<Option<PendingCreation>, AllocError>
    requires can { CanPerform services.old }
    requires room { length log.old.entries < log.old.limit }
    requires open { services.old.answer.done < services.old.answer.count }
    ensures ok { IfOk result (λ pending. IsCarriedOut stored_act pending leaving.old.items leaving.new.items log.old log.new services.old services.new) }
    ensures err { OnErr result (log.new.entries ≡ log.old.entries) }
    ensures limit { log.new.limit ≡ log.old.limit }
{
    let performer = services.answer.performer;
    let act_result = perform(services, alloc, log.next_place(), stored_act.act().get())?;
    match act_result {
        ActResult::Completed(outcome) => {
            let ended = leaving_after(alloc, performer, &outcome)?;
            enter(log, &mut services.answer, outcome, stored_act)?;
            *leaving = ended;
            Ok(None)
        }
        ActResult::Needed { need, home } => {
            let pending = PendingCreation::new(alloc, need, stored_act, home)?;
            make_room(log, services, &pending.parts().declined.id)?;
            Ok(Some(pending))
        }
    }
}

// Returns the sequence that an action has ended, if any. Errors: out of memory.
fn leaving_after(
    alloc: Global,
    performer: Who,
    outcome: &LoggedOutcome,
) -> Result<Vec<Who>, AllocError>
    ensures { IfOk result (λ leaving. leaving.items ≡ leaving_after performer outcome.now) }
{
    let mut leaving = Vec::new(alloc);
    if let Outcome::Finished = outcome.get() {
        leaving.push(performer)?;
    }
    Ok(leaving)
}

/// Returns the action at a place of an answer, whose entry is at a place of the log; `None` if there is none.
pub fn stored_act_at(log: &Log, place: usize, act: usize) -> Option<&StoredAct>
    ensures { (test_creation : Act) → option_copied result ≡ slice_get (acts_at test_creation log.now.entries (Some place)) act }
{
    match log.get(place) {
        Some(Entry::Heard { acts, .. }) => acts.stored_act(act),
        _ => None,
    }
}
