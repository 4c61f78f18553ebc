//! The actions of sequences at their sequencers (IEEE 1800.2-2020, Clause 15).

ghost use Rattle.std.specs.Prelude.{◌≡◌, ◌<◌, ◌++◌, ℕ, Some, None, true, false, IfOk, OnOk};
ghost use Rattle.uvm_acts.specs.declared.acts.Act.TheVariants.{Request, Lock, Grab, Unlock, Send};
ghost use Rattle.uvm_object.specs.declared.entries.Outcome.TheVariants.{Done};
ghost use Rattle.bench_history.specs.Arbitration.{request_priority};
ghost use Rattle.bench_history.specs.Dues.{calls_of_item, calls_of_send};
ghost use Rattle.bench_history.specs.Refusals.{is_none_at_all, is_open_to};
ghost use Rattle.world_acts_sequencers.specs.DriversMatch.{IsContested, IsContestedAnew};
ghost use Rattle.world_services.specs.ActResults.{CanPerform, IsActResult};

use bench_history::{DriverPort, DueCall};
use std::alloc::{AllocError, Global};
use uvm_object::{Call, Fatal, Who};
use uvm_phase::Phase;
use uvm_sequencer::{How, laws as sequencers};
use uvm_sequences::{SeqId, Sequences};
use uvm_tlm::Item;
use uvm_tree::{NodeId, laws as trees};
use world_sequencing::arbiters::{
    driver_at, grab_for, lock_for, push_item, request_at, send_at, unlock_at,
};
use world_sequencing::start_records::{is_none_at_all, sequence_in, start_priority};
use world_services::act_results::{ActResult, done, refused};
use world_services::services::Services;
use world_services::tells::tell_living;

/// Requests to send an item for the performer, a sequence, or refuses it: with `OutOfRange` for priority 0, then `AskedTwice`. Errors: out
/// of memory.
pub fn request(
    services: &mut Services,
    alloc: Global,
    priority: Option<u16>,
) -> Result<ActResult, AllocError>
    requires can { CanPerform services.old }
    requires open { is_open_to (Request priority) services.old.answer.performer ≡ true }
    ensures { IfOk result (λ act_result. (place : ℕ) → IsActResult (Request priority) act_result place services.old services.new) }
{
    trees::path_order_is_in_order();
    // A blocked request stays blocked.
    sequencers::passed_stays();
    if is_none_at_all(priority) {
        return refused(services, alloc, Fatal::OutOfRange);
    }
    let performer = services.answer.performer;
    let home = performer.node();
    let Some(id) = sequence_in(&performer) else {
        unreachable!()
    };
    let priority = request_priority(&services.sequences, id, priority);
    match request_at(&mut services.arbiters, home, id, priority)? {
        None => contested(services, home),
        Some(fatal) => refused(services, alloc, fatal),
    }
}

/// Requests a lock for the performer, a sequence, or refuses it with `AskedTwice`. Errors: out of memory.
pub fn lock(services: &mut Services, alloc: Global) -> Result<ActResult, AllocError>
    requires can { CanPerform services.old }
    requires open { is_open_to Lock services.old.answer.performer ≡ true }
    ensures { IfOk result (λ act_result. (place : ℕ) → IsActResult Lock act_result place services.old services.new) }
{
    trees::path_order_is_in_order();
    // A blocked request stays blocked.
    sequencers::passed_stays();
    let performer = services.answer.performer;
    let home = performer.node();
    let Some(id) = sequence_in(&performer) else {
        unreachable!()
    };
    match lock_for(&mut services.arbiters, home, id)? {
        None => contested(services, home),
        Some(fatal) => refused(services, alloc, fatal),
    }
}

/// Requests a lock before all other requests for the performer, a sequence, or refuses it with `AskedTwice`. Errors: out of memory.
pub fn grab(services: &mut Services, alloc: Global) -> Result<ActResult, AllocError>
    requires can { CanPerform services.old }
    requires open { is_open_to Grab services.old.answer.performer ≡ true }
    ensures { IfOk result (λ act_result. (place : ℕ) → IsActResult Grab act_result place services.old services.new) }
{
    trees::path_order_is_in_order();
    let performer = services.answer.performer;
    let home = performer.node();
    let Some(id) = sequence_in(&performer) else {
        unreachable!()
    };
    match grab_for(&mut services.arbiters, home, id)? {
        None => contested_anew(services, home),
        Some(fatal) => refused(services, alloc, fatal),
    }
}

/// Releases the latest lock of the performer, a sequence, or refuses it with `NotHeld`. Errors: out of memory.
pub fn unlock(services: &mut Services, alloc: Global) -> Result<ActResult, AllocError>
    requires can { CanPerform services.old }
    requires open { is_open_to Unlock services.old.answer.performer ≡ true }
    ensures { IfOk result (λ act_result. (place : ℕ) → IsActResult Unlock act_result place services.old services.new) }
{
    trees::path_order_is_in_order();
    let performer = services.answer.performer;
    let home = performer.node();
    let Some(id) = sequence_in(&performer) else {
        unreachable!()
    };
    match unlock_at(&mut services.arbiters, home, id) {
        None => contested_anew(services, home),
        Some(fatal) => refused(services, alloc, fatal),
    }
}

/// Sends the item of the performer, a sequence, to the driver, or refuses it with `NotGranted`. Errors: out of memory.
pub fn send(
    services: &mut Services,
    alloc: Global,
    place: u32,
    item: Item,
) -> Result<ActResult, AllocError>
    requires can { CanPerform services.old }
    requires open { is_open_to (Send item) services.old.answer.performer ≡ true }
    ensures { IfOk result (λ act_result. IsActResult (Send item) act_result place services.old services.new) }
{
    trees::path_order_is_in_order();
    let performer = services.answer.performer;
    let home = performer.node();
    let Some(id) = sequence_in(&performer) else {
        unreachable!()
    };
    let driver = driver_at(&services.arbiters, home);
    match send_at(&mut services.arbiters, home, id) {
        Some(how) => {
            let phase = services.answer.phase;
            let calls = sent_calls(alloc, phase, &performer, driver, item, how)?;
            tell_living(services, place, calls.as_slice())?;
            contested(services, home)
        }
        None => refused(services, alloc, Fatal::NotGranted),
    }
}

// Returns the calls that a sent item causes, in the phase of the action: to the driver, and for a `Get` also to the performer, that the
// item is done. Errors: out of memory.
fn sent_calls(
    alloc: Global,
    phase: Option<Phase>,
    performer: &Who,
    driver: Option<DriverPort>,
    item: Item,
    how: How,
) -> Result<Vec<DueCall>, AllocError>
    ensures { IfOk result (λ calls. calls.items ≡ calls_of_send phase performer.now driver item (Some how)) }
{
    let mut calls = Vec::new(alloc);
    push_item(&mut calls, driver, Some(item))?;
    if let How::Get = how {
        let who = performer.copy();
        let call = Call::ItemDone { response: None };
        calls.push(DueCall { who, call, phase })?;
    }
    Ok(calls)
}

// Completes an action at a sequencer, without a report: a request can be granted there, and nowhere else. Errors: out of memory.
fn contested(services: &mut Services, home: NodeId) -> Result<ActResult, AllocError>
    ensures act_result { IfOk result (λ act_result. act_result ≡ ActResult.Completed Done) }
    ensures services { OnOk result (IsContested home services.old services.new) }
{
    services.grant_index.open_at(home)?;
    Ok(done(services))
}

// Completes an action at a sequencer like `contested`, after which no request there is known to be blocked. Errors: out of memory.
fn contested_anew(services: &mut Services, home: NodeId) -> Result<ActResult, AllocError>
    ensures act_result { IfOk result (λ act_result. act_result ≡ ActResult.Completed Done) }
    ensures services { OnOk result (IsContestedAnew home services.old services.new) }
{
    services.grant_index.open_at(home)?;
    services.grant_index.learn(home, 0);
    Ok(done(services))
}

// Returns the priority of a request: the given one, else that of its sequence.
fn request_priority(sequences: &Sequences, id: SeqId, given: Option<u16>) -> u16
    requires { is_none_at_all given ≡ false }
    ensures value { result ≡ request_priority sequences.now.started id given }
    ensures positive { 0 < result }
{
    start_priority(sequences, Some(id), given)
}
