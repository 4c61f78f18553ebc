//! The actions of drivers at their sequencers (IEEE 1800.2-2020, Clause 15).

ghost use Rattle.std.specs.Prelude.{◌≡◌, ◌∷◌, [], IfOk, option_and_then};
ghost use Rattle.uvm_acts.specs.declared.acts.Act.TheVariants.{Ask, ItemDone};
ghost use Rattle.bench_history.specs.Dues.{calls_of_done};
ghost use Rattle.world_acts_sequencers.specs.DriversMatch.{IsReached, reached_at, waiting_outcome};
ghost use Rattle.world_services.specs.ActResults.{CanPerform, IsActResult, unreported};

use bench_history::{DriverPort, DueCall};
use std::alloc::{AllocError, Global};
use uvm_glob::Name;
use uvm_object::{Call, Fatal, LoggedOutcome, Who};
use uvm_phase::Phase;
use uvm_sequencer::{Asked, How};
use uvm_sequences::SeqId;
use uvm_tlm::{Item, PortKind, Wiring};
use uvm_tree::{NodeId, laws as trees};
use world_sequencing::arbiters::{Arbiters, Reached, ask_at, done_at};
use world_sequencing::start_records::phase_at;
use world_services::act_results::{ActResult, done, refused};
use world_services::services::Services;
use world_services::tells::{tell, tell_living};
use world_state::stages::in_task;
use world_wiring::ports::port_below;

/// Requests an item for the performer, a driver, through a port, or refuses it: with `OutsideTask`, then `NoPort`, then `AskedTwice`.
/// Errors: out of memory.
pub fn ask(
    services: &mut Services,
    alloc: Global,
    place: u32,
    name: &Name,
    how: How,
) -> Result<ActResult, AllocError>
    requires { CanPerform services.old }
    ensures { IfOk result (λ act_result. IsActResult (Ask name.now how) act_result place services.old services.new) }
{
    trees::path_order_is_in_order();
    let reached = match reached_through(services, name) {
        Ok(reached) => reached,
        Err(fatal) => return refused(services, alloc, fatal),
    };
    let driver = DriverPort {
        who: services.answer.performer,
        name: *name,
        phase: services.answer.phase,
    };
    let known = services.grant_index.known(reached.sequencer);
    let (arbiters, sequences) = (&mut services.arbiters, &services.sequences);
    match ask_at(arbiters, sequences, known, &reached, driver, how) {
        Ok(Asked::Waits) => {
            services.grant_index.open_at(reached.sequencer)?;
            Ok(waiting(services, how))
        }
        Ok(Asked::Nothing) => {
            let call = Call::NextItem {
                port: *name,
                item: None,
            };
            tell(services, call, services.time, place)?;
            services.report_state.newest = None;
            Ok(ActResult::Completed(LoggedOutcome::waits(false)))
        }
        Err(fatal) => refused(services, alloc, fatal),
    }
}

// Completes the request of a driver that waits, without a report. For a `Try` the outcome says that it waits.
fn waiting(services: &mut Services, how: How) -> ActResult
    ensures act_result { result ≡ ActResult.Completed (waiting_outcome how) }
    ensures services { services.new ≡ unreported services.old }
{
    match how {
        How::Try => {
            services.report_state.newest = None;
            ActResult::Completed(LoggedOutcome::waits(true))
        }
        How::Next | How::Get => done(services),
    }
}

/// Completes the current item of the performer, a driver. Schedules the call that reports it to the sequence of the item, if that is
/// active. Refuses it with `OutsideTask`, then `NoPort`, then `NothingOut`. Errors: out of memory.
pub fn item_done(
    services: &mut Services,
    alloc: Global,
    place: u32,
    name: &Name,
    response: Option<Item>,
) -> Result<ActResult, AllocError>
    requires { CanPerform services.old }
    ensures { IfOk result (λ act_result. IsActResult (ItemDone name.now response) act_result place services.old services.new) }
{
    trees::path_order_is_in_order();
    let reached = match reached_through(services, name) {
        Ok(reached) => reached,
        Err(fatal) => return refused(services, alloc, fatal),
    };
    match done_at(&mut services.arbiters, &reached) {
        Ok(id) => {
            services.grant_index.open_at(reached.sequencer)?;
            let phase = phase_at(services.start_records.as_slice(), id);
            let calls = done_calls(alloc, reached.sequencer, id, phase, response)?;
            tell_living(services, place, calls.as_slice())?;
            Ok(done(services))
        }
        Err(fatal) => refused(services, alloc, fatal),
    }
}

// Returns the call to the sequence that sent the item, in the phase in which that sequence was started. Errors: out of memory.
fn done_calls(
    alloc: Global,
    home: NodeId,
    id: SeqId,
    phase: Option<Phase>,
    response: Option<Item>,
) -> Result<Vec<DueCall>, AllocError>
    ensures { IfOk result (λ calls. calls.items ≡ calls_of_done (λ one. phase) response home (Some id)) }
{
    let mut calls = Vec::new(alloc);
    let who = Who::Sequence { id, home };
    let call = Call::ItemDone { response };
    calls.push(DueCall { who, call, phase })?;
    Ok(calls)
}

// Returns the sequencer that the performer reaches through one of its seq ports. Errors: `OutsideTask` if the phase takes no time;
// `NoPort`.
fn reached_through(services: &Services, name: &Name) -> Result<Reached, Fatal>
    ensures { IsReached services.now name.now result }
{
    if !in_task(services.answer.phase) {
        return Err(Fatal::OutsideTask);
    }
    let performer = services.answer.performer;
    let (tree, wiring) = (&services.tree, &services.wiring);
    let port = port_below(tree, wiring, &performer, PortKind::Seq, name);
    match reached_at(wiring, &services.arbiters, port) {
        Some(reached) => Ok(reached),
        None => Err(Fatal::NoPort),
    }
}

// Returns the sequencer that a port reaches, if any.
fn reached_at(wiring: &Wiring, arbiters: &Arbiters, port: Option<NodeId>) -> Option<Reached>
    ensures { result ≡ option_and_then (reached_at wiring.now arbiters.now) port }
{
    let port = port?;
    let sequencer = *wiring.resolve(port).first()?;
    if arbiters.contains_key(&sequencer) {
        Some(Reached { port, sequencer })
    } else {
        None
    }
}
