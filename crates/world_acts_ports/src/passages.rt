//! Puts, takes and peeks through ports (IEEE 1800.2-2020, Clause 12).

ghost use Rattle.std.specs.Prelude.{◌≡◌, ◌++◌, [], ◌∷◌, Some, IfOk};
ghost use Rattle.uvm_acts.specs.declared.acts.Act.TheVariants.{Put, TryPut, Take, TryTake, Peek};
ghost use Rattle.world_services.specs.OpenPorts.{IsOpenFifoPort};
ghost use Rattle.world_services.specs.ActResults.{CanPerform, IsActResult};

use bench_history::{FifoPort, Requester};
use std::alloc::{AllocError, Global};
use uvm_glob::Name;
use uvm_object::{Call, Fatal, LoggedOutcome};
use uvm_phase::Phase;
use uvm_tlm::{Item, PortKind};
use world_services::act_results::{ActResult, done, refused};
use world_services::services::Services;
use world_services::tells::tell;
use world_wiring::fifo_states::{ask_put, ask_take, put_at_once, take_at_once};
use world_wiring::ports::{fifo_port_of, port_below};
use world_wiring::stores::set_fifo_to_settle;

/// Requests a put through a port of the performer, or refuses it: with `OutsideTask` outside of phases that take time, then `NoPort`.
/// Errors: out of memory.
pub fn put(
    services: &mut Services,
    alloc: Global,
    place: u32,
    name: &Name,
    item: Item,
) -> Result<ActResult, AllocError>
    requires { CanPerform services.old }
    ensures { IfOk result (λ act_result. IsActResult (Put name.now item) act_result place services.old services.new) }
{
    let (phase, fifo_port) = match open_fifo_port(services, PortKind::Put, name) {
        Ok(open) => open,
        Err(fatal) => return refused(services, alloc, fatal),
    };
    let requester = requester(services, phase, place, name);
    ask_put(&mut services.fifo_states, fifo_port.fifo, requester, item)?;
    set_fifo_to_settle(&mut services.fifos_to_settle, fifo_port.fifo)?;
    Ok(done(services))
}

/// Puts an item through a port of the performer immediately if the FIFO is not full and no put waits. Schedules the call that reports
/// whether it did. Refuses it with `OutsideTask`, then `NoPort`. Errors: out of memory.
pub fn try_put(
    services: &mut Services,
    alloc: Global,
    place: u32,
    name: &Name,
    item: Item,
) -> Result<ActResult, AllocError>
    requires { CanPerform services.old }
    ensures { IfOk result (λ act_result. IsActResult (TryPut name.now item) act_result place services.old services.new) }
{
    let (_, fifo_port) = match open_fifo_port(services, PortKind::Put, name) {
        Ok(open) => open,
        Err(fatal) => return refused(services, alloc, fatal),
    };
    let stored = put_at_once(&mut services.fifo_states, fifo_port.fifo, item)?;
    set_fifo_to_settle(&mut services.fifos_to_settle, fifo_port.fifo)?;
    let call = Call::TryStored {
        port: *name,
        stored,
    };
    tell(services, call, services.time, place)?;
    services.report_state.newest = None;
    Ok(ActResult::Completed(LoggedOutcome::stored(stored)))
}

/// Requests a take through a port of the performer, or refuses it: with `OutsideTask` outside of phases that take time, then `NoPort`.
/// Errors: out of memory.
pub fn take(
    services: &mut Services,
    alloc: Global,
    place: u32,
    name: &Name,
) -> Result<ActResult, AllocError>
    requires { CanPerform services.old }
    ensures { IfOk result (λ act_result. IsActResult (Take name.now) act_result place services.old services.new) }
{
    let (phase, fifo_port) = match open_fifo_port(services, PortKind::Get, name) {
        Ok(open) => open,
        Err(fatal) => return refused(services, alloc, fatal),
    };
    let requester = requester(services, phase, place, name);
    ask_take(&mut services.fifo_states, fifo_port.fifo, requester, false)?;
    set_fifo_to_settle(&mut services.fifos_to_settle, fifo_port.fifo)?;
    Ok(done(services))
}

/// Takes an item through a port of the performer immediately if the FIFO has one and no take or peek waits. Schedules the call that reports
/// which, if any. Refuses it with `OutsideTask`, then `NoPort`. Errors: out of memory.
pub fn try_take(
    services: &mut Services,
    alloc: Global,
    place: u32,
    name: &Name,
) -> Result<ActResult, AllocError>
    requires { CanPerform services.old }
    ensures { IfOk result (λ act_result. IsActResult (TryTake name.now) act_result place services.old services.new) }
{
    let (_, fifo_port) = match open_fifo_port(services, PortKind::Get, name) {
        Ok(open) => open,
        Err(fatal) => return refused(services, alloc, fatal),
    };
    let item = take_at_once(&mut services.fifo_states, fifo_port.fifo);
    set_fifo_to_settle(&mut services.fifos_to_settle, fifo_port.fifo)?;
    let call = Call::TryTaken { port: *name, item };
    tell(services, call, services.time, place)?;
    services.report_state.newest = None;
    Ok(ActResult::Completed(LoggedOutcome::taken(alloc, item)?))
}

/// Requests a peek through a port of the performer, or refuses it: with `OutsideTask` outside of phases that take time, then `NoPort`.
/// Errors: out of memory.
pub fn peek(
    services: &mut Services,
    alloc: Global,
    place: u32,
    name: &Name,
) -> Result<ActResult, AllocError>
    requires { CanPerform services.old }
    ensures { IfOk result (λ act_result. IsActResult (Peek name.now) act_result place services.old services.new) }
{
    let (phase, fifo_port) = match open_fifo_port(services, PortKind::Get, name) {
        Ok(open) => open,
        Err(fatal) => return refused(services, alloc, fatal),
    };
    let requester = requester(services, phase, place, name);
    ask_take(&mut services.fifo_states, fifo_port.fifo, requester, true)?;
    set_fifo_to_settle(&mut services.fifos_to_settle, fifo_port.fifo)?;
    Ok(done(services))
}

// Returns the phase of the action, and the FIFO port of this name. Errors: `OutsideTask` if the phase takes no time; `NoPort`.
#[tactic(auto, unfolding(bench_history::specs::Refusals::passing_refusal))]
fn open_fifo_port(
    services: &Services,
    kind: PortKind,
    name: &Name,
) -> Result<(Phase, FifoPort), Fatal>
    ensures { IsOpenFifoPort services.now kind name.now result }
{
    let phase = match services.answer.phase {
        Some(phase) if phase.is_task() => phase,
        _ => return Err(Fatal::OutsideTask),
    };
    let performer = services.answer.performer;
    let (tree, wiring) = (&services.tree, &services.wiring);
    let port = port_below(tree, wiring, &performer, kind, name);
    match fifo_port_of(wiring, port) {
        Some(fifo_port) => Ok((phase, fifo_port)),
        None => Err(Fatal::NoPort),
    }
}

// Returns the performer as the requester at a FIFO port.
fn requester(services: &Services, phase: Phase, place: u32, name: &Name) -> Requester
    ensures { result ≡ record { place = place; who = services.now.answer.performer; port = name.now; phase = phase } }
{
    Requester {
        place: u64::from(place),
        who: services.answer.performer,
        port: *name,
        phase,
    }
}
