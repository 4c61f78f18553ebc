//! Writes to all that an analysis port reaches (IEEE 1800.2-2020, Clause 12).

ghost use Rattle.std.specs.Prelude.{◌≡◌, ◌++◌, [], IfOk};
ghost use Rattle.uvm_acts.specs.declared.acts.Act.TheVariants.{Write};
ghost use Rattle.world_services.specs.OpenPorts.{IsOpenOutlet};
ghost use Rattle.world_services.specs.ActResults.{CanPerform, IsActResult};

use std::alloc::{AllocError, Global};
use uvm_glob::Name;
use uvm_object::Fatal;
use uvm_tlm::{Item, PortKind, laws};
use uvm_tree::NodeId;
use world_services::act_results::{ActResult, done, refused};
use world_services::services::Services;
use world_state::events::tell_all;
use world_state::stages::in_task;
use world_wiring::ports::{port_below, written_calls};
use world_wiring::stores::{set_fifos_to_settle, store_all};

/// Writes an item to all targets of an analysis port of the performer, or refuses it: with `OutsideTask`, then `NoPort`. Errors: out of
/// memory.
pub fn write(
    services: &mut Services,
    alloc: Global,
    place: u32,
    name: &Name,
    item: Item,
) -> Result<ActResult, AllocError>
    requires { CanPerform services.old }
    ensures { IfOk result (λ act_result. IsActResult (Write name.now item) act_result place services.old services.new) }
{
    // Each target is reached once, and takes the item immediately.
    laws::targets_are_reached();
    laws::targets_accept_the_kind();
    let port = match open_outlet(services, name) {
        Ok(port) => port,
        Err(fatal) => return refused(services, alloc, fatal),
    };
    let (phase, time) = (services.answer.phase, services.time);
    let targets = services.wiring.resolve(port);
    store_all(&mut services.fifo_states, targets, item)?;
    set_fifos_to_settle(&mut services.fifos_to_settle, targets)?;
    let (tree, wiring) = (&services.tree, &services.wiring);
    let calls = written_calls(alloc, tree, wiring, targets, item, phase)?;
    tell_all(&mut services.agenda, time, place, calls.as_slice())?;
    Ok(done(services))
}

// Returns the analysis port of a name. Errors: `OutsideTask` if the phase of the action takes no time; `NoPort`.
#[tactic(auto, unfolding(bench_history::specs::Refusals::passing_refusal))]
fn open_outlet(services: &Services, name: &Name) -> Result<NodeId, Fatal>
    ensures { IsOpenOutlet services.now name.now result }
{
    if !in_task(services.answer.phase) {
        return Err(Fatal::OutsideTask);
    }
    let performer = services.answer.performer;
    let (tree, wiring) = (&services.tree, &services.wiring);
    match port_below(tree, wiring, &performer, PortKind::Analysis, name) {
        Some(port) => Ok(port),
        None => Err(Fatal::NoPort),
    }
}
