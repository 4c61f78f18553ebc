//! Dispatches each action through a port to its function.

ghost use Rattle.std.specs.Prelude.{IfOk};
ghost use Rattle.world_services.specs.ActResults.{CanPerform, IsActResult};
ghost use Rattle.world_acts_ports.specs.PortsKinds.{IsPortAct};

use crate::passages::{peek, put, take, try_put, try_take};
use crate::writes::write;
use std::alloc::{AllocError, Global};
use uvm_object::Act;
use world_services::act_results::ActResult;
use world_services::services::Services;

/// Performs an action through a port of the performer, or refuses it. Errors: out of memory.
pub fn perform_port_act(
    services: &mut Services,
    alloc: Global,
    place: u32,
    act: &Act,
) -> Result<ActResult, AllocError>
    requires can { CanPerform services.old }
    requires kind { IsPortAct act.now }
    ensures { IfOk result (λ act_result. IsActResult act.now act_result place services.old services.new) }
{
    match act {
        Act::Put { port, item } => put(services, alloc, place, port, *item),
        Act::TryPut { port, item } => try_put(services, alloc, place, port, *item),
        Act::Take { port } => take(services, alloc, place, port),
        Act::TryTake { port } => try_take(services, alloc, place, port),
        Act::Peek { port } => peek(services, alloc, place, port),
        Act::Write { port, item } => write(services, alloc, place, port, *item),
        _ => unreachable!(),
    }
}
