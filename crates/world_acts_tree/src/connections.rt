//! The action that connects two ends (IEEE 1800.2-2020, Clause 12).

ghost use Rattle.std.specs.Prelude.{◌≡◌, ℕ, [], Some, None, IfOk};
ghost use Rattle.uvm_acts.specs.declared.acts.Act.TheVariants.{Connect};
ghost use Rattle.bench_history.specs.Wires.{node_below};
ghost use Rattle.world_services.specs.ActResults.{CanPerform, IsActResult};

use std::alloc::{AllocError, Global};
use uvm_glob::Path;
use uvm_object::Fatal;
use world_services::act_results::{ActResult, done, refused};
use world_services::services::Services;
use world_wiring::connections::{connect_ends, node_below};

/// Connects a port or an export to another end, or refuses it: with `ConnectedTooLate`, then the refusal of the ends. Errors: out of
/// memory.
pub fn connect(
    services: &mut Services,
    alloc: Global,
    from: &Path,
    to: &Path,
) -> Result<ActResult, AllocError>
    requires { CanPerform services.old }
    ensures { IfOk result (λ act_result. (place : ℕ) → IsActResult (Connect from.now to.now) act_result place services.old services.new) }
{
    if services.past_connect {
        return refused(services, alloc, Fatal::ConnectedTooLate);
    }
    let performer = services.answer.performer;
    let from = node_below(&services.tree, &performer, from);
    let to = node_below(&services.tree, &performer, to);
    match connect_ends(&mut services.wiring, from, to)? {
        Some(fatal) => refused(services, alloc, fatal),
        None => Ok(done(services)),
    }
}
