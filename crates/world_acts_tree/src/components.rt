//! The action that creates a component.

ghost use Rattle.std.specs.Prelude.{◌≡◌, ℕ, IfOk, ◌<◌};
ghost use Rattle.uvm_acts.specs.declared.acts.Act.TheVariants.{Create};
ghost use Rattle.world_state.specs.ReportsMatch.{CanReport};
ghost use Rattle.world_services.specs.ActResults.{IsActResult};

use std::alloc::{AllocError, Global};
use uvm_glob::Name;
use world_services::act_results::{ActResult, refused};
use world_services::creations::{CreationError, what_is_created};
use world_services::services::Services;

/// Returns which object the creation of a component below the performer's node needs, or refuses it as `what_is_created` says. Errors: out
/// of memory.
pub fn create(
    services: &mut Services,
    alloc: Global,
    type_name: &Name,
    name: &Name,
) -> Result<ActResult, AllocError>
    requires { CanReport services.old.report_state }
    ensures { IfOk result (λ act_result. (place : ℕ) → IsActResult (Create type_name.now name.now) act_result place services.old services.new) }
{
    let performer = services.answer.performer;
    match what_is_created(services, &performer, type_name, name) {
        Ok(need) => Ok(ActResult::Needed { need, home: None }),
        Err(CreationError::Refused(fatal)) => refused(services, alloc, fatal),
        Err(CreationError::Memory) => Err(AllocError),
    }
}
