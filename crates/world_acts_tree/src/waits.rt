//! The action that waits for a number of ticks.

ghost use Rattle.std.specs.Prelude.{◌≡◌, ◌<◌, ◌≤◌, ◌++◌, IfOk, IfNone, Some};
ghost use Rattle.uvm_acts.specs.declared.acts.Act.TheVariants.{Wait};
ghost use Rattle.bench_history.specs.Limits.{most_ticks};
ghost use Rattle.bench_history.specs.Refusals.{wait_refusal};
ghost use Rattle.world_services.specs.ActResults.{CanPerform, IsActResult};

use std::alloc::{AllocError, Global};
use uvm_object::{Call, Fatal};
use uvm_phase::{MAX_TICKS, Phase};
use world_services::act_results::{ActResult, done, refused};
use world_services::services::Services;
use world_services::tells::tell;
use world_state::stages::in_task;

/// Schedules the call that wakes the performer after `ticks` ticks, or refuses it. Refuses it with `OutsideTask` for more than 0 ticks in a
/// phase that takes no time, then with `OutOfRange` for more than 10^15 ticks. Errors: out of memory.
pub fn wait(
    services: &mut Services,
    alloc: Global,
    place: u32,
    ticks: u64,
    tag: u32,
) -> Result<ActResult, AllocError>
    requires { CanPerform services.old }
    ensures { IfOk result (λ act_result. IsActResult (Wait ticks tag) act_result place services.old services.new) }
{
    if let Some(fatal) = wait_refusal(services.answer.phase, ticks) {
        return refused(services, alloc, fatal);
    }
    let time = services.time + ticks;
    tell(services, Call::Wake { tag }, time, place)?;
    Ok(done(services))
}

// Returns why a wait is refused, if so.
#[tactic(auto, unfolding(bench_history::specs::Refusals::wait_refusal))]
fn wait_refusal(phase: Option<Phase>, ticks: u64) -> Option<Fatal>
    ensures refusal { result ≡ wait_refusal phase ticks }
    ensures few { IfNone result (ticks ≤ most_ticks) }
{
    if ticks > 0 && !in_task(phase) {
        return Some(Fatal::OutsideTask);
    }
    if ticks > MAX_TICKS {
        return Some(Fatal::OutOfRange);
    }
    None
}
