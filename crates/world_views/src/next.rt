//! What can happen next in a world.

ghost use Rattle.std.specs.Prelude.{◌≡◌, true, None, IsSome, option_map};
ghost use Rattle.std.specs.Bool.{OnTrue, OnFalse};
ghost use Rattle.uvm_acts.specs.declared.acts.Call.TheVariants as call;
ghost use Rattle.uvm_acts.specs.declared.acts.Who.TheVariants as who;
ghost use Rattle.std.specs.Option.{option_copied};
ghost use Rattle.bench_history.specs.Arbitration.{next_locked, next_served};
ghost use Rattle.bench_history.specs.Dues.{due_now};
ghost use Rattle.bench_history.specs.Cases.{Answer, phase_call};
ghost use Rattle.bench_history.specs.History.{in_progress, next_call, stage_of};
ghost use Rattle.bench_history.specs.Passing.{next_passed};

use crate::status;
use bench_history::{EventTarget, laws};
use bench_world::World;
use uvm_object::{EventCall, Passage};
use uvm_phase::{Due, Phase};
use uvm_sequences::SeqId;
use uvm_tree::{NodeId, laws as trees};
use world_sequencing::arbiters::{first_locked, first_served};
use world_wiring::fifo_states::first_passing;

/// Returns the first event that is due at the current time: a call to its target, or the end of a drain. Requires a consistent world.
#[tactic(auto, unfolding(bench_history::specs::Dues::due_now))]
pub fn due_now(world: &World) -> Option<&Due<EventTarget, EventCall>>
    requires { world.now.sound ≡ true }
    ensures { option_copied result ≡ due_now world.now.script world.now.history }
{
    match world.services().agenda.first() {
        Some(due) if due.time == status::now(world) => Some(due),
        _ => None,
    }
}

/// Returns the first FIFO in path order at which a waiting request can complete, and its transfer (Clause 12). Requires a consistent world.
#[tactic(auto, unfolding(bench_history::specs::Passing::next_passed))]
pub fn next_passed(world: &World) -> Option<(NodeId, Passage)>
    requires { world.now.sound ≡ true }
    ensures { result ≡ next_passed world.now.history }
{
    let services = world.services();
    first_passing(&services.fifo_states, services.fifos_to_settle.as_slice())
}

/// Returns whether a request that waits at a FIFO can complete (Clause 12). Requires a consistent world.
pub fn is_passing(world: &World) -> bool
    requires { world.now.sound ≡ true }
    ensures some { OnTrue result (IsSome (next_passed world.now.history)) }
    ensures none { OnFalse result (next_passed world.now.history ≡ None) }
{
    let services = world.services();
    if services.fifos_to_settle.as_slice().is_empty() {
        return false;
    }
    passes(world)
}

// Returns whether a transfer can complete. (Not inlined, so that the caller needs no stack space for a `Passage`.)
#[inline(never)]
fn passes(world: &World) -> bool
    requires { world.now.sound ≡ true }
    ensures some { OnTrue result (IsSome (next_passed world.now.history)) }
    ensures none { OnFalse result (next_passed world.now.history ≡ None) }
{
    next_passed(world).is_some()
}

/// Returns the first sequencer in path order at which a lock can be granted, and the sequence that gets the lock (Clause 15). Requires a
/// consistent world.
pub fn next_locked(world: &World) -> Option<(NodeId, SeqId)>
    requires { world.now.sound ≡ true }
    ensures { result ≡ next_locked world.now.history }
{
    let services = world.services();
    first_locked(
        &services.arbiters,
        &services.sequences,
        &services.grant_index,
    )
}

/// Returns the first sequencer in path order whose driver waits and that has a candidate, and whether a random number decides which
/// sequence is granted (Clause 15). Requires a consistent world.
pub fn next_served(world: &World) -> Option<(NodeId, bool)>
    requires { world.now.sound ≡ true }
    ensures { result ≡ next_served world.now.history }
{
    let services = world.services();
    first_served(
        &services.arbiters,
        &services.sequences,
        &services.grant_index,
    )
}

/// Returns the next component to call in a phase (Clause 9): of those without a call since the phase began, the least in the order of the
/// phase. Requires a consistent world.
#[tactic(auto, unfolding(bench_history::specs::History::next_call))]
pub fn next_call(world: &World, phase: Phase) -> Option<NodeId>
    requires { world.now.sound ≡ true }
    ensures { result ≡ next_call phase world.now.history }
{
    // It is the first of the components that wait for their call, and the components are all nodes of this kind.
    laws::components_by_kind();
    trees::nodes_are_ordered();
    trees::least_is_least();
    trees::one_is_least();
    let services = world.services();
    services.phase_cursors.first(&services.tree, phase)
}

/// Returns the component that receives the next phase call, and the phase: the first active phase in which a component still lacks its
/// call. The run phase precedes the run-time phase that is active in parallel with it (Clause 9). Requires a consistent world.
pub fn next_turn(world: &World) -> Option<(NodeId, Phase)>
    requires { world.now.sound ≡ true }
    ensures { option_map (λ turn. Answer (who.Node turn.0) (call.Phase turn.1) None) result ≡ phase_call world.now.history (in_progress (stage_of world.now.history)) }
{
    let phase = status::phase(world)?;
    if phase.is_runtime()
        && let Some(node) = next_call(world, Phase::Run)
    {
        return Some((node, Phase::Run));
    }
    let node = next_call(world, phase)?;
    Some((node, phase))
}
