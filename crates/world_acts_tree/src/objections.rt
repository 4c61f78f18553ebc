//! The actions on objections (IEEE 1800.2-2020, 10.5).

ghost use Rattle.std.specs.Prelude.{◌≡◌, ◌≤◌, ◌^◌, ◌||◌, ℕ, true, not, IsTrue, IfOk, OnOk, Some, if◌then◌else◌};
ghost use Rattle.uvm_acts.specs.declared.acts.Act.TheVariants.{RaiseObjection, DropObjection, SetDrain};
ghost use Rattle.uvm_phase.specs.Phases.{is_task};
ghost use Rattle.uvm_objection.specs.Nodes.{is_known, with_drain};
ghost use Rattle.bench_history.specs.History.{in_task, is_of_phase};
ghost use Rattle.world_state.specs.Phased.{nodes_in};
ghost use Rattle.world_services.specs.ActResults.{CanPerform, IsActResult};

use std::alloc::{AllocError, Global};
use uvm_object::Fatal;
use uvm_objection::laws;
use uvm_phase::{MAX_TICKS, Phase};
use uvm_tree::NodeId;
use world_services::act_results::{ActResult, done, refused};
use world_services::services::Services;
use world_services::tells::move_drains;
use world_state::faults::DropFault;
use world_state::objections::Objections;

/// Raises an objection at the performer's node to the end of the phase of the action, or refuses it with `OutsideTask`. Errors: out of
/// memory.
pub fn raise(
    services: &mut Services,
    alloc: Global,
    place: u32,
    count: u16,
) -> Result<ActResult, AllocError>
    requires { CanPerform services.old }
    ensures { IfOk result (λ act_result. IsActResult (RaiseObjection count) act_result place services.old services.new) }
{
    match services.answer.phase {
        Some(phase) if phase.is_task() => raise_in(services, phase, place, count),
        _ => refused(services, alloc, Fatal::OutsideTask),
    }
}

// Raises the objection, in a phase that takes time. Errors: out of memory.
fn raise_in(
    services: &mut Services,
    phase: Phase,
    place: u32,
    count: u16,
) -> Result<ActResult, AllocError>
    requires can { CanPerform services.old }
    requires phase { services.old.answer.phase ≡ Some phase }
    requires task { is_task phase ≡ true }
    ensures { IfOk result (λ act_result. IsActResult (RaiseObjection count) act_result place services.old services.new) }
{
    // The nodes keep their places, and only raises increase the total of the root. A drain that goes on stays due at its time.
    laws::places_stay();
    laws::nodes_grow();
    laws::settled_go_by_totals();
    laws::begun_drains_are_held();
    let node = services.answer.performer.node();
    let ended = services.objections.raise(phase, node, count)?;
    move_drains(services, phase, place, None, ended)?;
    Ok(done(services))
}

/// Drops an objection at the performer's node in the phase of the action, or refuses it: with `OutsideTask`, then `ObjectionBelowZero`.
/// Errors: out of memory.
pub fn drop(
    services: &mut Services,
    alloc: Global,
    place: u32,
    count: u16,
) -> Result<ActResult, AllocError>
    requires { CanPerform services.old }
    ensures { IfOk result (λ act_result. IsActResult (DropObjection count) act_result place services.old services.new) }
{
    match services.answer.phase {
        Some(phase) if phase.is_task() => drop_in(services, alloc, phase, place, count),
        _ => refused(services, alloc, Fatal::OutsideTask),
    }
}

// Drops the objection, in a phase that takes time, or refuses it with `ObjectionBelowZero`. Errors: out of memory.
fn drop_in(
    services: &mut Services,
    alloc: Global,
    phase: Phase,
    place: u32,
    count: u16,
) -> Result<ActResult, AllocError>
    requires can { CanPerform services.old }
    requires phase { services.old.answer.phase ≡ Some phase }
    requires task { is_task phase ≡ true }
    ensures { IfOk result (λ act_result. IsActResult (DropObjection count) act_result place services.old services.new) }
{
    laws::places_stay();
    laws::nodes_grow();
    laws::settled_go_by_totals();
    laws::begun_drains_are_held();
    let node = services.answer.performer.node();
    match services.objections.drop(phase, node, count, services.time) {
        Ok(began) => {
            move_drains(services, phase, place, began, None)?;
            Ok(done(services))
        }
        Err(DropFault::BelowZero) => refused(services, alloc, Fatal::ObjectionBelowZero),
        Err(DropFault::Memory) => Err(AllocError),
    }
}

/// Sets the drain time of the performer's node, at most 10^15 ticks, or refuses it with `OutOfRange`. If the phase of the action takes
/// time, sets it for that phase; otherwise for all phases that do. Errors: out of memory.
#[tactic(auto, unfolding(bench_history::specs::Refusals::drain_refusal))]
pub fn set_drain(
    services: &mut Services,
    alloc: Global,
    ticks: u64,
) -> Result<ActResult, AllocError>
    requires { CanPerform services.old }
    ensures { IfOk result (λ act_result. (place : ℕ) → IsActResult (SetDrain ticks) act_result place services.old services.new) }
{
    if ticks > MAX_TICKS {
        return refused(services, alloc, Fatal::OutOfRange);
    }
    laws::places_stay();
    laws::nodes_grow();
    let (node, phase) = (services.answer.performer.node(), services.answer.phase);
    set_drain_in(&mut services.objections, phase, node, ticks)?;
    Ok(done(services))
}

// Sets the drain time for the objection of a phase that takes time, otherwise for each such phase. Errors: out of memory.
fn set_drain_in(
    objections: &mut Objections,
    phase: Option<Phase>,
    node: NodeId,
    ticks: u64,
) -> Result<(), AllocError>
    requires known { (one : Phase) → IsTrue (is_known node (nodes_in objections.old one)) }
    requires limit { ticks ≤ 10 ^ 15 }
    ensures nodes { OnOk result ((one : Phase) → is_task one ≡ true → nodes_in objections.new one ≡
        (if is_of_phase one phase || not (in_task phase) then with_drain node ticks (nodes_in objections.old one) else nodes_in objections.old one)) }
    ensures given { objections.new.given ≡ objections.old.given }
{
    match phase {
        Some(phase) if phase.is_task() => objections.set_drain(phase, node, ticks),
        _ => {
            objections.set_each_drain(node, ticks);
            Ok(())
        }
    }
}
