//! Dispatches each action on the tree, the factory, fields, reports and objections, and each wait, to its function.

ghost use Rattle.std.specs.Prelude.{IfOk};
ghost use Rattle.world_services.specs.ActResults.{CanPerform, IsActResult};
ghost use Rattle.world_acts_tree.specs.TreeKinds.{IsTreeAct};

use crate::{additions, components, connections, fields, objections, overrides, reports, waits};
use std::alloc::{AllocError, Global};
use uvm_object::Act;
use world_services::act_results::ActResult;
use world_services::services::Services;

/// Performs an action on the tree, the factory, fields, reports or objections, or a wait, or refuses it. A creation may need its object
/// first. Errors: out of memory.
pub fn perform_tree_act(
    services: &mut Services,
    alloc: Global,
    place: u32,
    act: &Act,
) -> Result<ActResult, AllocError>
    requires can { CanPerform services.old }
    requires kind { IsTreeAct act.now }
    ensures { IfOk result (λ act_result. IsActResult act.now act_result place services.old services.new) }
{
    match act {
        Act::Create { type_name, name } => components::create(services, alloc, type_name, name),
        Act::Add { name, what } => additions::add(services, alloc, *name, *what),
        Act::Set { glob, field, value } => fields::set_field(services, alloc, glob, *field, *value),
        Act::Get { field } => fields::get_field(services, alloc, place, *field),
        Act::OverrideType {
            original,
            new,
            replace,
        } => overrides::override_type(services, alloc, original, new, *replace),
        Act::OverrideInst {
            original,
            new,
            glob,
        } => overrides::override_inst(services, alloc, original, new, glob),
        Act::Connect { from, to } => connections::connect(services, alloc, from, to),
        Act::Report { report } => reports::issue(services, alloc, report),
        Act::Verbosity { which, level } => reports::set_verbosity(services, alloc, *which, *level),
        Act::Actions { which, actions } => reports::set_action(services, alloc, *which, *actions),
        Act::Severity { from, id, to } => reports::set_severity(services, alloc, *from, *id, *to),
        Act::RaiseObjection { count } => objections::raise(services, alloc, place, *count),
        Act::DropObjection { count } => objections::drop(services, alloc, place, *count),
        Act::SetDrain { ticks } => objections::set_drain(services, alloc, *ticks),
        Act::Wait { ticks, tag } => waits::wait(services, alloc, place, *ticks, *tag),
        _ => unreachable!(),
    }
}
