//! The actions that set and get a field (IEEE 1800.2-2020, Annex C).

ghost use Rattle.std.specs.Prelude.{◌≡◌, ℕ, ◌∷◌, ◌++◌, ◌≤◌, ◌<◌, IfOk};
ghost use Rattle.uvm_config.specs.Observed.{value_at};
ghost use Rattle.uvm_tree.specs.Nodes.{path_at};
ghost use Rattle.uvm_acts.specs.declared.acts.Act.TheVariants.{Set, Get};
ghost use Rattle.bench_history.specs.Configuration.{is_building};
ghost use Rattle.world_state.specs.ReportsMatch.{CanReport};
ghost use Rattle.world_services.specs.ActResults.{IsActResult};

use bench_history::RunStage;
use std::alloc::{AllocError, Global};
use uvm_glob::{Glob, Name, Path};
use uvm_object::{Call, Fatal, LoggedOutcome};
use uvm_phase::Phase;
use uvm_tree::NodeId;
use world_services::act_results::{ActResult, done, refused};
use world_services::nodes::{depth_of, scope_under};
use world_services::services::Services;
use world_services::settings::set;
use world_services::tells::tell;

/// Sets a field under the performer's path, or refuses it with `TooManySettings`. Errors: out of memory.
#[tactic(auto, unfolding(bench_history::specs::Refusals::setting_refusal))]
pub fn set_field(
    services: &mut Services,
    alloc: Global,
    glob: &Glob,
    field: Name,
    value: i64,
) -> Result<ActResult, AllocError>
    requires { CanReport services.old.report_state }
    ensures { IfOk result (λ act_result. (place : ℕ) → IsActResult (Set glob.now field value) act_result place services.old services.new) }
{
    if services.settings.is_full() {
        return refused(services, alloc, Fatal::TooManySettings);
    }
    let node = services.answer.performer.node();
    let scope = scope_under(alloc, &services.tree, node, glob)?;
    let depth = depth_of(&services.tree, node);
    let building = is_building(services.stage);
    set(&mut services.settings, depth, building, scope, field, value)?;
    Ok(done(services))
}

/// Reads a field at the performer's path, and schedules now the call that gives the value. Errors: out of memory.
pub fn get_field(
    services: &mut Services,
    alloc: Global,
    place: u32,
    field: Name,
) -> Result<ActResult, AllocError>
    ensures { IfOk result (λ act_result. IsActResult (Get field) act_result place services.old services.new) }
{
    let node = services.answer.performer.node();
    let value = value_at(alloc, services, node, &field);
    let now = services.time;
    tell(services, Call::Config { field, value }, now, place)?;
    services.report_state.newest = None;
    Ok(ActResult::Completed(LoggedOutcome::value(value)))
}

// Returns whether the build phase is active.
fn is_building(stage: RunStage) -> bool
    ensures { result ≡ is_building stage }
{
    match stage {
        RunStage::During(Phase::Build) => true,
        _ => false,
    }
}

// Returns the value of a field at the path of a node, if it is set.
fn value_at(alloc: Global, services: &Services, node: NodeId, field: &Name) -> Option<i64>
    ensures { result ≡ value_at services.now.settings (path_at services.now.tree.nodes node) field.now }
{
    match services.tree.path(node) {
        Some(path) => services.settings.get(path, field),
        None => services.settings.get(&Path::top(alloc), field),
    }
}
