//! The actions that report, and those that set how reports are handled (IEEE 1800.2-2020, Clause 6).

ghost use Rattle.std.specs.Prelude.{◌≡◌, ℕ, IfOk};
ghost use Rattle.uvm_glob.specs.Paths.{path_text};
ghost use Rattle.uvm_tree.specs.Nodes.{path_at};
ghost use Rattle.world_state.specs.ReportsMatch.{CanReport};
ghost use Rattle.world_services.specs.ActResults.{IsActResult};
ghost use Rattle.uvm_acts.specs.declared.acts.Act.TheVariants as act;

use std::alloc::{AllocError, Global};
use uvm_glob::{Glob, Name};
use uvm_object::LoggedOutcome;
use uvm_report::{Actions, Report, Severity, Which};
use uvm_tree::{NodeId, Tree};
use world_services::act_results::{ActResult, report_at};
use world_services::services::Services;

/// Issues a report at the performer's path. Errors: out of memory.
pub fn issue(
    services: &mut Services,
    alloc: Global,
    report: &Report,
) -> Result<ActResult, AllocError>
    requires { CanReport services.old.report_state }
    ensures { IfOk result (λ act_result. (place : ℕ) → IsActResult (act.Report report.now) act_result place services.old services.new) }
{
    let node = services.answer.performer.node();
    report_at(services, alloc, node, report)?;
    Ok(ActResult::Completed(LoggedOutcome::done()))
}

/// Sets the verbosity level of reports at the performer's path. Errors: out of memory.
pub fn set_verbosity(
    services: &mut Services,
    alloc: Global,
    which: Which,
    level: u16,
) -> Result<ActResult, AllocError>
    ensures { IfOk result (λ act_result. (place : ℕ) → IsActResult (act.Verbosity which level) act_result place services.old services.new) }
{
    let scope = own_scope(alloc, &services.tree, services.answer.performer.node())?;
    services.report_state.set_verbosity(scope, which, level)?;
    Ok(ActResult::Completed(LoggedOutcome::done()))
}

/// Sets the actions for reports at the performer's path. Errors: out of memory.
pub fn set_action(
    services: &mut Services,
    alloc: Global,
    which: Which,
    actions: Actions,
) -> Result<ActResult, AllocError>
    ensures { IfOk result (λ act_result. (place : ℕ) → IsActResult (act.Actions which actions) act_result place services.old services.new) }
{
    let scope = own_scope(alloc, &services.tree, services.answer.performer.node())?;
    services.report_state.set_action(scope, which, actions)?;
    Ok(ActResult::Completed(LoggedOutcome::done()))
}

/// Changes the severity of reports at the performer's path. Errors: out of memory.
pub fn set_severity(
    services: &mut Services,
    alloc: Global,
    from: Severity,
    id: Option<Name>,
    to: Severity,
) -> Result<ActResult, AllocError>
    ensures { IfOk result (λ act_result. (place : ℕ) → IsActResult (act.Severity from id to) act_result place services.old services.new) }
{
    let scope = own_scope(alloc, &services.tree, services.answer.performer.node())?;
    services.report_state.set_severity(scope, from, id, to)?;
    Ok(ActResult::Completed(LoggedOutcome::done()))
}

// Returns the glob that matches only the path of a node. Errors: out of memory.
fn own_scope(alloc: Global, tree: &Tree, node: NodeId) -> Result<Glob, AllocError>
    ensures { IfOk result (λ scope. scope ≡ path_text (path_at tree.now.nodes node)) }
{
    let Ok(empty) = Glob::new(alloc, b"") else {
        return Err(AllocError);
    };
    match tree.path(node) {
        Some(path) => Glob::under(alloc, path, &empty),
        None => Ok(empty),
    }
}
