//! The results of actions. Each action is a function on the services, and all these functions have one contract.

ghost use Rattle.std.specs.Prelude.{◌≡◌, ◌∷◌, ◌<◌, ◌+◌, ◌||◌, ◌==◌, true, OnOk, IfOk, IsOk, IsTrue};
ghost use Rattle.uvm_object.specs.declared.entries.Outcome.TheVariants.{Done, Refused};
ghost use Rattle.uvm_object.specs.Fatals.{fatal_report};
ghost use Rattle.uvm_report.specs.Observed.{has_room};
ghost use Rattle.uvm_tree.specs.Nodes.{path_at};
ghost use Rattle.world_state.specs.ReportsMatch.{CanReport, IsReported};
ghost use Rattle.bench_history.specs.Refusals.{is_component, is_open_to};
ghost use Rattle.world_services.specs.ActResults.{IsRefusing, unreported};

use crate::services::Services;
use bench_history::Need;
use std::alloc::{AllocError, Global};
use uvm_glob::Path;
use uvm_object::{Act, Fatal, LoggedOutcome, Who};
use uvm_report::Report;
use uvm_tree::NodeId;

/// The result of an attempt to perform an action.
#[derive(Drop)]
pub enum ActResult {
    /// The action was performed, or refused.
    Completed(LoggedOutcome),
    /// The action needs an object first, and nothing has changed. `home` is the sequencer on which a needed sequence runs.
    Needed { need: Need, home: Option<NodeId> },
}

/// Returns whether an action is open to a performer. Each action is for components, for sequences, or for both.
pub fn is_open_to(act: &Act, performer: &Who) -> bool
    ensures { result ≡ is_open_to act.now performer.now }
{
    match act {
        Act::Create { .. }
        | Act::Add { .. }
        | Act::Connect { .. }
        | Act::Put { .. }
        | Act::TryPut { .. }
        | Act::Take { .. }
        | Act::TryTake { .. }
        | Act::Peek { .. }
        | Act::Write { .. }
        | Act::Ask { .. }
        | Act::ItemDone { .. } => is_component(performer),
        Act::Request { .. }
        | Act::Lock
        | Act::Grab
        | Act::Unlock
        | Act::Send { .. }
        | Act::EndStep => !is_component(performer),
        _ => true,
    }
}

// Returns whether a performer is a component.
fn is_component(who: &Who) -> bool
    ensures { result ≡ is_component who.now }
{
    match who {
        Who::Node(_) => true,
        Who::Sequence { .. } => false,
    }
}

/// Completes an action with the outcome that it is done, and records that its entry has no report.
pub fn done(services: &mut Services) -> ActResult
    ensures act_result { result ≡ ActResult.Completed Done }
    ensures services { services.new ≡ unreported services.old }
{
    services.report_state.newest = None;
    ActResult::Completed(LoggedOutcome::done())
}

/// Refuses an action: issues its fatal report, and records whether the test is refused. Errors: out of memory.
pub fn refused(
    services: &mut Services,
    alloc: Global,
    fatal: Fatal,
) -> Result<ActResult, AllocError>
    requires { CanReport services.old.report_state }
    ensures act_result { IfOk result (λ act_result. act_result ≡ ActResult.Completed (Refused fatal)) }
    ensures services { OnOk result (IsRefusing fatal services.old services.new) }
{
    let report = fatal.report(alloc)?;
    Ok(ActResult::Completed(refused_by(services, alloc, fatal, &report)?))
}

/// Refuses an action with its given report. Errors: out of memory, only if no capacity was reserved for the id of the report.
pub fn refused_by(
    services: &mut Services,
    alloc: Global,
    fatal: Fatal,
    report: &Report,
) -> Result<LoggedOutcome, AllocError>
    requires can { CanReport services.old.report_state }
    requires report { report.now ≡ fatal_report fatal }
    ensures outcome { IfOk result (λ outcome. outcome ≡ Refused fatal) }
    ensures services { OnOk result (IsRefusing fatal services.old services.new) }
    ensures memory { IsTrue (has_room services.old.report_state.reports report.now.id) → IsOk result }
{
    let node = services.answer.performer.node();
    report_at(services, alloc, node, report)?;
    services.test_refused = is_test_refused(node, services.test_refused);
    Ok(LoggedOutcome::refused(fatal))
}

/// Issues a report at the path of a node. Errors: out of memory, only if no capacity was reserved for the id of the report.
pub fn report_at(
    services: &mut Services,
    alloc: Global,
    node: NodeId,
    report: &Report,
) -> Result<(), AllocError>
    requires { CanReport services.old.report_state }
    ensures ok { OnOk result (IsReported (path_at services.old.tree.nodes node) report.now services.old.report_state services.new.report_state) }
    ensures rest { services.new ≡ record services.old { report_state = services.new.report_state } }
    ensures memory { IsTrue (has_room services.old.report_state.reports report.now.id) → IsOk result }
{
    match services.tree.path(node) {
        Some(path) => services.report_state.issue(path, report),
        None => services.report_state.issue(&Path::top(alloc), report),
    }
}

// Returns whether the test is refused: it was refused before, or the performer is the root, which performs only the creation of the test.
fn is_test_refused(node: NodeId, before: bool) -> bool
    ensures { result ≡ (node == 0 || before) }
{
    node == NodeId::TOP || before
}
