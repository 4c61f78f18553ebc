//! The state of a run: its stage, phase, time, objections and performer, and why it is aborted.

ghost use Rattle.std.specs.Prelude.{◌≡◌, ◌&&◌, true, length, nat_lt, if◌then◌else◌};
ghost use Rattle.bench_history.specs.Arbitration.{waiters_at};
ghost use Rattle.bench_history.specs.Configuration.{settings_of};
ghost use Rattle.bench_history.specs.History.{remaining_acts, nodes_of, now_of, running, performer_of, stage_of};
ghost use Rattle.bench_history.specs.Objections.{is_kept, objections_of, stands};
ghost use Rattle.bench_history.specs.Reports.{newest_fate, noted_end, reason_of, report_commands};
ghost use Rattle.uvm_config.specs.Answers.{config_answer};
ghost use Rattle.uvm_glob.specs.Paths.{path_text};
ghost use Rattle.uvm_objection.specs.Nodes.{source_of};
ghost use Rattle.uvm_objection.specs.Totals.{total};
ghost use Rattle.uvm_phase.specs.Phases.{is_task};
ghost use Rattle.uvm_report.specs.Commands.{is_exit_asked};

use bench_history::RunStage;
use bench_world::World;
use uvm_glob::{Name, Path};
use uvm_object::{Entry, Fatal, Reason, Who};
use uvm_phase::Phase;
use uvm_report::Fate;
use uvm_tree::NodeId;
use world_sequencing::arbiters::requests_at;
use world_wiring::fifo_states::waiting_at;

/// Returns the stage of the run. Requires a consistent world.
pub fn stage(world: &World) -> RunStage
    requires { world.now.sound ≡ true }
    ensures { result ≡ stage_of world.now.history }
{
    world.services().stage
}

/// Returns the active phase that began last, or `None` if no phase is active. After a run-time phase has ended this is the run phase (IEEE
/// 1800.2-2020, Clause 9). Requires a consistent world.
pub fn phase(world: &World) -> Option<Phase>
    requires { world.now.sound ≡ true }
    ensures { result ≡ running (stage_of world.now.history) }
{
    match world.services().stage {
        RunStage::During(phase) => Some(phase),
        RunStage::After(phase) if phase.is_runtime() => Some(Phase::Run),
        _ => None,
    }
}

/// Returns whether a report has requested the exit of the run (Clause 6). Requires a consistent world.
pub fn exit_asked(world: &World) -> bool
    requires { world.now.sound ≡ true }
    ensures { result ≡ is_exit_asked (report_commands world.now.script world.now.history) }
{
    world.services().report_state.exit_asked
}

/// Returns the fate of the report of the newest entry, or `None` if the entry has no report. Requires a consistent world.
pub fn newest_fate(world: &World) -> Option<Fate>
    requires { world.now.sound ≡ true }
    ensures { result ≡ newest_fate world.now.script world.now.history }
{
    world.services().report_state.newest
}

/// Returns the current time in ticks. Requires a consistent world.
pub fn now(world: &World) -> u64
    requires { world.now.sound ≡ true }
    ensures { result ≡ now_of world.now.history }
{
    world.services().time
}

/// Returns the value of a field at a path, or `None` if it has none (IEEE 1800.2-2020, Annex C). Requires a consistent world.
pub fn config(world: &World, path: &Path, field: &Name) -> Option<i64>
    requires { world.now.sound ≡ true }
    ensures { result ≡ config_answer (settings_of world.now.script world.now.history) (path_text path.now) field.now }
{
    world.services().settings.get(path, field)
}

/// Returns how many puts, gets and peeks wait at a FIFO (Clause 12), or item requests and locks at a sequencer (Clause 15). Returns 0 if
/// `node` is neither. Requires a consistent world.
pub fn waiting(world: &World, node: NodeId) -> usize
    requires { world.now.sound ≡ true }
    ensures { result ≡ waiters_at world.now.history node }
{
    let services = world.services();
    match waiting_at(&services.fifo_states, node) {
        Some(count) => count,
        None => requests_at(&services.arbiters, node),
    }
}

/// Returns the count of objections to the end of a phase that are raised at a node and below it. The count includes those below it that are
/// delayed by the drain time (10.5). Returns 0 for a phase that takes no time, or if there is no such node. Requires a consistent world.
pub fn total_in(world: &World, phase: Phase, node: NodeId) -> u64
    requires { world.now.sound ≡ true }
    ensures { result ≡ (if is_task phase && nat_lt node (length (nodes_of world.now.history)) then total (objections_of world.now.script phase world.now.history) node else 0) }
{
    if !phase.is_task() || !is_there(world, node) {
        return 0;
    }
    world.services().objections.total(phase, node)
}

// Returns whether there is such a node.
fn is_there(world: &World, node: NodeId) -> bool
    requires { world.now.sound ≡ true }
    ensures { result ≡ nat_lt node (length (nodes_of world.now.history)) }
{
    world.services().tree.path(node).is_some()
}

/// Returns the count of objections to the end of a phase that are raised at a node itself (10.5). Returns 0 for a phase that takes no time,
/// or if there is no such node. Requires a consistent world.
pub fn source_in(world: &World, phase: Phase, node: NodeId) -> u64
    requires { world.now.sound ≡ true }
    ensures { result ≡ (if is_task phase && nat_lt node (length (nodes_of world.now.history)) then source_of node (objections_of world.now.script phase world.now.history) else 0) }
{
    if !phase.is_task() || !is_there(world, node) {
        return 0;
    }
    world.services().objections.source(phase, node)
}

/// Returns whether a phase has an objection: it takes time, and the root or a node below has a raised count or a delayed one (10.5).
/// Requires a consistent world.
pub fn objection_stands(world: &World, phase: Phase) -> bool
    requires { world.now.sound ≡ true }
    ensures { result ≡ (is_task phase && stands (objections_of world.now.script phase world.now.history)) }
{
    phase.is_task() && world.services().objections.stands(phase)
}

/// Returns whether an objection prevents the end of a phase (10.5): one of its own or, for the last run-time phase, one of the run phase.
/// Requires a consistent world.
#[tactic(auto, unfolding(bench_history::specs::Objections::is_kept))]
pub fn is_kept(world: &World, phase: Phase) -> bool
    requires { world.now.sound ≡ true }
    ensures { result ≡ is_kept world.now.script phase world.now.history }
{
    match phase {
        Phase::PostShutdown => objection_stands(world, phase)
            || objection_stands(world, Phase::Run),
        _ => objection_stands(world, phase),
    }
}

/// Returns why the run is aborted, or `None`. Requires a consistent world.
pub fn reason(world: &World) -> Option<Reason>
    requires { world.now.sound ≡ true }
    ensures { result ≡ reason_of world.now.script world.now.history }
{
    let noted = match world.log().last() {
        Some(entry) => noted_end(entry),
        None => None,
    };
    let services = world.services();
    if noted.is_some() {
        noted
    } else if services.test_refused {
        Some(Reason::NoTest)
    } else if services.report_state.exit_asked {
        Some(Reason::Exit)
    } else {
        None
    }
}

// Returns why the run is aborted, if the entry notes a timeout or a stall.
fn noted_end(entry: &Entry) -> Option<Reason>
    ensures { result ≡ noted_end entry.now }
{
    match entry {
        Entry::Note {
            fatal: Fatal::Timeout,
            ..
        } => Some(Reason::Timeout),
        Entry::Note {
            fatal: Fatal::Stall,
            ..
        } => Some(Reason::Stall),
        _ => None,
    }
}

/// Returns the performer: the component or sequence that gave the last answer, or the root before the first answer. Requires a consistent
/// world.
pub fn performer(world: &World) -> Who
    requires { world.now.sound ≡ true }
    ensures { result ≡ performer_of world.now.history }
{
    world.services().answer.performer
}

/// Returns how many actions of the last answer are left. Requires a consistent world.
pub fn acts_left(world: &World) -> usize
    requires { world.now.sound ≡ true }
    ensures { result ≡ length (remaining_acts world.now.script world.now.history) }
{
    let answer = &world.services().answer;
    if answer.noted {
        0
    } else {
        answer.count - answer.done
    }
}
