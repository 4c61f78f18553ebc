//! The transcript line of the report of the newest entry.

ghost use Rattle.std.specs.Prelude.{◌≡◌, ◌≢◌, ◌++◌, [], true, Some, OnOk, OnErr, option_and_then};
ghost use Rattle.uvm_report.specs.Fates.{displayed_as};
ghost use Rattle.uvm_report.specs.Lines.{report_line};
ghost use Rattle.uvm_report.specs.Plain.{IsLineAtMost, IsPlainLine};
ghost use Rattle.uvm_tree.specs.Nodes.{path_at};
ghost use Rattle.uvm_acts.specs.Acts.{node_of};
ghost use Rattle.uvm_object.specs.Fatals.{fatal_report};
ghost use Rattle.uvm_object.specs.Sources.{shown_path, source_text};
ghost use Rattle.bench_history.specs.History.{nodes_of, now_of};
ghost use Rattle.bench_history.specs.Reports.{outcome_command, line_under, newest_fate, report_text};
ghost use Rattle.bench_history.specs.Sequences.{sequences_of};

use crate::services::{sequences, tree};
use crate::status::{newest_fate, now};
use bench_world::World;
use std::alloc::AllocError;
use uvm_object::{Act, Entry, Fatal, Outcome, Who};
use uvm_report::Severity;
use uvm_tree::NodeId;
use world_state::report_lines::ReportSite;

/// Appends the transcript line of the report of the newest entry, with its newline, if it has a report that is displayed (IEEE 1800.2-2020,
/// Clause 6). Requires a consistent world. Errors: out of memory, only if there is a line to append. An error appends nothing.
pub fn push_report(world: &World, out: &mut Vec<u8>) -> Result<(), AllocError>
    requires { world.now.sound ≡ true }
    ensures ok { OnOk result (out.new.items ≡ out.old.items ++ report_text world.now.script world.now.history) }
    ensures err { OnErr result (out.new.items ≡ out.old.items) }
    ensures plain { OnOk result (IsLineAtMost (report_text world.now.script world.now.history)) }
    ensures some { OnErr result (report_text world.now.script world.now.history ≢ []) }
{
    let Some(severity) = displayed_severity(world) else {
        return Ok(());
    };
    match world.log().last() {
        Some(Entry::Did { who, outcome, act }) => {
            push_stored_act(world, severity, who, &outcome.get(), act.act().get(), out)
        }
        Some(Entry::Note { fatal, node }) => push_note(world, severity, fatal, *node, out),
        _ => Ok(()),
    }
}

// Returns the severity with which the report of the newest entry is displayed, or `None` if there is none or it is not displayed.
fn displayed_severity(world: &World) -> Option<Severity>
    requires { world.now.sound ≡ true }
    ensures { result ≡ option_and_then displayed_as (newest_fate world.now.script world.now.history) }
{
    newest_fate(world)?.displayed_as()
}

// Appends the line of the report of an action's entry.
fn push_stored_act(
    world: &World,
    severity: Severity,
    who: &Who,
    outcome: &Outcome,
    act: &Act,
    out: &mut Vec<u8>,
) -> Result<(), AllocError>
    requires { world.now.sound ≡ true }
    ensures ok { OnOk result (out.new.items ≡ out.old.items ++ line_under (now_of world.now.history) (source_text (nodes_of world.now.history) (sequences_of world.now.history) who.now) (outcome_command (path_at (nodes_of world.now.history) (node_of who.now)) outcome.now act.now) (Some severity)) }
    ensures err { OnErr result (out.new.items ≡ out.old.items) }
    ensures plain { OnOk result (IsLineAtMost (line_under (now_of world.now.history) (source_text (nodes_of world.now.history) (sequences_of world.now.history) who.now) (outcome_command (path_at (nodes_of world.now.history) (node_of who.now)) outcome.now act.now) (Some severity))) }
    ensures some { OnErr result (line_under (now_of world.now.history) (source_text (nodes_of world.now.history) (sequences_of world.now.history) who.now) (outcome_command (path_at (nodes_of world.now.history) (node_of who.now)) outcome.now act.now) (Some severity) ≢ []) }
{
    site(world, severity).push_stored_act(who, outcome, act, out)
}

// Appends the line of the report of a `Note` entry.
fn push_note(
    world: &World,
    severity: Severity,
    fatal: &Fatal,
    node: NodeId,
    out: &mut Vec<u8>,
) -> Result<(), AllocError>
    requires { world.now.sound ≡ true }
    ensures ok { OnOk result (out.new.items ≡ out.old.items ++ report_line severity (now_of world.now.history) (shown_path (path_at (nodes_of world.now.history) node)) (fatal_report fatal.now).id (fatal_report fatal.now).text) }
    ensures err { OnErr result (out.new.items ≡ out.old.items) }
    ensures plain { OnOk result (IsPlainLine (report_line severity (now_of world.now.history) (shown_path (path_at (nodes_of world.now.history) node)) (fatal_report fatal.now).id (fatal_report fatal.now).text)) }
    ensures some { OnErr result (report_line severity (now_of world.now.history) (shown_path (path_at (nodes_of world.now.history) node)) (fatal_report fatal.now).id (fatal_report fatal.now).text ≢ []) }
{
    site(world, severity).push_note(fatal, node, out)
}

// Returns the parts of the world that the line of a report shows.
fn site(world: &World, severity: Severity) -> ReportSite<'_>
    requires { world.now.sound ≡ true }
    ensures severity { result.severity ≡ severity }
    ensures time { result.time ≡ now_of world.now.history }
    ensures nodes { result.tree.now.nodes ≡ nodes_of world.now.history }
    ensures sequences { result.sequences.now.started ≡ sequences_of world.now.history }
{
    ReportSite {
        alloc: world.alloc(),
        severity,
        time: now(world),
        tree: tree(world),
        sequences: sequences(world),
    }
}
