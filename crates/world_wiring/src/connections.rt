//! Connections, the closing of the wiring, and misconnected ports (IEEE 1800.2-2020, Clause 12).

ghost use Rattle.std.specs.Prelude.{◌≡◌, ℕ, [], unwrap_or, false, Some, None, OnOk, OnErr, OnSome, IfOk, IfNone, option_and_then, map};
ghost use Rattle.std.specs.Option.{option_copied};
ghost use Rattle.uvm_glob.specs.Lists.{first_given};
ghost use Rattle.uvm_tree.specs.Sorted.{path_order};
ghost use Rattle.uvm_tlm.specs.Wirings.{end_at, late_fault, with_end, IsPathOrder};
ghost use Rattle.uvm_acts.specs.declared.acts.Act.TheVariants.{Connect};
ghost use Rattle.bench_history.specs.Refusals.{connection_refusal};
ghost use Rattle.bench_history.specs.Wires.{behind, end_of, node_below, port_fatal, port_noted, unsound_port, with_both};
ghost use Rattle.world_wiring.specs.WiringMatch.{closed_after, closed_by};

use std::alloc::{AllocError, Global};
use uvm_glob::Path;
use uvm_object::{Entry, Fatal, What, Who};
use uvm_phase::Phase;
use uvm_tlm::{WireFault, Wiring};
use uvm_tree::{NodeId, Tree};

/// Closes the wiring by the path order of all nodes, unless it is closed already. Errors: out of memory. An error changes nothing.
pub fn close_wiring(wiring: &mut Wiring, tree: &Tree, alloc: Global) -> Result<(), AllocError>
    requires { IsPathOrder (path_order tree.now.nodes) wiring.old.ends }
    ensures ok { OnOk result (wiring.new ≡ closed_by tree.now.nodes wiring.old) }
    ensures err { OnErr result (wiring.new ≡ wiring.old) }
{
    if wiring.is_closed() {
        return Ok(());
    }
    let order = tree.path_order(alloc)?;
    match wiring.close(order.as_slice()) {
        Ok(()) => Ok(()),
        Err(_) => Err(AllocError),
    }
}

/// Closes the wiring if `phase`, which has ended, is connect, unless it is closed already. Errors: out of memory.
pub fn close_after(
    wiring: &mut Wiring,
    tree: &Tree,
    alloc: Global,
    phase: Phase,
) -> Result<(), AllocError>
    requires { IsPathOrder (path_order tree.now.nodes) wiring.old.ends }
    ensures { OnOk result (wiring.new ≡ closed_after phase tree.now.nodes wiring.old) }
{
    match phase {
        Phase::Connect => close_wiring(wiring, tree, alloc),
        _ => Ok(()),
    }
}

/// Returns the first misconnected port after the one that `entry` reports, with its fatal report. Starts at the first node if `entry` reports
/// no port. Allocates nothing, and checks no node up to the reported port.
pub fn unsound_behind(entry: Option<&Entry>, wiring: &Wiring) -> Option<(NodeId, Fatal)>
    ensures { result ≡ first_given (map (unsound_port wiring.now) (behind (option_and_then port_noted (option_copied entry.entry)) (unwrap_or wiring.now.order []))) }
{
    let noted = match entry {
        Some(entry) => port_noted(entry),
        None => None,
    };
    first_unsound(wiring, behind(wiring, noted))
}

// Returns the misconnected port that an entry reports.
fn port_noted(entry: &Entry) -> Option<NodeId>
    ensures { result ≡ port_noted entry.now }
{
    match entry {
        Entry::Note {
            fatal: Fatal::TooFewConnections | Fatal::TooManyConnections,
            node,
        } => Some(*node),
        _ => None,
    }
}

// Returns the nodes that follow one in path order, or all nodes if none is given.
fn behind(wiring: &Wiring, node: Option<NodeId>) -> &[NodeId]
    ensures { result.now ≡ behind node (unwrap_or wiring.now.order []) }
{
    match node {
        Some(node) => wiring.order_behind(node),
        None => wiring.order(),
    }
}

// Returns the first of some nodes that is a misconnected port, with its fatal report.
fn first_unsound(wiring: &Wiring, nodes: &[NodeId]) -> Option<(NodeId, Fatal)>
    ensures { result ≡ first_given (map (unsound_port wiring.now) nodes.now) }
{
    for node in nodes {
        if let Some(fatal) = port_fatal(wiring.fault_of(*node)) {
            return Some((*node, fatal));
        }
    }
    None
}

// Returns the fatal report for an error of a port, if there is an error.
fn port_fatal(fault: Option<WireFault>) -> Option<Fatal>
    ensures { result ≡ port_fatal fault }
{
    match fault? {
        WireFault::TooFew => Some(Fatal::TooFewConnections),
        _ => Some(Fatal::TooManyConnections),
    }
}

/// Returns the node at `path` below the performer, or `None` if no node has that path. Allocates nothing.
/// Cost: a few comparisons of names for each name of the path.
pub fn node_below(tree: &Tree, performer: &Who, path: &Path) -> Option<NodeId>
    ensures { result ≡ node_below tree.now.nodes performer.now path.now }
{
    tree.find_below(performer.node(), path)
}

/// Connects two ends. Returns a fatal report instead if one of them does not exist, or if their kinds differ; the wiring is then unchanged.
/// Errors: out of memory.
#[tactic(auto, unfolding(uvm_tlm::specs::Wirings::connect_fault, bench_history::specs::Refusals::connection_refusal))]
pub fn connect_ends(
    wiring: &mut Wiring,
    from: Option<NodeId>,
    to: Option<NodeId>,
) -> Result<Option<Fatal>, AllocError>
    requires { late_fault wiring.old ≡ None }
    ensures refusal { IfOk result (λ fatal. fatal ≡ connection_refusal false (option_and_then (end_at wiring.old.ends) from) (option_and_then (end_at wiring.old.ends) to)) }
    ensures connected { IfOk result (λ fatal. IfNone fatal (wiring.new ≡ with_both from to wiring.old)) }
    ensures refused { IfOk result (λ fatal. OnSome fatal (wiring.new ≡ wiring.old)) }
{
    let (Some(from), Some(to)) = (from, to) else {
        return Ok(Some(Fatal::UnknownNode));
    };
    match wiring.connect(from, to) {
        Ok(()) => Ok(None),
        Err(WireFault::KindDiffers) => Ok(Some(Fatal::KindsDiffer)),
        Err(WireFault::Memory) => Err(AllocError),
        Err(_) => Ok(Some(Fatal::UnknownNode)),
    }
}

/// Adds the end of a connection at a node to an open wiring. Errors: out of memory.
pub fn add_end(wiring: &mut Wiring, node: NodeId, what: What) -> Result<(), AllocError>
    requires open { late_fault wiring.old ≡ None }
    requires new { end_at wiring.old.ends node ≡ None }
    ensures { OnOk result (wiring.new ≡ with_end node (end_of what) wiring.old) }
{
    let added = match what {
        What::Sequencer { .. } => wiring.sequencer(node),
        What::Fifo { size } => wiring.fifo(node, size),
        What::Port { kind } => wiring.port(node, kind),
        What::Export { kind } => wiring.export(node, kind),
        What::Imp => wiring.imp(node),
    };
    match added {
        Ok(()) => Ok(()),
        Err(_) => Err(AllocError),
    }
}
