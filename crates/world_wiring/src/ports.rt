//! The FIFOs and imps that are reached through ports (IEEE 1800.2-2020, Clause 12).

ghost use Rattle.std.specs.Prelude.{◌≡◌, ◌++◌, [], ◌∷◌, Some, OnSome, IfOk, option_and_then, filter};
ghost use Rattle.uvm_tlm.specs.Wirings.{IsWiring};
ghost use Rattle.bench_history.specs.Ports.{fifo_port_at, if_sound, is_imp_at};
ghost use Rattle.world_wiring.specs.Ports.{port_in};
ghost use Rattle.std.specs.List.{filter_map};
ghost use Rattle.bench_history.specs.Dues.{written_to};

use bench_history::{DueCall, FifoPort};
use std::alloc::{AllocError, Global};
use uvm_glob::Name;
use uvm_object::{Call, Who};
use uvm_phase::Phase;
use uvm_tlm::{End, Item, PortKind, Wiring};
use uvm_tree::{NodeId, Tree};

/// Returns the performer's port with this name, if it has this kind and is correctly connected. Allocates nothing.
/// Cost: a few comparisons of names.
pub fn port_below(
    tree: &Tree,
    wiring: &Wiring,
    performer: &Who,
    kind: PortKind,
    name: &Name,
) -> Option<NodeId>
    ensures { result ≡ port_in tree.now.nodes wiring.now performer.now kind name.now }
{
    if_sound(wiring, kind, tree.child(performer.node(), name))
}

// Returns a node if it is a correctly connected port of this kind.
fn if_sound(wiring: &Wiring, kind: PortKind, node: Option<NodeId>) -> Option<NodeId>
    ensures { result ≡ option_and_then (if_sound wiring.now kind) node }
{
    let node = node?;
    if wiring.port_kind(node)? == kind && wiring.fault_of(node).is_none() {
        Some(node)
    } else {
        None
    }
}

/// Returns the FIFO port of a port: the port with its first target, if that is a FIFO.
pub fn fifo_port_of(wiring: &Wiring, port: Option<NodeId>) -> Option<FifoPort>
    ensures fifo_port { result ≡ option_and_then (fifo_port_at wiring.now) port }
    ensures wiring { OnSome result (IsWiring wiring.now) }
{
    let port = port?;
    let fifo = *wiring.resolve(port).first()?;
    match wiring.end(fifo)? {
        End::Fifo(_) => Some(FifoPort { port, fifo }),
        _ => None,
    }
}

/// Returns the calls to the owners of the imps among `targets`, in their order; the calls belong to `phase`. Errors: out of memory.
pub fn written_calls(
    alloc: Global,
    tree: &Tree,
    wiring: &Wiring,
    targets: &[NodeId],
    item: Item,
    phase: Option<Phase>,
) -> Result<Vec<DueCall>, AllocError>
    ensures { IfOk result (λ calls. calls.items ≡ filter_map (written_to phase tree.now.nodes item) (filter (is_imp_at wiring.now) targets.now)) }
{
    targets
        .iter()
        .filter(|target| is_imp(wiring, **target))
        .filter_map(|target| written_to(phase, tree, item, *target))
        .collect(alloc)
}

// Returns whether a node is an imp.
fn is_imp(wiring: &Wiring, node: NodeId) -> bool
    ensures { result ≡ is_imp_at wiring.now node }
{
    matches!(wiring.end(node), Some(End::Imp))
}

// Returns the call to the owner of an imp.
fn written_to(phase: Option<Phase>, tree: &Tree, item: Item, imp: NodeId) -> Option<DueCall>
    ensures { result ≡ written_to phase tree.now.nodes item imp }
{
    let (owner, imp) = tree.under(imp)?;
    Some(DueCall {
        who: Who::Node(owner),
        call: Call::Written { imp, item },
        phase,
    })
}
