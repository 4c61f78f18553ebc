//! The connections of a testbench.

ghost use Rattle.std.specs.Prelude.{◌≡◌, ℕ, ◌∷◌, ◌++◌, ◌==◌, ◌&&◌, ◌||◌, [], nat_eq, unwrap_or, Some, None, IsTrue, OnOk, OnErr, IfErr, if◌then◌else◌};
ghost use Rattle.std.specs.HashMap.{get};
ghost use Rattle.indexmap.specs.IndexMap.{keys};
ghost use Rattle.std.specs.List.{after_first};
ghost use Rattle.uvm_tlm.specs.NodeLists.{list_of};
ghost use Rattle.uvm_tlm.specs.Faults.{refusal};
ghost use Rattle.uvm_tlm.specs.Wirings.{new_wiring, end_at, with_end, with_connection, is_closed, is_connected, late_fault, connect_fault, kind_at, targets_of, wire_fault, port_fault, count_fault, seq_fault, is_some_of, IsPathOrder, IsWiring};

use crate::ends::{End, PortKind};
use crate::faults::WireFault;
use crate::graphs::{Graph, places_of};
use crate::node_lists::NodeLists;
use indexmap::IndexMap;
use std::alloc::{AllocError, Global};
use std::collections::HashMap;
use std::marker::Model;
use uvm_tree::NodeId;

/// A connection (the standard's `connect`).
#[derive(Clone, Copy, PartialEq, Eq, Hash)]
pub struct Connection {
    /// The port or export from which requests go.
    pub from: NodeId,
    /// The end to which they go.
    pub to: NodeId,
}

/// The ends at the nodes of a testbench, and the connections between them (IEEE 1800.2-2020, Clause 12). Ports, exports, imps,
/// FIFOs and sequencers are added, and connected in any order, until the wiring is closed. A closed wiring has the targets of
/// each port: the imps, FIFOs and sequencers that it reaches over one or more connections. It also has the error of each port
/// that is misconnected.
///
/// In contracts, the value is the ends, newest first, and the connections, each once and in the order of the nodes. A closed
/// wiring also has the path order.
pub struct Wiring {
    ends: IndexMap<NodeId, End>,
    // A repeated connection is here again. Contracts see only whether a node is connected to another.
    connections: Vec<Connection>,
    closed: Option<Closed>,
}

// (Written by hand, so that crates that use a wiring need no proof about the drop of its fields.)
impl Drop for Wiring {
    fn drop(self) {
        let Wiring {
            ends: _,
            connections: _,
            closed: _,
        } = self;
    }
}

// What `close` computes.
#[derive(Drop)]
struct Closed {
    // The nodes in path order, each with its place. Contracts state the targets and the drivers by this order. (It is a map to
    // nothing: the code of a set of the same library would be generated again in each crate that has a wiring.)
    order: IndexMap<NodeId, ()>,
    targets: NodeLists,
    // The first port in path order that drives each sequencer.
    drivers: HashMap<NodeId, NodeId>,
}

impl Model for Wiring {
    ghost use Rattle.uvm_tlm.specs.Representation.{IsWired, value_of};
    ghost use Rattle.uvm_tlm.specs.Wirings.{WiringValue};

    ghost Value = { WiringValue };

    ghost view = { λ w. value_of w };

    ghost invariant = { λ w. IsWired w };
}

impl Wiring {
    /// Creates a wiring without ends and connections. Allocates no memory.
    pub fn new(alloc: Global) -> Wiring
        ensures { result ≡ new_wiring }
    {
        Wiring {
            ends: IndexMap::new(alloc),
            connections: Vec::new(alloc),
            closed: None,
        }
    }

    /// Adds a port of a kind at a node. Requires that nothing was added at the node. Errors: `Late` if the wiring is closed; out
    /// of memory (`Memory`). An error changes nothing.
    pub fn port(&mut self, node: NodeId, kind: PortKind) -> Result<(), WireFault>
        requires { end_at self.old.ends node ≡ None }
        ensures ok { OnOk result (late_fault self.old ≡ None) }
        ensures added { OnOk result (self.new ≡ with_end node (End.Port kind) self.old) }
        ensures err { IfErr result (λ fault. late_fault self.old ≡ refusal fault) }
        ensures unchanged { OnErr result (self.new ≡ self.old) }
    {
        self.add(node, End::Port(kind))
    }

    /// Adds an export of a kind at a node. The requirement and the errors are those of `port`.
    pub fn export(&mut self, node: NodeId, kind: PortKind) -> Result<(), WireFault>
        requires { end_at self.old.ends node ≡ None }
        ensures ok { OnOk result (late_fault self.old ≡ None) }
        ensures added { OnOk result (self.new ≡ with_end node (End.Export kind) self.old) }
        ensures err { IfErr result (λ fault. late_fault self.old ≡ refusal fault) }
        ensures unchanged { OnErr result (self.new ≡ self.old) }
    {
        self.add(node, End::Export(kind))
    }

    /// Adds an analysis imp at a node. The requirement and the errors are those of `port`.
    pub fn imp(&mut self, node: NodeId) -> Result<(), WireFault>
        requires { end_at self.old.ends node ≡ None }
        ensures ok { OnOk result (late_fault self.old ≡ None) }
        ensures added { OnOk result (self.new ≡ with_end node End.Imp self.old) }
        ensures err { IfErr result (λ fault. late_fault self.old ≡ refusal fault) }
        ensures unchanged { OnErr result (self.new ≡ self.old) }
    {
        self.add(node, End::Imp)
    }

    /// Adds a FIFO that holds up to `size` items at a node; 0 for an unbounded FIFO. The requirement and the errors are those of
    /// `port`.
    pub fn fifo(&mut self, node: NodeId, size: u16) -> Result<(), WireFault>
        requires { end_at self.old.ends node ≡ None }
        ensures ok { OnOk result (late_fault self.old ≡ None) }
        ensures added { OnOk result (self.new ≡ with_end node (End.Fifo size) self.old) }
        ensures err { IfErr result (λ fault. late_fault self.old ≡ refusal fault) }
        ensures unchanged { OnErr result (self.new ≡ self.old) }
    {
        self.add(node, End::Fifo(size))
    }

    /// Adds a sequencer at a node. The requirement and the errors are those of `port`.
    pub fn sequencer(&mut self, node: NodeId) -> Result<(), WireFault>
        requires { end_at self.old.ends node ≡ None }
        ensures ok { OnOk result (late_fault self.old ≡ None) }
        ensures added { OnOk result (self.new ≡ with_end node End.Sequencer self.old) }
        ensures err { IfErr result (λ fault. late_fault self.old ≡ refusal fault) }
        ensures unchanged { OnErr result (self.new ≡ self.old) }
    {
        self.add(node, End::Sequencer)
    }

    /// Connects a node to another (the standard's `connect`). A repeated connection changes no result, but takes memory again.
    /// Errors: `Late` if the wiring is closed; `Unknown` if nothing was added at one of the nodes; `KindDiffers` if no connection
    /// may go from the first end to the second; out of memory (`Memory`). An error changes nothing.
    #[tactic(auto, unfolding(crate::specs::Wirings::connect_fault))]
    pub fn connect(&mut self, from: NodeId, to: NodeId) -> Result<(), WireFault>
        ensures ok { OnOk result (connect_fault self.old from to ≡ None) }
        ensures added { OnOk result (self.new ≡ with_connection from to self.old) }
        ensures again { OnOk result (IsTrue (is_connected self.old.connections from to) → self.new ≡ self.old) }
        ensures err { IfErr result (λ fault. connect_fault self.old from to ≡ refusal fault) }
        ensures unchanged { OnErr result (self.new ≡ self.old) }
    {
        if let Some(fault) = self.connect_fault(from, to) {
            return Err(fault);
        }
        add_connection(&mut self.connections, Connection { from, to })?;
        Ok(())
    }

    /// Closes the wiring: finds the targets of each port, in the given path order. Requires that each added node is in the order,
    /// and no node twice. Nothing can be added or connected afterwards. Errors: `Late` if the wiring is already closed; out of
    /// memory (`Memory`). An error changes nothing. Cost: for each target, one visit of each node that reaches it, and of each
    /// distinct connection to these nodes.
    pub fn close(&mut self, order: &[NodeId]) -> Result<(), WireFault>
        requires { IsPathOrder order.now self.old.ends }
        ensures ok { OnOk result (late_fault self.old ≡ None) }
        ensures closed { OnOk result (self.new ≡ record self.old { order = Some order.now }) }
        ensures err { IfErr result (λ fault. late_fault self.old ≡ refusal fault) }
        ensures unchanged { OnErr result (self.new ≡ self.old) }
    {
        if self.is_closed() {
            return Err(WireFault::Late);
        }
        let alloc = *self.ends.allocator();
        let graph = Graph::new(alloc, &self.ends, self.connections.as_slice())?;
        let targets = graph.targets(alloc, order)?;
        let drivers = graph.drivers(alloc, order, &targets)?;
        let order = places_of(alloc, order)?;
        self.closed = Some(Closed {
            order,
            targets,
            drivers,
        });
        Ok(())
    }

    /// Returns the targets that a port or an export reaches, each once and in path order. The slice is empty before `close`.
    /// Allocates no memory.
    #[tactic(auto, unfolding(crate::specs::Wirings::targets_of))]
    pub fn resolve(&self, port: NodeId) -> &[NodeId]
        ensures targets { result.now ≡ targets_of self.now port }
        ensures wiring { IsWiring self.now }
    {
        match &self.closed {
            Some(closed) => closed.targets.list(port),
            None => &[],
        }
    }

    /// Returns the error of a port that is misconnected. `TooFew`: a put, get or seq port reaches no target. `TooMany`: it
    /// reaches several, or a seq port reaches a sequencer that an earlier port in path order drives. Returns `None` otherwise,
    /// before `close`, and if the node is not a port. Allocates no memory.
    #[tactic(auto, unfolding(crate::specs::Wirings::wire_fault))]
    pub fn fault_of(&self, port: NodeId) -> Option<WireFault>
        ensures { result ≡ wire_fault self.now port }
    {
        match &self.closed {
            Some(closed) => closed.port_fault(self.port_kind(port), port),
            None => None,
        }
    }

    /// Returns the path order that was given to `close`. The slice is empty before `close`.
    pub fn order(&self) -> &[NodeId]
        ensures { result.now ≡ unwrap_or self.now.order [] }
    {
        match &self.closed {
            Some(closed) => closed.order.keys().as_slice(),
            None => &[],
        }
    }

    /// Returns the nodes after `node` in the path order. The slice is empty if `node` is the last or not in the order, and before
    /// `close`. Allocates no memory. Cost: one look-up.
    pub fn order_behind(&self, node: NodeId) -> &[NodeId]
        ensures { result.now ≡ after_first (nat_eq node) (unwrap_or self.now.order []) }
    {
        match &self.closed {
            Some(closed) => closed.behind(node),
            None => &[],
        }
    }

    /// Returns whether the wiring is closed.
    pub fn is_closed(&self) -> bool
        ensures { result ≡ is_closed self.now }
    {
        self.closed.is_some()
    }

    /// Returns the kind of the port at a node; `None` if the node is not a port. Allocates no memory.
    pub fn port_kind(&self, node: NodeId) -> Option<PortKind>
        ensures { result ≡ kind_at self.now.ends node }
    {
        match self.end(node) {
            Some(end) => end.port_kind(),
            None => None,
        }
    }

    /// Returns what was added at a node; `None` if nothing was added. Allocates no memory.
    pub fn end(&self, node: NodeId) -> Option<End>
        ensures { result ≡ end_at self.now.ends node }
    {
        self.ends.get(&node).copied()
    }

    // Returns why no connection may go from a node to another; `None` if one may.
    #[tactic(auto, unfolding(crate::specs::Wirings::connect_fault))]
    fn connect_fault(&self, from: NodeId, to: NodeId) -> Option<WireFault>
        ensures { result ≡ connect_fault self.now from to }
    {
        if self.is_closed() {
            return Some(WireFault::Late);
        }
        match (self.end(from), self.end(to)) {
            (Some(from), Some(to)) if from.agrees(to) => None,
            (Some(_), Some(_)) => Some(WireFault::KindDiffers),
            _ => Some(WireFault::Unknown),
        }
    }

    // Adds an end at a node. The requirement and the errors are those of `port`.
    fn add(&mut self, node: NodeId, end: End) -> Result<(), WireFault>
        requires { end_at self.old.ends node ≡ None }
        ensures ok { OnOk result (late_fault self.old ≡ None) }
        ensures added { OnOk result (self.new ≡ with_end node end self.old) }
        ensures err { IfErr result (λ fault. late_fault self.old ≡ refusal fault) }
        ensures unchanged { OnErr result (self.new ≡ self.old) }
    {
        if self.is_closed() {
            return Err(WireFault::Late);
        }
        add_end(&mut self.ends, node, end)?;
        Ok(())
    }
}

impl Closed {
    // Returns the nodes after `node` in path order.
    fn behind(&self, node: NodeId) -> &[NodeId]
        ensures { result.now ≡ after_first (nat_eq node) (keys self.now.order) }
    {
        match self.order.get_index_of(&node) {
            Some(place) => &self.order.keys().as_slice()[place + 1..],
            None => &[],
        }
    }

    // Returns the error of a port of this kind; `None` if it is correctly connected.
    fn port_fault(&self, kind: Option<PortKind>, port: NodeId) -> Option<WireFault>
        ensures { result ≡ port_fault kind (list_of self.now.targets port) (get nat_eq self.now.drivers) port }
    {
        let targets = self.targets.list(port);
        match kind {
            Some(PortKind::Put | PortKind::Get) => count_fault(targets),
            Some(PortKind::Seq) => self.seq_fault(targets, port),
            Some(PortKind::Analysis) | None => None,
        }
    }

    // Returns the error of a seq port that reaches these targets; `None` if it is correctly connected.
    fn seq_fault(&self, targets: &[NodeId], port: NodeId) -> Option<WireFault>
        ensures { result ≡ seq_fault targets.now (get nat_eq self.now.drivers) port }
    {
        match targets {
            [] => Some(WireFault::TooFew),
            [sequencer] if self.drives(port, *sequencer) => None,
            _ => Some(WireFault::TooMany),
        }
    }

    // Returns whether a port is the first that drives a sequencer.
    fn drives(&self, port: NodeId, sequencer: NodeId) -> bool
        ensures { result ≡ is_some_of port (get nat_eq self.now.drivers sequencer) }
    {
        match self.drivers.get(&sequencer) {
            Some(driver) => *driver == port,
            None => false,
        }
    }
}

// Returns the error of a put or get port that reaches these targets; `None` if it is correctly connected.
fn count_fault(targets: &[NodeId]) -> Option<WireFault>
    ensures { result ≡ count_fault targets.now }
{
    match targets {
        [] => Some(WireFault::TooFew),
        [_] => None,
        _ => Some(WireFault::TooMany),
    }
}

// Adds an end after the others. Errors: out of memory. An error changes nothing.
fn add_end(ends: &mut IndexMap<NodeId, End>, node: NodeId, end: End) -> Result<(), AllocError>
    requires { get nat_eq ends.old node ≡ None }
    ensures added { OnOk result (ends.new.entries ≡ ends.old.entries ++ (node, end) ∷ []) }
    ensures found { OnOk result ((n : ℕ) → get nat_eq ends.new n ≡ (if n == node then Some end else get nat_eq ends.old n)) }
    ensures unchanged { OnErr result (ends.new.entries ≡ ends.old.entries) }
{
    ends.insert(node, end)?;
    Ok(())
}

// Adds a connection after the others. Errors: out of memory. An error changes nothing.
fn add_connection(
    connections: &mut Vec<Connection>,
    connection: Connection,
) -> Result<(), AllocError>
    ensures added { OnOk result ((from to : ℕ) → is_connected connections.new.items from to ≡ (((from == connection.from) && (to == connection.to)) || is_connected connections.old.items from to)) }
    ensures unchanged { OnErr result (connections.new.items ≡ connections.old.items) }
{
    connections.push(connection)?;
    Ok(())
}
