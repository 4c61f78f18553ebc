//! The graph of the connections, and which nodes reach which targets.

ghost use Rattle.std.specs.Prelude.{◌≡◌, ℕ, ◌++◌, ◌∷◌, [], nat_eq, reverse, IfOk, OnOk, if◌then◌else◌};
ghost use Rattle.std.specs.HashMap.{get};
ghost use Rattle.std.specs.List.{IsDistinct};
ghost use Rattle.indexmap.specs.IndexMap.{keys};
ghost use Rattle.indexmap.specs.IndexSet.{insert_all};
ghost use Rattle.uvm_tlm.specs.NodeLists.{list_of};
ghost use Rattle.uvm_tlm.specs.Graphs.{has, is_connected};
ghost use Rattle.uvm_tlm.specs.Wirings.{driven_by, driver_in, end_at, is_target_at, kind_at, reaches, targets_in};

use crate::ends::{End, PortKind};
use crate::node_lists::NodeLists;
use crate::wirings::Connection;
use indexmap::{IndexMap, IndexSet};
use std::alloc::{AllocError, Global};
use std::collections::HashMap;
use std::marker::Model;
use uvm_tree::NodeId;

// The ends and the connections of a wiring, and for each node the nodes from which connections lead to it. In contracts, the
// value is the ends, newest first, and the connections.
#[derive(Drop)]
pub(crate) struct Graph<'a> {
    ends: &'a IndexMap<NodeId, End>,
    connections: &'a [Connection],
    starts: NodeLists,
}

impl<'a> Model for Graph<'a> {
    ghost use Rattle.std.specs.Prelude.{reverse};
    ghost use Rattle.uvm_tlm.specs.Indexed.{IsGraph};
    ghost use Rattle.uvm_tlm.specs.Graphs.{GraphValue};

    ghost Value = { GraphValue };

    ghost view = { λ g. record { ends = reverse g.ends.now.entries; connections = g.connections.now } };

    ghost invariant = { λ g. IsGraph g };
}

impl<'a> Graph<'a> {
    // Creates the graph of ends and connections. Errors: out of memory.
    pub(crate) fn new(
        alloc: Global,
        ends: &'a IndexMap<NodeId, End>,
        connections: &'a [Connection],
    ) -> Result<Graph<'a>, AllocError>
        requires { (n : ℕ) → get nat_eq ends.now n ≡ end_at (reverse ends.now.entries) n }
        ensures { IfOk result (λ graph. graph ≡ record { ends = reverse ends.now.entries; connections = connections.now }) }
    {
        let starts = starts(alloc, connections)?;
        Ok(Graph {
            ends,
            connections,
            starts,
        })
    }

    // Returns the targets that each node reaches, in path order. Errors: out of memory.
    pub(crate) fn targets(&self, alloc: Global, order: &[NodeId]) -> Result<NodeLists, AllocError>
        ensures { IfOk result (λ targets. (n : ℕ) → list_of targets n ≡ targets_in self.now.ends self.now.connections order.now n) }
    {
        let mut targets = NodeLists::new(alloc);
        for target in order {
            if self.is_target(*target) {
                let sources = self.sources(alloc, *target)?;
                push_to_all(&mut targets, &sources, *target)?;
            }
        }
        Ok(targets)
    }

    // Returns for each sequencer the first port in path order that drives it. Errors: out of memory.
    pub(crate) fn drivers(
        &self,
        alloc: Global,
        order: &[NodeId],
        targets: &NodeLists,
    ) -> Result<HashMap<NodeId, NodeId>, AllocError>
        requires { (n : ℕ) → list_of targets.now n ≡ targets_in self.now.ends self.now.connections order.now n }
        ensures { IfOk result (λ drivers. (n : ℕ) → get nat_eq drivers n ≡ driver_in self.now.ends self.now.connections order.now n) }
    {
        let mut drivers = HashMap::new(alloc);
        for port in order {
            if let Some(sequencer) = driven_by(self.port_kind(*port), targets.list(*port)) {
                if !drivers.contains_key(&sequencer) {
                    drivers.insert(sequencer, *port)?;
                }
            }
        }
        Ok(drivers)
    }

    // Returns the nodes that reach a target. Errors: out of memory. Cost: finds each node once, and follows each connection to a
    // found node once.
    fn sources(&self, alloc: Global, target: NodeId) -> Result<IndexSet<NodeId>, AllocError>
        ensures { IfOk result (λ found. (n : ℕ) → has found.keys n ≡ reaches self.now.connections n target) }
    {
        let mut found = IndexSet::new(alloc);
        insert_all(&mut found, self.starts.list(target))?;
        let mut next = 0;
        while next < found.len() {
            let node = found.as_slice()[next];
            insert_all(&mut found, self.starts.list(node))?;
            next += 1;
        }
        Ok(found)
    }

    // Returns whether the node is a target.
    fn is_target(&self, node: NodeId) -> bool
        ensures { result ≡ is_target_at self.now.ends node }
    {
        match self.end(node) {
            Some(end) => end.is_target(),
            None => false,
        }
    }

    // Returns the kind of the port at a node; `None` if the node is not a port.
    fn port_kind(&self, node: NodeId) -> Option<PortKind>
        ensures { result ≡ kind_at self.now.ends node }
    {
        match self.end(node) {
            Some(end) => end.port_kind(),
            None => None,
        }
    }

    // Returns the end at a node; `None` if nothing was added there.
    fn end(&self, node: NodeId) -> Option<End>
        ensures { result ≡ end_at self.now.ends node }
    {
        self.ends.get(&node).copied()
    }
}

// Returns for each node the nodes from which connections lead to it, each once. Errors: out of memory.
fn starts(alloc: Global, connections: &[Connection]) -> Result<NodeLists, AllocError>
    ensures { IfOk result (λ starts. (from to : ℕ) → has (list_of starts to) from ≡ is_connected connections.now from to) }
{
    let mut starts = NodeLists::new(alloc);
    let mut made = IndexSet::new(alloc);
    for connection in connections {
        if made.insert(*connection)? {
            starts.push(connection.to, connection.from)?;
        }
    }
    Ok(starts)
}

// Returns an index map of the nodes in their order, which gives the place of each. Errors: out of memory.
pub(crate) fn places_of(alloc: Global, nodes: &[NodeId]) -> Result<IndexMap<NodeId, ()>, AllocError>
    requires { IsDistinct nat_eq nodes.now }
    ensures { IfOk result (λ places. keys places ≡ nodes.now) }
{
    let mut places = IndexMap::new(alloc);
    for node in nodes {
        places.insert(*node, ())?;
    }
    Ok(places)
}

// Adds nodes at the end of a set, except those that it already has. Errors: out of memory.
fn insert_all(set: &mut IndexSet<NodeId>, nodes: &[NodeId]) -> Result<(), AllocError>
    ensures { OnOk result (set.new.keys ≡ insert_all nat_eq set.old.keys nodes.now) }
{
    for node in nodes {
        set.insert(*node)?;
    }
    Ok(())
}

// Adds an element at the end of the list of each of the nodes. Errors: out of memory.
fn push_to_all(
    lists: &mut NodeLists,
    nodes: &IndexSet<NodeId>,
    element: NodeId,
) -> Result<(), AllocError>
    ensures { OnOk result ((n : ℕ) → list_of lists.new n ≡ list_of lists.old n ++ (if has nodes.now.keys n then element ∷ [] else [])) }
{
    for node in nodes.as_slice() {
        lists.push(*node, element)?;
    }
    Ok(())
}

// Returns the sequencer that a port of this kind with these targets drives: the only target of a seq port.
fn driven_by(kind: Option<PortKind>, targets: &[NodeId]) -> Option<NodeId>
    ensures { result ≡ driven_by kind targets.now }
{
    match (kind, targets) {
        (Some(PortKind::Seq), [target]) => Some(*target),
        _ => None,
    }
}
