//! The objections of a phase.

ghost use Rattle.std.specs.Prelude.{◌≡◌, ◌+◌, ◌<◌, ◌≤◌, ◌^◌, ◌++◌, ◌∷◌, [], ◌==◌, ℕ, false, find, IsTrue, IsOk, IfOk, OnOk, OnErr, Some};
ghost use Rattle.std.specs.Option.{option_to_list};
ghost use Rattle.uvm_objection.specs.Changes.{nodes_changed, IsWithin, IsTimely, IsSteady, TellsOf};
ghost use Rattle.uvm_objection.specs.Representation.{node_of};
ghost use Rattle.uvm_objection.specs.Nodes.{capacity_of, top, new_node, is_known, source_of, held_of, due_of, raised, dropped, released, with_drain};
ghost use Rattle.uvm_objection.specs.Totals.{total, settled, drains_begun, drains_ended};
ghost use Rattle.uvm_objection.specs.Laws.{AreNodes};

use crate::faults::BelowZero;
use crate::nodes::{Change, ChangeKind, Entry};
use crate::walks::Walk;
use std::alloc::{AllocError, Global};
use std::collections::HashMap;
use std::marker::Model;
use uvm_tree::NodeId;

/// A drain that began: its node, and the time at which it is due.
#[derive(Clone, Copy, PartialEq, Eq)]
pub struct Due {
    /// The node whose count is delayed.
    pub node: NodeId,
    /// The time at which `Objection::drained` is to be called for the node, in ticks of simulated time. A raise can end the drain before.
    pub at: u64,
}

/// The objections to the end of a phase, at the nodes of a tree (IEEE 1800.2-2020, Clause 10.5). Each node has a source count, which is
/// raised and dropped at it, and a total. The total is the source with the totals and the delayed counts of the node's children. If the
/// total of a node with a drain time falls to zero, the old total is its delayed count: no total above it falls yet. The drain ends when
/// `drained` is called for the node, or earlier with a raise at or below it. The root is always known, any other node once it is added.
///
/// Contracts see the nodes in the order in which they were added, and the number of further nodes for which capacity is reserved. A change
/// visits its node and the nodes above it, and no other. Only `add`, `reserve` and `copy` allocate memory.
#[derive(Drop)]
pub struct Objection {
    top: Entry,
    // The nodes except the root, in the order in which they were added.
    entries: Vec<Entry>,
    // The index of each of them in `entries`.
    places: HashMap<NodeId, usize>,
}

impl Model for Objection {
    ghost use Rattle.std.specs.Prelude.{◌∷◌, map};
    ghost use Rattle.uvm_objection.specs.Nodes.{ObjectionValue};
    ghost use Rattle.uvm_objection.specs.Representation.{node_of, room_in, IsObjection};

    ghost Value = { ObjectionValue };

    ghost view = { λ o. record { nodes = map node_of (o.top ∷ o.entries.items); spare = room_in o.entries o.places } };

    ghost invariant = { λ o. IsObjection o };
}

impl Objection {
    /// Creates an objection that has only the root, at which nothing is raised. Allocates no memory.
    pub fn new(alloc: Global) -> Objection
        ensures { result.nodes ≡ top ∷ [] }
    {
        Objection {
            top: Entry::new(NodeId::TOP, None),
            entries: Vec::new(alloc),
            places: HashMap::new(alloc),
        }
    }

    /// Reserves capacity for a node: the next `add` then allocates no memory. Changes no node. Errors: out of memory, only if no capacity
    /// is reserved. Never reduces the capacity.
    pub fn reserve(&mut self) -> Result<(), AllocError>
        ensures nodes { self.new.nodes ≡ self.old.nodes }
        ensures spare { OnOk result (0 < self.new.spare) }
        ensures room { 0 < self.old.spare → IsOk result }
        ensures kept { self.old.spare ≤ self.new.spare }
    {
        self.entries.reserve(1)?;
        self.places.reserve(1)
    }

    /// Adds an unknown node under a known parent. Nothing is raised at it, and its drain time is 0. Errors: out of memory, only if no
    /// capacity is reserved. An error adds nothing. The capacity is never reduced, also not by an error.
    pub fn add(&mut self, node: NodeId, parent: NodeId) -> Result<(), AllocError>
        requires unknown { is_known node self.old.nodes ≡ false }
        requires parent { IsTrue (is_known parent self.old.nodes) }
        ensures ok { OnOk result (self.new.nodes ≡ self.old.nodes ++ new_node node parent ∷ []) }
        ensures err { OnErr result (self.new.nodes ≡ self.old.nodes) }
        ensures room { 0 < self.old.spare → IsOk result }
        ensures capacity { capacity_of self.old ≤ capacity_of self.new }
    {
        self.entries.reserve(1)?;
        self.places.insert(node, self.entries.len())?;
        let Ok(()) = self.entries.push(Entry::new(node, Some(parent))) else {
            unreachable!()
        };
        Ok(())
    }

    /// Creates a copy with the same nodes, possibly with less reserved capacity. Errors: out of memory.
    pub fn copy(&self) -> Result<Objection, AllocError>
        ensures { IfOk result (λ copied. copied.nodes ≡ self.now.nodes) }
    {
        Ok(Objection {
            top: self.top,
            entries: Vec::from_slice(*self.entries.allocator(), &self.entries)?,
            places: self.places.clone()?,
        })
    }

    /// Sets the drain time of a known node, in ticks, at most 10^15 (`set_drain_time` in the standard). A drain that has already begun
    /// stays due at the same time. No drain begins or ends.
    pub fn set_drain(&mut self, node: NodeId, drain: u64)
        requires known { IsTrue (is_known node self.old.nodes) }
        requires limit { drain ≤ 10 ^ 15 }
        ensures nodes { self.new.nodes ≡ with_drain node drain self.old.nodes }
        ensures began { drains_begun self.old.nodes self.new.nodes ≡ [] }
        ensures ended { drains_ended self.old.nodes self.new.nodes ≡ [] }
        ensures spare { self.new.spare ≡ self.old.spare }
    {
        let _ = self.pass_up(node, ChangeKind::SetDrain(drain), 0);
    }

    /// Raises a count at a known node (`raise_objection`) and returns the node whose drain this ended, if it ended one. In that case only
    /// the difference from the delayed count propagates to the parent. A raise begins no drain, so its time does not matter. A count of
    /// zero changes nothing. Requires that the root's total plus `count` is at most 10^18.
    pub fn raise(&mut self, node: NodeId, count: u16) -> Option<NodeId>
        requires known { IsTrue (is_known node self.old.nodes) }
        requires limit { total self.old.nodes 0 + count ≤ 10 ^ 18 }
        ensures nodes { (time : ℕ) → self.new.nodes ≡ settled time (total self.old.nodes) (raised node count self.old.nodes) }
        ensures zero { count ≡ 0 → self.new.nodes ≡ self.old.nodes }
        ensures began { drains_begun self.old.nodes self.new.nodes ≡ [] }
        ensures ended { drains_ended self.old.nodes self.new.nodes ≡ option_to_list result }
        ensures spare { self.new.spare ≡ self.old.spare }
    {
        self.pass_up(node, ChangeKind::Raise(count), 0).ended
    }

    /// Drops a count at a known node (`drop_objection`) and returns the drain that this began, if it began one. `now` is at most 10^18
    /// ticks. A drop ends no drain. A count of zero changes nothing. Errors: `BelowZero` if `count` is above the source of the node. An
    /// error changes nothing.
    pub fn drop(&mut self, node: NodeId, count: u16, now: u64) -> Result<Option<Due>, BelowZero>
        requires known { IsTrue (is_known node self.old.nodes) }
        requires limit { now ≤ 10 ^ 18 }
        ensures ok { OnOk result (count ≤ source_of node self.old.nodes) }
        ensures nodes { OnOk result (self.new.nodes ≡ settled now (total self.old.nodes) (dropped node count self.old.nodes)) }
        ensures zero { count ≡ 0 → self.new.nodes ≡ self.old.nodes }
        ensures began { IfOk result (λ due. drains_begun self.old.nodes self.new.nodes ≡ option_to_list due) }
        ensures ended { OnOk result (drains_ended self.old.nodes self.new.nodes ≡ []) }
        ensures err { OnErr result (source_of node self.old.nodes < count) }
        ensures unchanged { OnErr result (self.new.nodes ≡ self.old.nodes) }
        ensures spare { self.new.spare ≡ self.old.spare }
    {
        if self.entry(node).source < u64::from(count) {
            return Err(BelowZero);
        }
        Ok(self.pass_up(node, ChangeKind::Drop(count), now).began)
    }

    /// Ends the drain of a known node and no other: the fall of its total propagates to the parent (`all_dropped` in the standard).
    /// Requires that the node has a delayed count, and that its drain is due at a time of at most 10^18 ticks. Returns the drain that this
    /// began at a node above, if it began one. That drain time counts from the time at which the first drain was due.
    pub fn drained(&mut self, node: NodeId) -> Option<Due>
        requires known { IsTrue (is_known node self.old.nodes) }
        requires held { 0 < held_of node self.old.nodes }
        requires limit { due_of node self.old.nodes ≤ 10 ^ 18 }
        ensures nodes { self.new.nodes ≡ settled (due_of node self.old.nodes) (total self.old.nodes) (released node self.old.nodes) }
        ensures began { drains_begun self.old.nodes self.new.nodes ≡ option_to_list result }
        ensures ended { drains_ended self.old.nodes self.new.nodes ≡ node ∷ [] }
        ensures spare { self.new.spare ≡ self.old.spare }
    {
        let due = self.entry(node).due;
        self.pass_up(node, ChangeKind::Release, due).began
    }

    /// Returns the total of a known node (`get_objection_total`): its source, and the total and the delayed count of each of its children.
    /// A node with a positive total has no delayed count.
    pub fn total(&self, node: NodeId) -> u64
        requires { IsTrue (is_known node self.now.nodes) }
        ensures value { result ≡ total self.now.nodes node }
        ensures nodes { AreNodes self.now.nodes }
    {
        self.entry(node).total
    }

    /// Returns the source of a known node (`get_objection_count`): the sum of the accepted raises at it, less the sum of the accepted
    /// drops.
    pub fn source(&self, node: NodeId) -> u64
        requires { IsTrue (is_known node self.now.nodes) }
        ensures { result ≡ source_of node self.now.nodes }
    {
        self.entry(node).source
    }

    /// Returns the delayed count of a known node: its total before it fell to zero, while its drain lasts, and otherwise 0.
    pub fn held(&self, node: NodeId) -> u64
        requires { IsTrue (is_known node self.now.nodes) }
        ensures { result ≡ held_of node self.now.nodes }
    {
        self.entry(node).held
    }

    // Makes a change at a node at a time in ticks, and propagates its effect to the nodes above.
    fn pass_up(&mut self, node: NodeId, kind: ChangeKind, time: u64) -> Walk
        requires within { IsWithin kind (total self.old.nodes 0) }
        requires time { time ≤ 10 ^ 18 }
        ensures nodes { (now : ℕ) → IsTimely kind time now → self.new.nodes ≡ settled now (total self.old.nodes) (nodes_changed node kind self.old.nodes) }
        ensures steady { IsSteady kind → self.new.nodes ≡ nodes_changed node kind self.old.nodes }
        ensures began { drains_begun self.old.nodes self.new.nodes ≡ option_to_list result.began }
        ensures ended { drains_ended self.old.nodes self.new.nodes ≡ option_to_list result.ended }
        ensures told { TellsOf kind node (held_of node self.old.nodes) result }
        ensures spare { self.new.spare ≡ self.old.spare }
    {
        let change = Change { node, kind, time };
        Walk::over(&mut self.top, &mut self.entries, &self.places, &change)
    }

    // Returns the stored data of a node.
    pub(crate) fn entry(&self, node: NodeId) -> Entry
        requires { IsTrue (is_known node self.now.nodes) }
        ensures node { find (λ e. e.node == node) self.now.nodes ≡ Some (node_of result) }
        ensures total { result.total ≡ total self.now.nodes node }
        ensures nodes { AreNodes self.now.nodes }
    {
        match self.places.get(&node) {
            Some(place) => self.entries[*place],
            None => self.top,
        }
    }
}
