//! The sequencers at which a request may be granted.

ghost use Rattle.std.specs.Prelude.{◌≡◌, ◌∷◌, ℕ, [], OnOk};
ghost use Rattle.world_sequencing.specs.Arbiters.{mode_of};
ghost use Rattle.world_sequencing.specs.GrantIndexes.{AddsGrantIndex, ForgetsAll, LearnsAt, known_at};

use std::alloc::{AllocError, Global};
use std::collections::HashMap;
use uvm_object::What;
use uvm_tree::NodeId;

/// The sequencers at which a request may be granted (IEEE 1800.2-2020, Clause 15): those that changed since the last time when nothing
/// could be granted. Also holds how many requests at the front of each queue are known to be blocked, so that they are not examined again.
pub struct GrantIndex {
    /// The nodes to search for a request that can be granted, in path order; nodes without a sequencer may be among them.
    pub nodes: Vec<NodeId>,
    /// For each sequencer, how many requests at the front of its queue are known to be blocked.
    pub passed: HashMap<NodeId, usize>,
}

// (Written by hand, so that crates above need not prove the drop of each field.)
impl Drop for GrantIndex {
    fn drop(self) {
        let GrantIndex {
            nodes: _,
            passed: _,
        } = self;
    }
}

impl GrantIndex {
    /// Creates an index without sequencers. Allocates no memory.
    pub fn new(alloc: Global) -> GrantIndex
        ensures nodes { result.nodes.items ≡ [] }
        ensures known { (n : ℕ) → known_at result n ≡ 0 }
    {
        GrantIndex {
            nodes: Vec::new(alloc),
            passed: HashMap::new(alloc),
        }
    }

    /// Returns how many requests at the front of the queue of a sequencer are known to be blocked.
    pub fn known(&self, node: NodeId) -> usize
        ensures { result ≡ known_at self.now node }
    {
        match self.passed.get(&node) {
            Some(known) => *known,
            None => 0,
        }
    }

    /// Records that a node was added, which may be a sequencer, and that nothing can be granted. Errors: out of memory.
    pub fn add(&mut self, node: NodeId, what: What) -> Result<(), AllocError>
        ensures nodes { OnOk result (self.new.nodes.items ≡ []) }
        ensures added { OnOk result (AddsGrantIndex (mode_of what) node self.old self.new) }
    {
        self.nodes.clear();
        let What::Sequencer { .. } = what else {
            return Ok(());
        };
        match self.passed.insert(node, 0) {
            Ok(_) => Ok(()),
            Err(_) => Err(AllocError),
        }
    }

    /// Records that a request may be granted at one sequencer, and at no other. Errors: out of memory.
    pub fn open_at(&mut self, node: NodeId) -> Result<(), AllocError>
        ensures nodes { OnOk result (self.new.nodes.items ≡ node ∷ []) }
        ensures rest { OnOk result (self.new ≡ record self.old { nodes = self.new.nodes }) }
    {
        self.nodes.clear();
        self.nodes.push(node)?;
        Ok(())
    }

    /// Records that nothing can be granted at any sequencer. Allocates no memory.
    pub fn close(&mut self)
        ensures nodes { self.new.nodes.items ≡ [] }
        ensures rest { self.new ≡ record self.old { nodes = self.new.nodes } }
    {
        self.nodes.clear();
    }

    /// Records how many requests at the front of the queue of a sequencer are known to be blocked. Allocates no memory.
    pub fn learn(&mut self, node: NodeId, known: usize)
        ensures nodes { self.new.nodes ≡ self.old.nodes }
        ensures known { LearnsAt node known self.old self.new }
    {
        if let Some(passed) = self.passed.get_mut(&node) {
            *passed = known;
        }
    }

    /// Records that a phase has ended: no request is known to be blocked, and requests may be granted at these nodes and no others. `nodes`
    /// is in path order. Errors: out of memory.
    pub fn reopen(&mut self, nodes: &[NodeId]) -> Result<(), AllocError>
        ensures nodes { OnOk result (self.new.nodes.items ≡ nodes.now) }
        ensures known { OnOk result (ForgetsAll self.new) }
    {
        self.nodes.clear();
        self.nodes.extend_from_slice(nodes)?;
        self.passed.retain(|_, passed| {
            *passed = 0;
            true
        });
        Ok(())
    }
}
