//! A map from each node to a list of nodes.

ghost use Rattle.std.specs.Prelude.{◌≡◌, ℕ, ◌==◌, ◌++◌, ◌∷◌, [], OnOk, if◌then◌else◌};
ghost use Rattle.uvm_tlm.specs.NodeLists.{list_of};

use std::alloc::{AllocError, Global};
use std::collections::HashMap;
use uvm_tree::NodeId;

// A map from each node to a list of nodes. The list is empty if nothing was added to it.
#[derive(Drop)]
pub(crate) struct NodeLists {
    alloc: Global,
    lists: HashMap<NodeId, Vec<NodeId>>,
}

impl NodeLists {
    // Creates a map in which each list is empty.
    pub(crate) fn new(alloc: Global) -> NodeLists
        ensures { (n : ℕ) → list_of result n ≡ [] }
    {
        NodeLists {
            alloc,
            lists: HashMap::new(alloc),
        }
    }

    // Returns the list of a node.
    pub(crate) fn list(&self, node: NodeId) -> &[NodeId]
        ensures { result.now ≡ list_of self.now node }
    {
        match self.lists.get(&node) {
            Some(list) => list.as_slice(),
            None => &[],
        }
    }

    // Adds an element at the end of the list of a node. Errors: out of memory.
    pub(crate) fn push(&mut self, node: NodeId, element: NodeId) -> Result<(), AllocError>
        ensures { OnOk result ((n : ℕ) → list_of self.new n ≡ (if n == node then list_of self.old n ++ element ∷ [] else list_of self.old n)) }
    {
        if let Some(list) = self.lists.get_mut(&node) {
            list.push(element)?;
            return Ok(());
        }
        let mut list = Vec::new(self.alloc);
        list.push(element)?;
        self.lists.insert(node, list)?;
        Ok(())
    }
}
