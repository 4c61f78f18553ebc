//! The nodes of a tree in path order, as a list.

ghost use Rattle.std.specs.Prelude.{◌≡◌, IfOk};
ghost use Rattle.uvm_tree.specs.Cursors.{numbers_of};
ghost use Rattle.uvm_tree.specs.Nodes.{AreNodes};
ghost use Rattle.uvm_tree.specs.Sorted.{path_order};

use crate::nodes::NodeId;
use crate::trees::Tree;
use std::alloc::{AllocError, Global};
use uvm_glob::laws::orders_are_total;

impl Tree {
    /// Returns all nodes except the root, in top-down order. Errors: out of memory. Cost: one sort by comparisons of paths.
    pub fn path_order(&self, alloc: Global) -> Result<Vec<NodeId>, AllocError>
        ensures { IfOk result (λ order. order.items ≡ path_order self.now.nodes) }
    {
        orders_are_total();
        let mut order = self.numbers(alloc)?;
        order.sort_by(|node, other| self.path_or_top(*node).cmp(self.path_or_top(*other)))?;
        Ok(order)
    }

    // Returns all nodes except the root, in the order in which they were added.
    fn numbers(&self, alloc: Global) -> Result<Vec<NodeId>, AllocError>
        ensures numbers { IfOk result (λ numbers. numbers.items ≡ numbers_of self.now.nodes) }
        ensures nodes { AreNodes self.now.nodes }
    {
        let mut numbers = Vec::new(alloc);
        for place in 0..self.number_of_nodes() {
            numbers.push(NodeId::new(place as u16 + 1))?;
        }
        Ok(numbers)
    }
}
