//! The next node of a tree in one of the two orders of paths.

ghost use Rattle.std.specs.Prelude.{◌≡◌, ◌<◌, length, Some, None};
ghost use Rattle.uvm_glob.specs.Orders.{down_cmp, up_cmp, order_of};
ghost use Rattle.uvm_tree.specs.Cursors.{IsLeast, is_before, nodes_after};
ghost use Rattle.uvm_tree.specs.Nodes.{AreNodes};
ghost use Rattle.uvm_tree.specs.Walks.{IsBeside, IsFirstBelow};

use crate::nodes::NodeId;
use crate::trees::Tree;
use uvm_glob::Direction;
use uvm_glob::laws::orders_are_total;

impl Tree {
    /// Returns the next node after `after` in top-down order, or the first node if `after` is `None`. This order puts parents before their
    /// children and sorts siblings by the bytes of their names. Top-down phases use it (IEEE 1800.2-2020, Clause 9). The root is never
    /// returned. Returns `None` after the last node, and if the tree has no node `after`. Cost: O(log n) comparisons of names for each
    /// node above `after`, for n nodes; no allocation.
    pub fn next_down(&self, after: Option<NodeId>) -> Option<NodeId>
        ensures next { IsLeast (is_before down_cmp self.now.nodes) (nodes_after down_cmp self.now.nodes after) result }
        ensures nodes { AreNodes self.now.nodes }
    {
        match after {
            Some(node) => self.next_down_after(node),
            None => self.first_down(),
        }
    }

    /// Returns the next node after `after` in bottom-up order, or the first node if `after` is `None`. This order puts children before
    /// their parent and sorts siblings by the bytes of their names. Bottom-up phases use it (IEEE 1800.2-2020, Clause 9). The root is
    /// never returned. Returns `None` after the last node, and if the tree has no node `after`.
    pub fn next_up(&self, after: Option<NodeId>) -> Option<NodeId>
        ensures next { IsLeast (is_before up_cmp self.now.nodes) (nodes_after up_cmp self.now.nodes after) result }
        ensures nodes { AreNodes self.now.nodes }
    {
        match after {
            Some(node) => self.next_up_after(node),
            None => self.first_up(),
        }
    }

    /// Returns whether the path of `node` precedes that of `other` in this direction. A number without a node counts as the root's.
    /// Allocates no memory.
    pub fn is_before(&self, direction: Direction, node: NodeId, other: NodeId) -> bool
        ensures { result ≡ is_before (order_of direction) self.now.nodes node other }
    {
        let (path, other) = (self.path_or_top(node), self.path_or_top(other));
        path.cmp_in(direction, other).is_lt()
    }

    // Returns the next node after `node` in top-down order: its first child, or otherwise the next node that is not below it.
    fn next_down_after(&self, node: NodeId) -> Option<NodeId>
        ensures next { IsLeast (is_before down_cmp self.now.nodes) (nodes_after down_cmp self.now.nodes (Some node)) result }
        ensures nodes { AreNodes self.now.nodes }
    {
        orders_are_total();
        let _kept = self.node(node)?;
        match self.next_child(node, None) {
            Some(child) => Some(child),
            None => self.next_beside(node),
        }
    }

    // Returns the first node in top-down order: the first child of the root.
    fn first_down(&self) -> Option<NodeId>
        ensures next { IsLeast (is_before down_cmp self.now.nodes) (nodes_after down_cmp self.now.nodes None) result }
        ensures nodes { AreNodes self.now.nodes }
    {
        orders_are_total();
        self.next_child(NodeId::TOP, None)
    }

    // Returns the next node in top-down order that is not below `node`: the next sibling of `node`, or of the nearest node above it that
    // has one.
    fn next_beside(&self, node: NodeId) -> Option<NodeId>
        ensures { IsBeside self.now.nodes node result }
    {
        orders_are_total();
        let parent = self.parent(node)?;
        match self.next_child(parent, self.name(node)) {
            Some(next) => Some(next),
            None => self.next_beside(parent),
        }
    }

    // Returns the next node after `node` in bottom-up order: the first below its next sibling, or its parent if it has no next sibling.
    fn next_up_after(&self, node: NodeId) -> Option<NodeId>
        ensures next { IsLeast (is_before up_cmp self.now.nodes) (nodes_after up_cmp self.now.nodes (Some node)) result }
        ensures nodes { AreNodes self.now.nodes }
    {
        orders_are_total();
        let parent = self.parent(node)?;
        match self.next_child(parent, self.name(node)) {
            Some(next) => Some(self.first_below(next)),
            None if parent == NodeId::TOP => None,
            None => Some(parent),
        }
    }

    // Returns the first node in bottom-up order.
    fn first_up(&self) -> Option<NodeId>
        ensures next { IsLeast (is_before up_cmp self.now.nodes) (nodes_after up_cmp self.now.nodes None) result }
        ensures nodes { AreNodes self.now.nodes }
    {
        orders_are_total();
        let child = self.next_child(NodeId::TOP, None)?;
        Some(self.first_below(child))
    }

    // Returns the first in bottom-up order of `node` and the nodes below it.
    fn first_below(&self, node: NodeId) -> NodeId
        requires { node < length self.now.nodes }
        ensures { IsFirstBelow self.now.nodes node result }
    {
        orders_are_total();
        match self.next_child(node, None) {
            Some(child) => self.first_below(child),
            None => node,
        }
    }
}
