//! The children of each node, in byte order of their names.

ghost use Rattle.std.specs.Prelude.{◌≡◌, ◌≢◌, ◌∷◌, ◌≤◌, ℕ, length, true, false, Some, IfSome, IfNone, option_copied};
ghost use Rattle.std.specs.List.Sorted.{IsPartitionPoint};
ghost use Rattle.uvm_tree.specs.Families.{AreFamilies, IsNextChild, child_in, is_in_front, is_passed, is_upto, place_at, place_cmp};
ghost use Rattle.uvm_tree.specs.Nodes.{AreNodes, node_at, under_at};

use crate::nodes::{KeptNode, NodeId};
use std::cmp::Ordering;
use uvm_glob::Name;

// The nodes of a tree: the root, the others in the order in which they were added, and these others sorted by parent and name.
#[derive(Clone, Copy)]
pub(crate) struct Families<'a> {
    pub top: &'a KeptNode,
    pub nodes: &'a [KeptNode],
    pub order: &'a [NodeId],
}

impl<'a> Families<'a> {
    // Returns the child of `parent` whose name is the next after `after`, or the first child if `after` is `None`.
    pub(crate) fn next_child(&self, parent: NodeId, after: Option<&Name>) -> Option<NodeId>
        requires nodes { AreNodes (self.now.top.now ∷ self.now.nodes.now) }
        requires families { AreFamilies (self.now.top.now ∷ self.now.nodes.now) self.now.order.now }
        ensures { IsNextChild (self.now.top.now ∷ self.now.nodes.now) parent (option_copied after.entry) result }
    {
        self.child_in(parent, self.count_passed(parent, after))
    }

    // Returns the child of `parent` with this name, if there is one.
    pub(crate) fn child(&self, parent: NodeId, name: &[u8]) -> Option<NodeId>
        requires nodes { AreNodes (self.now.top.now ∷ self.now.nodes.now) }
        requires families { AreFamilies (self.now.top.now ∷ self.now.nodes.now) self.now.order.now }
        ensures found { IfSome result (λ n. under_at (self.now.top.now ∷ self.now.nodes.now) n ≡ Some (parent, name.now)) }
        ensures none { IfNone result ((n : ℕ) → under_at (self.now.top.now ∷ self.now.nodes.now) n ≢ Some (parent, name.now)) }
    {
        let child = self.child_in(parent, self.count_in_front(parent, name))?;
        if self.place(child).1 == name {
            Some(child)
        } else {
            None
        }
    }

    // Returns the number of nodes whose place precedes (`parent`, `name`).
    pub(crate) fn count_in_front(&self, parent: NodeId, name: &[u8]) -> usize
        requires { AreFamilies (self.now.top.now ∷ self.now.nodes.now) self.now.order.now }
        ensures within { result ≤ length self.now.order.now }
        ensures parts { IsPartitionPoint (λ n. is_in_front (self.now.top.now ∷ self.now.nodes.now) (parent, name.now) n ≡ true) (λ n. is_in_front (self.now.top.now ∷ self.now.nodes.now) (parent, name.now) n ≡ false) self.now.order.now result }
    {
        self.order
            .partition_point(|node| self.compare(*node, parent, name).is_lt())
    }

    // Returns the number of nodes whose place precedes or equals (`parent`, `name`).
    fn count_upto(&self, parent: NodeId, name: &[u8]) -> usize
        requires { AreFamilies (self.now.top.now ∷ self.now.nodes.now) self.now.order.now }
        ensures { IsPartitionPoint (λ n. is_upto (self.now.top.now ∷ self.now.nodes.now) (parent, name.now) n ≡ true) (λ n. is_upto (self.now.top.now ∷ self.now.nodes.now) (parent, name.now) n ≡ false) self.now.order.now result }
    {
        self.order
            .partition_point(|node| !self.compare(*node, parent, name).is_gt())
    }

    // Returns the number of nodes in `order` that precede the children named after `after`, or all children of `parent` if `after` is
    // `None`.
    fn count_passed(&self, parent: NodeId, after: Option<&Name>) -> usize
        requires { AreFamilies (self.now.top.now ∷ self.now.nodes.now) self.now.order.now }
        ensures { IsPartitionPoint (λ n. is_passed (self.now.top.now ∷ self.now.nodes.now) parent (option_copied after.entry) n ≡ true) (λ n. is_passed (self.now.top.now ∷ self.now.nodes.now) parent (option_copied after.entry) n ≡ false) self.now.order.now result }
    {
        match after {
            Some(name) => self.count_upto(parent, name.as_bytes()),
            None => self.count_in_front(parent, &[]),
        }
    }

    // Returns the node at index `place` of `order` if it is a child of `parent`.
    fn child_in(&self, parent: NodeId, place: usize) -> Option<NodeId>
        ensures { result ≡ child_in (self.now.top.now ∷ self.now.nodes.now) self.now.order.now parent place }
    {
        let child = *self.order.get(place)?;
        if self.place(child).0 == parent {
            Some(child)
        } else {
            None
        }
    }

    // Compares the place of a node with (`parent`, `name`).
    fn compare(&self, node: NodeId, parent: NodeId, name: &[u8]) -> Ordering
        ensures { result ≡ place_cmp (place_at (self.now.top.now ∷ self.now.nodes.now) node) (parent, name.now) }
    {
        let (above, own) = self.place(node);
        above.number().cmp(&parent.number()).then(own.cmp(name))
    }

    // Returns the place of a node: the number of its parent, and its name. The root, and a number without a node, have the place of an
    // empty name under the root.
    fn place(&self, node: NodeId) -> (NodeId, &'a [u8])
        ensures { (result.0, result.1.now) ≡ place_at (self.now.top.now ∷ self.now.nodes.now) node }
    {
        let Some(node) = self.node(node) else {
            return (NodeId::TOP, &[]);
        };
        match &node.under {
            Some((parent, name)) => (*parent, name.as_bytes()),
            None => (NodeId::TOP, &[]),
        }
    }

    // Returns the node with this number, if there is one.
    fn node(&self, node: NodeId) -> Option<&'a KeptNode>
        ensures { option_copied result ≡ node_at (self.now.top.now ∷ self.now.nodes.now) node }
    {
        match node.number() {
            0 => Some(self.top),
            number => self.nodes.get(number - 1),
        }
    }
}
