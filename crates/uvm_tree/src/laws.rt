//! Laws of the definitions. These functions have no run-time effect; their contracts are the laws.

ghost use Rattle.uvm_tree.specs.Cursors.{AreNodesOrdered, LeastIsLeast, OneIsLeast};
ghost use Rattle.uvm_tree.specs.Nodes.{AreSiblingsApart, NodesGrow};
ghost use Rattle.uvm_tree.specs.Sorted.{PathOrderIsInOrder};

use uvm_glob::laws::orders_are_total;

/// The law that `least` in a total order is `None` exactly if the list is empty. Otherwise it is a number of the list that no other number
/// of the list precedes.
pub fn least_is_least()
    ensures { LeastIsLeast }
{}

/// The law that no two children of one parent have the same name.
#[tactic(auto, using(crate::proofs::Grown::siblings))]
pub fn siblings_are_apart()
    ensures { AreSiblingsApart }
{}

/// The law that the root alone satisfies `AreNodes`, and that nodes which satisfy it still do after one more is added without an error. So
/// no two nodes of a tree ever have the same path.
#[tactic(auto, using(crate::proofs::Grown::nodes_grow))]
pub fn nodes_grow()
    ensures { NodesGrow }
{}

/// The law that the paths of the nodes order the nodes in each direction: the order is total, and no two nodes are equal in it.
pub fn nodes_are_ordered()
    ensures { AreNodesOrdered }
{
    orders_are_total();
}

/// The law that some nodes of a tree have exactly one least node, so that `IsLeast` determines it.
#[tactic(auto, using(crate::proofs::Ordered::one_is_least))]
pub fn one_is_least()
    ensures { OneIsLeast }
{}

/// The law that `path_order` lists each node except the root once, and no node before one that precedes it.
pub fn path_order_is_in_order()
    ensures { PathOrderIsInOrder }
{
    orders_are_total();
}
