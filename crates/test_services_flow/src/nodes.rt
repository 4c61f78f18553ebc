//! Nodes for tests.

use std::test::Fail;
use uvm_glob::Name;
use uvm_tree::{NodeId, NodeKind, Tree};

// Adds a component with this name below a node.
pub(crate) fn add_node(tree: &mut Tree, above: NodeId, name: &[u8]) -> Result<NodeId, Fail> {
    Ok(tree.add(above, Name::new(name)?, NodeKind::Component)?)
}
