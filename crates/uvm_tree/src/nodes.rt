//! The nodes of a tree, their numbers and their kinds.

ghost use Rattle.std.specs.Prelude.{◌≡◌};

use std::marker::Model;
use uvm_glob::{Name, Path};

/// The kind of a node.
#[derive(Clone, Copy, PartialEq, Eq)]
pub enum NodeKind {
    /// A component. The root is one.
    Component,
    /// A sequencer, which grants the requests of sequences.
    Sequencer,
    /// A FIFO, which queues the items that are put into it.
    Fifo,
    /// A port, which forwards calls to what it is connected to.
    Port,
    /// An export, which forwards calls to what it is connected to.
    Export,
    /// An implementation (imp), at which calls end.
    Imp,
}

/// The number of a node of a tree: 0 is the root, the others follow in the order in which they were added. A tree issues these numbers;
/// the number of another tree's node refers to this tree's node of that number.
#[derive(Clone, Copy, PartialEq, Eq, Hash)]
pub struct NodeId {
    number: u16,
}

impl Model for NodeId {
    ghost use Rattle.std.specs.Prelude.{ℕ};

    ghost Value = { ℕ };

    ghost view = { λ id. id.number };

    ghost inverse = { λ n. record { number = n } };
}

impl NodeId {
    /// The number of the root.
    pub const TOP: NodeId = NodeId { number: 0 };

    pub(crate) fn new(number: u16) -> NodeId
        ensures { result ≡ number }
    {
        NodeId { number }
    }

    pub(crate) fn number(self) -> usize
        ensures { result ≡ self }
    {
        usize::from(self.number)
    }
}

// The data of a node: its parent and its name under that parent (both absent for the root), its path, and its kind.
#[derive(Drop)]
pub(crate) struct KeptNode {
    pub under: Option<(NodeId, Name)>,
    pub path: Path,
    pub kind: NodeKind,
}

impl Model for KeptNode {
    ghost use Rattle.uvm_tree.specs.Nodes.{Node};

    ghost Value = { Node };

    ghost view = { λ node. record { under = node.under; path = node.path; kind = node.kind } };
}
