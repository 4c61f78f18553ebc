//! The errors of adding a node.

use std::alloc::{AllocError, AllocFailed};
use std::error::Error;
use std::fmt;

/// The reasons why a node is not added, in the order in which they are checked. An error adds nothing.
#[derive(Clone, Copy, Debug, PartialEq, Eq)]
pub enum TreeFault {
    /// The tree has no node with the parent's number.
    NoParent,
    /// The parent already has a child with that name.
    NameTaken,
    /// The path would have more names or bytes than `Path` allows.
    TooDeep,
    /// The tree already has `Tree::MAX_NODES` nodes, not counting the root.
    Full,
    /// An allocation failed.
    Memory,
}

impl fmt::Display for TreeFault {
    ghost use Rattle.std.specs.Prelude.{Some};
    ghost use Rattle.uvm_tree.specs.Faults.{fault_text};

    ghost output = { λ fault. Some (fault_text fault) };

    fn fmt<W: fmt::Write>(&self, f: &mut fmt::Formatter<W>) -> fmt::Result {
        f.write_str(match self {
            TreeFault::NoParent => "no such parent",
            TreeFault::NameTaken => "child name taken",
            TreeFault::TooDeep => "too deep",
            TreeFault::Full => "too many nodes",
            TreeFault::Memory => "out of memory",
        })
    }
}

impl Error for TreeFault {}

impl From<AllocError> for TreeFault {
    ghost use Rattle.std.specs.Prelude.{◌≡◌};
    ghost use Rattle.uvm_tree.specs.declared.faults.TreeFault.TheVariants.{Memory};

    ghost from_gives = { λ _ fault. fault ≡ Memory };

    fn from(_: AllocError) -> TreeFault {
        TreeFault::Memory
    }
}

impl<T: Drop> From<AllocFailed<T>> for TreeFault {
    ghost use Rattle.std.specs.Prelude.{◌≡◌};
    ghost use Rattle.uvm_tree.specs.declared.faults.TreeFault.TheVariants.{Memory};

    ghost from_gives = { λ _ fault. fault ≡ Memory };

    fn from(_: AllocFailed<T>) -> TreeFault {
        TreeFault::Memory
    }
}
