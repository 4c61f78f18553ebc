//! Objects that the kernel needs from the user.

use uvm_factory::Kind;
use uvm_glob::{Name, Path};

/// A needed object: its kind, the type that the factory makes, and the path under which the factory knows it.
#[derive(Drop)]
pub struct Need {
    /// The kind of the object: a component or a sequence.
    pub kind: Kind,
    /// The name of the type that the factory makes.
    pub type_name: Name,
    /// For a component, the path of its future node. For a sequence, the path of its sequencer, followed by the names from its root sequence
    /// down to itself.
    pub path: Path,
}
