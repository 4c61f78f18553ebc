//! The tree of a testbench: its components and the nodes that belong to them, under a root (IEEE 1800.2-2020, Clause 13).
#![tactic(auto)]

mod children;
mod cursors;
mod families;
mod faults;
pub mod laws;
mod nodes;
mod orders;
mod trees;

pub use children::Children;
pub use faults::TreeFault;
pub use nodes::{NodeId, NodeKind};
pub use trees::Tree;
