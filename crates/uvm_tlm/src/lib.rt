//! TLM 1 between components (IEEE 1800.2-2020, Clause 12): FIFOs, ports, exports and imps, and the connections between them.
#![tactic(auto)]

mod ends;
mod faults;
mod fifos;
mod graphs;
mod items;
pub mod laws;
mod node_lists;
mod wirings;

pub use ends::{End, PortKind};
pub use faults::WireFault;
pub use fifos::{Fifo, InPhase, Move, MoveKind, Owner, WaitingPut, WaitingTake};
pub use items::Item;
pub use wirings::{Connection, Wiring};
