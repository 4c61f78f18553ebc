//! The objects of a testbench, the entries of its log, the fatal reports of the kernel, and the texts of components and sequences.
#![tactic(auto)]

mod entries;
mod fatals;
mod logs;
mod objects;
mod sources;

pub use entries::{
    Entry, Grant, LoggedOrigin, LoggedOutcome, LoggedPassage, Origin, Outcome, Passage, Reason,
};
pub use fatals::Fatal;
pub use logs::{Log, LogFault};
pub use objects::{Answers, Object, UvmObject};
pub use sources::{push_node, push_sequence, shown_path, source_of};
pub use uvm_acts::{
    Act, ActRef, Acts, ActsIter, Call, EventCall, StoredAct, StoredCall, What, Who,
};
