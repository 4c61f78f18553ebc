//! The sequencer, which grants sequences one at a time (IEEE 1800.2-2020, Clause 15).
#![tactic(auto)]

mod choices;
mod drivers;
mod faults;
pub mod laws;
mod lines;
mod modes;
mod queues;
mod requests;
mod scans;
mod sequencers;

pub use drivers::{Asked, Driver, How};
pub use faults::SeqFault;
pub use modes::Mode;
pub use requests::{Request, Want};
pub use sequencers::Sequencer;
