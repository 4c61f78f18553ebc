//! The meaning of a log: what it says, what may come next in it, and what a legal log is. The crate holds no data: the definitions are in
//! `specs`, and the laws of all legal logs are functions without run-time effect.
#![tactic(auto)]

mod event_targets;
pub mod laws;
pub mod legal_logs;
pub mod limits;
mod needs;
mod requesters;
mod stages;

pub use event_targets::{DueCall, EventTarget};
pub use needs::Need;
pub use requesters::{DriverPort, FifoPort, Requester};
pub use stages::RunStage;
