//! Queries of a consistent world: each returns what follows from the log, and reads it from the services.
#![tactic(auto)]

pub mod next;
pub mod refusals;
pub mod report_lines;
pub mod services;
pub mod status;

pub use bench_world::World;
pub use bench_world::pending::PendingCall;
