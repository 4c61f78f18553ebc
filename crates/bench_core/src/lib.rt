//! The core of a testbench, with answers as values: it appends the next entry of the log, and does nothing else.
#![tactic(auto)]

mod cores;
mod faults;
mod next_actions;

pub use bench_history::{Need, legal_logs as laws};
pub use cores::{Core, Health, Turn};
pub use faults::CoreFault;
pub use world_views::{World, next, report_lines, services, status};
