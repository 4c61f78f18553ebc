//! The state of a run that its services share: the agenda, objections, FIFOs, connections and reports. A part of `bench_world`.
#![tactic(auto)]

pub mod events;
pub mod faults;
pub mod objections;
pub mod report_lines;
pub mod report_state;
pub mod stages;
