//! The FIFOs, ports and connections of a run (IEEE 1800.2-2020, Clause 12). A part of `bench_world`.
#![tactic(auto)]

pub mod connections;
pub mod fifo_states;
pub mod ports;
pub mod stores;
