//! Performs the actions of sequences and of drivers at sequencers. A part of `bench_world`.
#![tactic(auto)]

pub mod drivers;
pub mod performing;
pub mod requests;
pub mod starts;
pub mod steps;
