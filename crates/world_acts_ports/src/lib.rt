//! Performs the actions through ports: puts, takes, peeks and writes. A part of `bench_world`.
#![tactic(auto)]

pub mod passages;
pub mod performing;
pub mod writes;
