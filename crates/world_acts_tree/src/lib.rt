//! Performs the actions on the tree: additions, connections, overrides, fields, reports, objections and waits. A part of `bench_world`.
#![tactic(auto)]

pub mod additions;
pub mod components;
pub mod connections;
pub mod fields;
pub mod objections;
pub mod overrides;
pub mod performing;
pub mod reports;
pub mod waits;
