//! The services of a run, which match its log, and the results of actions on them. Part of bench_world.
#![tactic(auto)]

pub mod act_results;
pub mod creations;
pub mod nodes;
pub mod phase_cursor;
pub mod phase_cursors;
pub mod rooms;
pub mod services;
pub mod settings;
pub mod tells;
