//! The sequencers and sequences of a run: who drives each sequencer, who started each sequence, in which phase, and which sequences end.
//! Part of bench_world.
#![tactic(auto)]

pub mod arbiters;
pub mod ends;
pub mod grant_indexes;
pub mod start_records;
