//! Runs of benches and checks on them, for the tests of the core and the kernel. Only tests use this crate.
#![tactic(auto)]

mod benches;
mod counts;
mod objects;
mod run_results;
mod runs;

pub use bench_run::{RunFault, RunResult, Sink, run_script};
pub use benches::{
    Scenario, answered, make_idle, make_mute, make_spinner, shows, shows_in_boxes, shows_with,
};
pub use counts::Count;
pub use objects::{Idle, Mute, Spinner};
pub use run_results::Ended;
