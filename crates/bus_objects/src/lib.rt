//! The built-in objects of the memory bus, each in its own file; its view and relation are defined in a file of `specs/`.
#![tactic(auto)]

mod boxed;
mod bus_agent;
mod bus_driver;
mod bus_env;
mod bus_mem;
mod bus_mem_bad;
mod bus_monitor;
mod bus_scoreboard;
mod bus_test;
mod driver;
mod idle;
mod items;
pub mod laws;
mod loud;
mod memory;
mod objects;
mod pulse;
mod seq_burst;
mod seq_pair;
mod seq_smoke;
mod sleeper;
mod slow_driver;
mod spinner;
mod words;

pub use boxed::{Boxed, Fresh};
pub use bus_agent::BusAgent;
pub use bus_driver::BusDriver;
pub use bus_env::BusEnv;
pub use bus_mem::BusMem;
pub use bus_mem_bad::BusMemBad;
pub use bus_monitor::BusMonitor;
pub use bus_scoreboard::BusScoreboard;
pub use bus_test::BusTest;
pub use idle::Idle;
pub use loud::Loud;
pub use objects::BusObject;
pub use pulse::Pulse;
pub use seq_burst::SeqBurst;
pub use seq_pair::SeqPair;
pub use seq_smoke::SeqSmoke;
pub use sleeper::Sleeper;
pub use slow_driver::SlowDriver;
pub use spinner::Spinner;
