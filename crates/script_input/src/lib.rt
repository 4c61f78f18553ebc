//! What every program that runs scripts does first: it reads the bytes of a file, chooses the test, and names what stopped it.
#![tactic(auto)]

mod breakages;
mod files;
mod scripts;
mod sources;

pub use breakages::Breakage;
pub use files::{MOST_BYTES, read_file};
pub use scripts::choose_test;
pub use sources::Source;
