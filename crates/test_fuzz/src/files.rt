//! Runs of benches in files, over objects that count how many are created and dropped. Test support.

mod benches;
mod checks;
mod counted;
mod ends;
mod files;

pub use checks::{Checked, check_file};
pub use ends::{End, tell};
pub use files::run_counted;
