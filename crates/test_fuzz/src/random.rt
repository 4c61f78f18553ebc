//! Random benches, whose objects answer with allowed and not allowed actions, and the checks of their runs. Test support.

mod acts;
mod arguments;
mod checks;
mod dice;
mod fault_plan;
mod habits;
mod scripts;
mod wild;

pub use checks::check_benches;
