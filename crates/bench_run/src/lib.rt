//! Runs a script to its end over objects of any type, and writes the log as it grows.
//!
//! A user writes an object, which returns its type name and answers calls, and a closure that makes it; the tests do so with an object of
//! their own. With a script, a generator `words` and a writer `out`:
//!
//! ```text
//! let make = |type_name: &Name| -> Result<Option<Asker>, AllocError> { Ok(Asker::of_type(type_name)) };
//! match run_script(alloc, script, &mut words, true, make, &mut out) {
//!     Ok(ending) if ending.is_clean() => ..,
//! ```
//!
//! For objects of several types, `make` returns an enum that implements `UvmObject`, or boxes (`Box<dyn UvmObject>`).
#![tactic(auto)]

mod faults;
pub mod laws;
mod run_results;
mod running;
mod sinks;

pub use bench_kernel::{Core, CoreFault, Kernel, Misfit, Step, Unfit};
pub use faults::RunFault;
pub use run_results::{RunResult, empty_kernel, exit_status, reports_of, run_result_of};
pub use running::{run_kernel, run_script, run_to_core};
pub use sinks::Sink;
