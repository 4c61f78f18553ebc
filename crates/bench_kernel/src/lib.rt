//! The kernel of a testbench: it holds the objects, calls them, and returns each of them.
#![tactic(auto)]

mod kernels;
pub mod laws;
mod seating;
mod seats;
mod sequence_seats;

pub use bench_core::{Core, CoreFault};
pub use kernels::{Kernel, Misfit, Step, Unfit};
pub use seats::Seats;
pub use sequence_seats::SequenceSeats;
