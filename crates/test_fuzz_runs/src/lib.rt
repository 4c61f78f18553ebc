//! Test support: runs a script over objects that count how many of them are created and dropped, and checks the run from outside. `Record`
//! holds the transcript and the returned objects; `Violation` names the check that fails.
#![tactic(auto)]

mod counts;
mod records;
mod runs;
mod violations;

pub use counts::{Counts, Ticket};
pub use records::Record;
pub use runs::{Behaviour, FaultPlan, RunUnderTest, run_script};
pub use violations::Violation;
