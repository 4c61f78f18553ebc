//! Objects whose answers are data: a TOML document says what an object of each type answers to each call.
//! Calls and actions are spelled as in the transcript of a run.
//!
//! ```toml
//! [answers.t]
//! build = ["create c b", "create c a", "add f fifo 1"]
//! "next_item sqp *" = ["put req *"]
//! grant = [["send [1,0,10,0]"], ["send [0,0,0,0]"]]
//! ```
#![tactic(auto)]

mod answers;
mod faults;
pub mod laws;
mod objects;
mod reading;
mod rules;
mod seats;

pub use answers::{Answers, TypeRules};
pub use faults::{AnswerFault, FaultyAnswer};
pub use objects::Scripted;
pub use reading::read_answers;
pub use rules::Rule;
pub use seats::ScriptedSeats;
