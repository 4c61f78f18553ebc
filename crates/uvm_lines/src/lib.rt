//! The text of a log: one line for each entry, and the texts of calls, actions, components and sequences in it.
#![tactic(auto)]

mod act_lines;
mod item_lines;
mod lines;
mod sequence_lines;

pub use act_lines::act_text;
pub use lines::{call_text, line_of};
pub use sequence_lines::who_text;
