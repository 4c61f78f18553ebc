//! The lines of actions in answer documents, and the forward actions, which pass on the item of the call. No two actions have the same
//! line.
#![tactic(auto)]

mod forward_acts;
pub mod laws;
mod lines;
pub mod part_laws;
mod types;

pub use forward_acts::ForwardAct;
pub use lines::act_line;
pub use types::acts_are_sound;
