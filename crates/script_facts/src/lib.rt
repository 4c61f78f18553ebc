//! What is known of a run that has ended, and the words for it.
#![tactic(auto)]

mod calls;
mod facts;
mod lines;
mod makes;
mod names;
mod nearest;
mod records;
mod searches;
mod types;
mod worlds;

pub use facts::Facts;
pub use lines::{List, Page, Section};
pub use makes::Makes;
pub use names::{kind_word, push_item};
pub use nearest::Nearest;
pub use records::{Records, Started, reason_of};
pub use searches::{Drive, Performed, Raise};
pub use types::Types;
pub use worlds::State;
