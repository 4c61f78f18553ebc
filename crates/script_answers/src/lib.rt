//! Reads the keys and the actions of answer documents. Actions and calls are spelled as in the transcript of a run. A key says for which
//! calls answers are. No two answer actions have the same text.
#![tactic(auto)]

mod acts;
mod answer_acts;
pub mod call_laws;
mod calls;
mod examples;
mod faults;
mod forward_acts;
mod items;
mod keys;
pub mod laws;
mod report_acts;
mod sequence_acts;
mod types;
mod words;

pub use answer_acts::AnswerAct;
pub use faults::LineFault;
pub use keys::{Key, item_in};
