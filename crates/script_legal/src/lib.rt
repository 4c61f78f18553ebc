//! Judges a transcript: whether a run of a document writes it, or whether some legal run of its script does, whatever its objects answer.
#![tactic(auto)]

mod any;
mod judging;
mod lines;
mod repeats;
mod shown_acts;
mod words;

pub use any::judge_any;
pub use judging::{Judgement, judge};
pub use repeats::{AnyJudgement, Unshown};
pub use shown_acts::MOST_ACTS;
