//! The stage that a run has reached.

use uvm_phase::Phase;

/// The stage that a run has reached.
#[derive(Clone, Copy, PartialEq, Eq)]
pub enum RunStage {
    /// No phase has begun.
    Before,
    /// This phase was begun last and has not ended.
    During(Phase),
    /// This phase has ended, and the next has not begun.
    After(Phase),
    /// The run has ended.
    Ended,
}
