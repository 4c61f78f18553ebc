//! The targets of the events of the agenda, and the calls that are due immediately.

ghost use Rattle.std.specs.Prelude.{◌≡◌};
ghost use Rattle.bench_history.specs.EventTargets.{who_of};

use uvm_object::{Call, Who};
use uvm_phase::Phase;
use uvm_tree::NodeId;

/// The target of an event of the agenda. The drain of a node is a target of its own: to cancel it leaves the calls to the node's component.
#[derive(Clone, Copy, PartialEq, Eq, Hash)]
pub enum EventTarget {
    /// The component or sequence that receives the call.
    Object(Who),
    /// The node whose drain ends, and the phase of its objection (IEEE 1800.2-2020, 10.5).
    Drain(NodeId, Phase),
}

impl EventTarget {
    /// Returns the object that receives the call, or the node of the drain as a `Who::Node`.
    pub fn who(&self) -> Who
        ensures { result ≡ who_of self.now }
    {
        match self {
            EventTarget::Object(who) => *who,
            EventTarget::Drain(node, _) => Who::Node(*node),
        }
    }
}

/// A call that is due immediately, and the phase to which it belongs.
#[derive(Clone, Copy)]
pub struct DueCall {
    /// The receiver of the call.
    pub who: Who,
    /// The call.
    pub call: Call,
    /// The phase to which the call belongs. The call is no longer due when this phase ends (IEEE 1800.2-2020, Clause 9).
    pub phase: Option<Phase>,
}
