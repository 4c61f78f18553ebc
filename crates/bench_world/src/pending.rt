//! What a world waits for: the object of a creation or a start, or the answer to a call.

ghost use Rattle.std.specs.Prelude.{◌≡◌, None};
ghost use Rattle.bench_world.specs.Worlds.{call_in, parts_in};

use uvm_object::{Call, Origin, Who};
use world_entries::making::{PendingCreation, PendingParts};

/// A call that is not answered yet. It was scheduled with an origin, or is the call of a phase.
#[derive(Drop)]
pub struct PendingCall {
    /// The component or sequence that is to answer.
    pub who: Who,
    /// The call.
    pub call: Call,
    /// The cause of the call and its phase. `None` for the call of a phase.
    pub origin: Option<Origin>,
}

/// What a world waits for.
#[derive(Drop)]
pub enum Pending {
    /// The object of a creation or a start.
    Creation(PendingCreation),
    /// The answer to a call.
    Call(PendingCall),
}

/// Ends the wait, and returns the data of the creation or start if it waits for its object. Allocates no memory.
pub(crate) fn take_parts(pending: &mut Option<Pending>) -> Option<PendingParts>
    ensures value { result ≡ parts_in pending.old }
    ensures after { pending.new ≡ None }
{
    match pending.take()? {
        Pending::Creation(creation) => Some(creation.into_parts()),
        Pending::Call(_) => None,
    }
}

/// Ends the wait, and returns the call if it waits for its answer. Allocates no memory.
pub(crate) fn take_call(pending: &mut Option<Pending>) -> Option<PendingCall>
    ensures value { result ≡ call_in pending.old }
    ensures after { pending.new ≡ None }
{
    match pending.take()? {
        Pending::Call(pending_call) => Some(pending_call),
        // (It has a name, since the proof covers no arm that drops what has none.)
        Pending::Creation(creation) => {
            drop(creation);
            None
        }
    }
}
