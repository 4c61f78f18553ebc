//! The calls that an object receives, the actions with which it answers, and how a log stores both.
#![tactic(auto)]

mod acts;
mod answers;
mod child_starts;
mod port_acts;
mod stored_acts;
mod stored_calls;

pub use acts::{Act, Call, What, Who};
pub use stored_acts::{ActRef, Acts, ActsIter, StoredAct};
pub use stored_calls::{EventCall, StoredCall};
