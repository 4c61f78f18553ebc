//! The actions that pass on the item of the call.

ghost use Rattle.std.specs.Prelude.{◌≡◌};
ghost use Rattle.script_answer_acts.specs.ForwardActs.{forwarded};

use uvm_glob::Name;
use uvm_object::Act;
use uvm_tlm::Item;

/// An action that passes on the item of the call.
#[derive(Clone, Copy)]
pub enum ForwardAct {
    /// A put of the item through a port (IEEE 1800.2-2020, Clause 12).
    Put {
        /// The name of the port.
        port: Name,
    },
    /// A put of the item through a port if the put can complete immediately.
    TryPut {
        /// The name of the port.
        port: Name,
    },
    /// A write of the item through an analysis port.
    Write {
        /// The name of the port.
        port: Name,
    },
    /// The completion of the driver's current item, with the item of the call as the response (Clause 15).
    ItemDone {
        /// The name of the port.
        port: Name,
    },
    /// A send of the item to the driver (Clause 15).
    Send,
}

impl ForwardAct {
    /// Returns the action that passes on `item`.
    pub fn act(&self, item: Item) -> Act
        ensures { result ≡ forwarded self.now item }
    {
        match *self {
            ForwardAct::Put { port } => Act::Put { port, item },
            ForwardAct::TryPut { port } => Act::TryPut { port, item },
            ForwardAct::Write { port } => Act::Write { port, item },
            ForwardAct::ItemDone { port } => Act::ItemDone {
                port,
                response: Some(item),
            },
            ForwardAct::Send => Act::Send { item },
        }
    }
}
