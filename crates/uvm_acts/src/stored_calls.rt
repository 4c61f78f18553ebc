//! Compact storage of calls.

ghost use Rattle.std.specs.Prelude.{◌≡◌, true, None, Some, IfOk, IfSome, IsOk};
ghost use Rattle.uvm_acts.specs.declared.acts.Call.TheVariants.{Finished};
ghost use Rattle.uvm_acts.specs.StoredCalls.{stored_call, is_call, is_of_numbers};
ghost use Rattle.uvm_acts.specs.PortCalls.{call_at};

use crate::acts::Call;
use std::alloc::{AllocError, Global};
use std::marker::Model;
use uvm_glob::{Name, ShortName};
use uvm_phase::Phase;
use uvm_sequences::SeqId;
use uvm_tlm::Item;

// The kind of a call with an item and a port.
#[derive(Clone, Copy)]
enum PortNews {
    /// `Call::Taken`.
    Taken,
    /// `Call::TryTaken`.
    TryTaken,
    /// `Call::Peeked`.
    Peeked,
    /// `Call::Written`.
    Written,
    /// `Call::NextItem`.
    NextItem,
}

// A call with an item through a port with a short name.
#[derive(Drop)]
struct PortCall {
    port: ShortName,
    news: PortNews,
    item: Item,
}

impl Model for PortCall {
    ghost use Rattle.uvm_acts.specs.declared.acts.Call.{Call};
    ghost use Rattle.uvm_acts.specs.PortCalls.{call_at};

    ghost Value = { Call };

    ghost view = { λ p. call_at p.port p.news p.item };
}

impl PortCall {
    // Creates the compact form of a call; `None` if it is not a call with an item through a port with a short name.
    fn new(call: &Call) -> Option<PortCall>
        ensures { IfSome result (λ held. held ≡ call.now) }
    {
        let (port, news, item) = parts(call)?;
        Some(PortCall {
            port: ShortName::new(port)?,
            news,
            item,
        })
    }

    // Returns the call.
    fn call(&self) -> Call
        ensures { result ≡ self.now }
    {
        let (port, item) = (self.port.name(), self.item);
        match self.news {
            PortNews::Taken => Call::Taken { port, item },
            PortNews::TryTaken => Call::TryTaken {
                port,
                item: Some(item),
            },
            PortNews::Peeked => Call::Peeked { port, item },
            PortNews::Written => Call::Written { imp: port, item },
            PortNews::NextItem => Call::NextItem {
                port,
                item: Some(item),
            },
        }
    }
}

// Returns the port or imp, the kind and the item of a call with an item through a port; `None` for other calls.
fn parts(call: &Call) -> Option<(&Name, PortNews, Item)>
    ensures { IfSome result (λ parts. call_at parts.0.now parts.1 parts.2 ≡ call.now) }
{
    match call {
        Call::Taken { port, item } => Some((port, PortNews::Taken, *item)),
        Call::TryTaken {
            port,
            item: Some(item),
        } => Some((port, PortNews::TryTaken, *item)),
        Call::Peeked { port, item } => Some((port, PortNews::Peeked, *item)),
        Call::Written { imp, item } => Some((imp, PortNews::Written, *item)),
        Call::NextItem {
            port,
            item: Some(item),
        } => Some((port, PortNews::NextItem, *item)),
        _ => None,
    }
}

// Returns the compact form of a call without an item through a port with a short name; `None` for other calls.
fn at_port(call: &Call) -> Option<CompactCall>
    ensures { IfSome result (λ compact. (is_call compact ≡ true) × (stored_call compact ≡ call.now)) }
{
    Some(match call {
        Call::Stored { port } => CompactCall::Stored {
            port: ShortName::new(port)?,
        },
        Call::TryStored { port, stored } => CompactCall::TryStored {
            stored: *stored,
            port: ShortName::new(port)?,
        },
        Call::TryTaken { port, item: None } => CompactCall::NoneTaken {
            port: ShortName::new(port)?,
        },
        Call::NextItem { port, item: None } => CompactCall::NoItem {
            port: ShortName::new(port)?,
        },
        _ => return None,
    })
}

// The call `Finished` of a sequence with a short name.
#[derive(Drop)]
struct Finish {
    name: ShortName,
    id: SeqId,
}

impl Finish {
    // Creates the compact form of a call; `None` if it is not `Finished`, or if the name is not short.
    fn new(call: &Call) -> Option<Finish>
        ensures { IfSome result (λ finish. call.now ≡ Finished finish.name finish.id) }
    {
        match call {
            Call::Finished { name, id } => Some(Finish {
                name: ShortName::new(name)?,
                id: *id,
            }),
            _ => None,
        }
    }

    // Returns the call.
    fn call(&self) -> Call
        ensures { result ≡ Finished self.now.name self.now.id }
    {
        Call::Finished {
            name: self.name.name(),
            id: self.id,
        }
    }
}

// A call or none, in two machine words. A call with neither a name nor an item, or only with a short port name, is stored in place. All
// others are stored on the heap.
#[derive(Drop)]
enum CompactCall {
    /// No call.
    Nothing,
    /// `Call::Phase`.
    Phase(Phase),
    /// `Call::Wake`.
    Wake {
        /// The tag that was given to `Act::Wait`.
        tag: u32,
    },
    /// `Call::PreStart`.
    PreStart,
    /// `Call::Body`.
    Body,
    /// `Call::PostStart`.
    PostStart,
    /// `Call::Grant`.
    Grant,
    /// `Call::ItemDone` without a response.
    Done,
    /// `Call::ItemDone` with a response.
    Responded(Box<Item>),
    /// `Call::Held`.
    Held,
    /// `Call::Stored` through a port with a short name.
    Stored {
        port: ShortName,
    },
    /// `Call::TryStored` through a port with a short name.
    TryStored {
        /// Whether the item is in the FIFO.
        stored: bool,
        port: ShortName,
    },
    /// `Call::TryTaken` without an item, through a port with a short name.
    NoneTaken {
        port: ShortName,
    },
    /// `Call::NextItem` without an item, through a port with a short name.
    NoItem {
        port: ShortName,
    },
    /// A call with an item through a port with a short name.
    AtPort(Box<PortCall>),
    /// `Call::Finished` of a sequence with a short name.
    Finished(Box<Finish>),
    /// Any call.
    Whole(Box<Call>),
}

/// A call, stored in two machine words. It has one allocation more unless it has neither a name nor an item, or only a port name of at most
/// `ShortName::MAX_LEN` bytes. In contracts it is the call.
pub struct StoredCall {
    compact: CompactCall,
}

// (Implemented by hand, so that dependent crates need no proof about the drop of its field.)
impl Drop for StoredCall {
    fn drop(self) {
        let StoredCall { compact: _ } = self;
    }
}

impl Model for StoredCall {
    ghost use Rattle.std.specs.Prelude.{◌≡◌, true};
    ghost use Rattle.uvm_acts.specs.declared.acts.Call.{Call};
    ghost use Rattle.uvm_acts.specs.StoredCalls.{stored_call, is_call};

    ghost Value = { Call };

    ghost view = { λ h. stored_call h.compact };

    ghost invariant = { λ h. is_call h.compact ≡ true };
}

impl StoredCall {
    /// Creates the stored form of a call. Errors: out of memory, never for a call with neither a name nor an item.
    pub fn new(alloc: Global, call: &Call) -> Result<StoredCall, AllocError>
        ensures ok { IfOk result (λ held. held ≡ call.now) }
        ensures numbers { is_of_numbers call.now ≡ true → IsOk result }
    {
        let compact = match call {
            Call::Phase(phase) => CompactCall::Phase(*phase),
            Call::Wake { tag } => CompactCall::Wake { tag: *tag },
            Call::PreStart => CompactCall::PreStart,
            Call::Body => CompactCall::Body,
            Call::PostStart => CompactCall::PostStart,
            Call::Grant => CompactCall::Grant,
            Call::ItemDone { response: None } => CompactCall::Done,
            Call::ItemDone {
                response: Some(item),
            } => CompactCall::Responded(Box::new(alloc, *item)?),
            Call::Held => CompactCall::Held,
            _ => return StoredCall::named(alloc, call),
        };
        Ok(StoredCall { compact })
    }

    // Creates the stored form of a call with a name. It is in place for a short port name and no item, otherwise on the heap.
    fn named(alloc: Global, call: &Call) -> Result<StoredCall, AllocError>
        ensures { IfOk result (λ held. held ≡ call.now) }
    {
        if let Some(compact) = at_port(call) {
            return Ok(StoredCall { compact });
        }
        if let Some(port_call) = PortCall::new(call) {
            return Ok(StoredCall {
                compact: CompactCall::AtPort(Box::new(alloc, port_call)?),
            });
        }
        let compact = match Finish::new(call) {
            Some(finish) => CompactCall::Finished(Box::new(alloc, finish)?),
            None => CompactCall::Whole(Box::new(alloc, *call)?),
        };
        Ok(StoredCall { compact })
    }

    /// Returns the call.
    pub fn get(&self) -> Call
        ensures { result ≡ self.now }
    {
        call_of(&self.compact)
    }

    fn into_compact(self) -> CompactCall
        ensures call { is_call result ≡ true }
        ensures same { stored_call result ≡ self }
    {
        let StoredCall { compact } = self;
        compact
    }
}

// Returns the call. Requires that there is one.
fn call_of(compact: &CompactCall) -> Call
    requires { is_call compact.now ≡ true }
    ensures { result ≡ stored_call compact.now }
{
    match compact {
        CompactCall::Nothing => unreachable!(),
        CompactCall::Phase(phase) => Call::Phase(*phase),
        CompactCall::Wake { tag } => Call::Wake { tag: *tag },
        CompactCall::PreStart => Call::PreStart,
        CompactCall::Body => Call::Body,
        CompactCall::PostStart => Call::PostStart,
        CompactCall::Grant => Call::Grant,
        CompactCall::Done => Call::ItemDone { response: None },
        CompactCall::Responded(item) => Call::ItemDone {
            response: Some(**item),
        },
        CompactCall::Held => Call::Held,
        CompactCall::Stored { port } => Call::Stored { port: port.name() },
        CompactCall::TryStored { stored, port } => Call::TryStored {
            port: port.name(),
            stored: *stored,
        },
        CompactCall::NoneTaken { port } => Call::TryTaken {
            port: port.name(),
            item: None,
        },
        CompactCall::NoItem { port } => Call::NextItem {
            port: port.name(),
            item: None,
        },
        CompactCall::AtPort(port_call) => port_call.call(),
        CompactCall::Finished(finish) => finish.call(),
        CompactCall::Whole(call) => **call,
    }
}

/// The call that the target of an event receives, or none if a drain ends. It is no larger than a `StoredCall`. In contracts it is the
/// call, if there is one.
pub struct EventCall {
    compact: CompactCall,
}

// (Implemented by hand, so that dependent crates need no proof about the drop of its field.)
impl Drop for EventCall {
    fn drop(self) {
        let EventCall { compact: _ } = self;
    }
}

impl Model for EventCall {
    ghost use Rattle.std.specs.Prelude.{Option};
    ghost use Rattle.uvm_acts.specs.declared.acts.Call.{Call};
    ghost use Rattle.uvm_acts.specs.StoredCalls.{noticed_call};

    ghost Value = { Option Call };

    ghost view = { λ n. noticed_call n.compact };
}

impl EventCall {
    /// Creates an `EventCall` without a call. Allocates no memory.
    pub fn nothing() -> EventCall
        ensures { result ≡ None }
    {
        EventCall {
            compact: CompactCall::Nothing,
        }
    }

    /// Creates an `EventCall` with a call. Allocates no memory.
    pub fn of_call(call: StoredCall) -> EventCall
        ensures { result ≡ Some call }
    {
        EventCall {
            compact: call.into_compact(),
        }
    }

    /// Returns the call, if there is one. Allocates no memory.
    pub fn call(&self) -> Option<Call>
        ensures { result ≡ self.now }
    {
        match &self.compact {
            CompactCall::Nothing => None,
            compact => Some(call_of(compact)),
        }
    }
}
