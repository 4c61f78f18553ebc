//! The usual actions of objects, which build structures and pass items through them.

use crate::random::acts::{added, linked};
use crate::random::arguments::{LONG, PRIORITIES, TICKS, item, name_of, path_of};
use crate::random::dice::Dice;
use std::alloc::Global;
use uvm_glob::Name;
use uvm_object::{Act, Call};
use uvm_phase::Phase;
use uvm_sequencer::How;
use uvm_tlm::Item;

/// The nature of an object, which decides its usual actions.
#[derive(Clone, Copy)]
pub(crate) enum Nature {
    /// The test, which delays the end of the run phase by some ticks.
    Test,
    /// A component.
    Behaviour,
    /// A component that creates another one of this nature.
    Chain,
    /// A sequence.
    Sequence,
}

impl Nature {
    /// Returns the nature of the objects of the type `type_name`.
    pub(crate) fn of_type(type_name: &Name) -> Nature {
        match type_name.as_bytes() {
            b"t" => Nature::Test,
            b"e" => Nature::Chain,
            b"q" | b"r" | b"s" => Nature::Sequence,
            _ => Nature::Behaviour,
        }
    }
}

// The children that a component usually adds, in this order. An empty name is that of a new component.
const PARTS: [&str; 12] = [
    "sq", "sp", "f", "pp", "", "gp", "ap", "im", "", "g", "q2", "s2",
];

// The connections that a component usually makes, in this order.
const CONNECTIONS: [(&str, &str); 12] = [
    ("sp", "sq"),
    ("pp", "f"),
    ("gp", "f"),
    ("ap", "im"),
    ("s2", "q2"),
    ("ap", "g"),
    ("a.ap", "im"),
    ("a.pp", "g"),
    ("a.gp", "g"),
    ("b.ap", "a.im"),
    ("a.sp", "sq"),
    ("b.pp", "f"),
];

/// Returns the usual action at a place of the answer to `call`, or `None` if there is none. If `is_crowded` is true, only a `Chain` creates
/// a component.
pub(crate) fn habit(
    alloc: Global,
    dice: &mut Dice,
    nature: Nature,
    is_crowded: bool,
    call: &Call,
    place: u64,
) -> Option<Act> {
    match call {
        Call::Phase(Phase::Build) => built(dice, nature, is_crowded, place),
        Call::Phase(Phase::Connect) => {
            let (from, to) = *CONNECTIONS.get(place as usize)?;
            Some(linked(alloc, from, to))
        }
        Call::Phase(Phase::Run) => begun(alloc, dice, nature, place),
        Call::Phase(_) => None,
        Call::Wake { tag: 9 } if place == 0 => Some(Act::DropObjection { count: 1 }),
        _ if place == 0 => stepped(dice, call).or(flowing(call, place)),
        _ => flowing(call, place),
    }
}

// Returns the usual action at a place of the answer in the build phase.
fn built(dice: &mut Dice, nature: Nature, is_crowded: bool, place: u64) -> Option<Act> {
    if let (Nature::Chain, 0) = (nature, place) {
        return Some(Act::Create {
            type_name: name_of("e"),
            name: name_of(dice.pick(&["a", "a", "b", LONG], "a")),
        });
    }
    match *PARTS.get(place as usize)? {
        "" if is_crowded => None,
        "" => Some(Act::Create {
            type_name: name_of(dice.pick(&["c", "d"], "c")),
            name: name_of(if place < 6 { "a" } else { "b" }),
        }),
        behaviour => Some(added(dice, name_of(behaviour))),
    }
}

// Returns the usual action at a place of the answer in the run phase.
fn begun(alloc: Global, dice: &mut Dice, nature: Nature, place: u64) -> Option<Act> {
    match (nature, place) {
        (Nature::Test, 0) => Some(Act::RaiseObjection { count: 1 }),
        (Nature::Test, 1) => Some(Act::Wait {
            ticks: dice.below(20),
            tag: 9,
        }),
        (_, 0 | 2) if dice.one_in(2) => Some(Act::Ask {
            port: name_of("sp"),
            how: How::Next,
        }),
        (_, 0..=3) => Some(Act::Start {
            type_name: name_of(dice.pick(&["q", "r", "s"], "q")),
            name: name_of("x"),
            on: path_of(alloc, "sq"),
            priority: dice.pick(&PRIORITIES, None),
        }),
        (_, 4) => Some(Act::Put {
            port: name_of("pp"),
            item: item(dice),
        }),
        (_, 5) => Some(Act::Take {
            port: name_of("gp"),
        }),
        (_, 6) => Some(Act::SetDrain {
            ticks: dice.pick(&TICKS, 0),
        }),
        _ => None,
    }
}

// Returns the usual action that passes an item on, at a place of the answer to a call.
fn flowing(call: &Call, place: u64) -> Option<Act> {
    match (call, place) {
        (Call::Stored { port }, 0) => Some(Act::Put {
            port: *port,
            item: Item([1, 2, 3, 4]),
        }),
        (Call::Taken { item, .. }, 0) => Some(Act::Write {
            port: name_of("ap"),
            item: *item,
        }),
        (Call::Taken { port, .. } | Call::Peeked { port, .. }, _) => {
            Some(Act::Take { port: *port })
        }
        (Call::Written { item, .. }, 0) => Some(Act::Put {
            port: name_of("pp"),
            item: *item,
        }),
        (Call::NextItem { port, item }, 0) => Some(Act::ItemDone {
            port: *port,
            response: *item,
        }),
        (Call::NextItem { port, .. }, 1) => Some(Act::Ask {
            port: *port,
            how: How::Next,
        }),
        _ => None,
    }
}

// Returns the usual action of a sequence at a call.
fn stepped(dice: &mut Dice, call: &Call) -> Option<Act> {
    match call {
        Call::PreStart | Call::PostStart => Some(Act::EndStep),
        Call::Body => Some(match dice.below(8) {
            0 => Act::Lock,
            1 => Act::Grab,
            _ => Act::Request { priority: None },
        }),
        Call::Grant => Some(Act::Send { item: item(dice) }),
        Call::Held => Some(Act::Request { priority: None }),
        Call::ItemDone { .. } => Some(match dice.below(4) {
            0 => Act::Unlock,
            1 => Act::Request { priority: None },
            _ => Act::EndStep,
        }),
        _ => None,
    }
}
