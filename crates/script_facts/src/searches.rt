//! What is searched in the log only when a line tells it.

use crate::facts::Facts;
use uvm_glob::Name;
use uvm_object::{Act, Call, Entry, Outcome, Who};
use uvm_phase::Phase;
use uvm_tree::NodeId;

/// What a driver has done through a port.
#[derive(Clone, Copy, Drop)]
pub struct Drive {
    /// The number of its accepted asks.
    pub asks: usize,
    /// The time of the last of them.
    pub asked: u64,
    /// The time at which the last item came.
    pub item: u64,
}

/// A raise of an objection.
#[derive(Clone, Copy, Drop)]
pub struct Raise {
    /// The component or the sequence that raised.
    pub who: Who,
    /// The time.
    pub time: u64,
}

/// An action in the log.
#[derive(Clone, Copy, Drop)]
pub struct Performed {
    /// The place of its entry.
    pub place: usize,
    /// The place of the call that it answers, if the performer is not the kernel itself.
    pub heard: Option<usize>,
    /// The number of the action in the answer, from 1.
    pub number: usize,
    /// The phase of the call.
    pub phase: Option<Phase>,
}

impl Facts<'_> {
    /// Returns the time of the entry at a place.
    pub fn time_at(&self, place: usize) -> u64 {
        for before in (0..place).rev() {
            if let Some(Entry::Time(time)) = self.core.log().get(before) {
                return *time;
            }
        }
        0
    }

    /// Returns the place of the last action.
    pub fn last_place(&self) -> Option<usize> {
        let log = self.core.log();
        for place in (0..log.len()).rev() {
            if let Some(Entry::Did { .. }) = log.get(place) {
                return Some(place);
            }
        }
        None
    }

    /// Returns the last action.
    pub fn last_action(&self) -> Option<Performed> {
        let place = self.last_place()?;
        let mut number = 1usize;
        for before in (0..place).rev() {
            match self.core.log().get(before) {
                Some(Entry::Did { .. }) => number = number.saturating_add(1),
                Some(entry @ Entry::Heard { .. }) => {
                    return Some(Performed {
                        place,
                        heard: Some(before),
                        number,
                        phase: call_phase(entry),
                    });
                }
                _ => {}
            }
        }
        Some(Performed {
            place,
            heard: None,
            number,
            phase: None,
        })
    }

    /// Returns whether an objection was raised.
    pub fn has_raised(&self) -> bool {
        for entry in self.core.log().iter() {
            if is_raise(entry) {
                return true;
            }
        }
        false
    }

    /// Returns the last raise at a node in a phase.
    pub fn raise(&self, node: NodeId, phase: Phase) -> Option<Raise> {
        let mut last = None;
        let (mut time, mut phase_now) = (0, None);
        for entry in self.core.log().iter() {
            match entry {
                Entry::Time(now) => time = *now,
                Entry::Heard { .. } => phase_now = Some(entry),
                Entry::Did { who, .. } if who.node() == node && is_raise(entry) => {
                    if phase_now.and_then(call_phase) == Some(phase) {
                        last = Some(Raise { who: *who, time });
                    }
                }
                _ => {}
            }
        }
        last
    }

    /// Returns what a driver has done through a port.
    pub fn drive(&self, driver: &Who, through: &Name) -> Drive {
        let mut drive = Drive {
            asks: 0,
            asked: 0,
            item: 0,
        };
        let mut time = 0;
        for entry in self.core.log().iter() {
            match entry {
                Entry::Time(now) => time = *now,
                Entry::Heard { who, call, .. } if who == driver => {
                    if is_item_through(&call.get(), through) {
                        drive.item = time;
                    }
                }
                Entry::Did { who, .. } if who == driver && is_ask_through(entry, through) => {
                    drive.asks = drive.asks.saturating_add(1);
                    drive.asked = time;
                }
                _ => {}
            }
        }
        drive
    }
}

// Returns the phase to which a call belongs, if there is one.
fn call_phase(heard: &Entry) -> Option<Phase> {
    let Entry::Heard { call, origin, .. } = heard else {
        return None;
    };
    match (call.get(), origin.get()) {
        (Call::Phase(phase), _) => Some(phase),
        (_, Some(origin)) => Some(origin.phase),
        _ => None,
    }
}

// Returns whether an entry is an accepted action that raises objections.
fn is_raise(entry: &Entry) -> bool {
    let Entry::Did { outcome, act, .. } = entry else {
        return false;
    };
    matches!(outcome.get(), Outcome::Done)
        && matches!(act.act().get(), Act::RaiseObjection { count } if *count > 0)
}

// Returns whether a call brings an item through a port.
fn is_item_through(call: &Call, through: &Name) -> bool {
    matches!(call, Call::NextItem { port, item: Some(_) } if port == through)
}

// Returns whether an entry is an accepted ask through a port.
fn is_ask_through(entry: &Entry, through: &Name) -> bool {
    let Entry::Did { outcome, act, .. } = entry else {
        return false;
    };
    !matches!(outcome.get(), Outcome::Refused(_))
        && matches!(act.act().get(), Act::Ask { port, .. } if port == through)
}
