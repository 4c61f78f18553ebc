//! The actions of an answer, as an entry of the log stores them.

ghost use Rattle.std.specs.Prelude.{◌≡◌, ◌==◌, ◌++◌, ◌∷◌, [], true, length, slice_get, OnOk, OnErr, IfOk, IfSome, IsOk, option_copied};
ghost use Rattle.uvm_acts.specs.StoredActs.{held_act, is_of_numbers};

use crate::acts::Act;
use crate::child_starts::ChildStart;
use crate::port_acts::PortAct;
use std::alloc::{AllocError, Global};
use std::iter::FusedIterator;
use std::marker::Model;
use std::rc::Rc;
use std::slice;
use uvm_glob::ShortName;
use uvm_sequencer::How;
use uvm_tlm::Item;

// An action in two machine words. An action with only numbers, or with a short port name and no item, is stored in place. All others are
// stored on the heap, the most frequent of them in a compact form.
#[derive(Drop)]
enum CompactAct {
    /// `Act::Request`.
    Request {
        /// The priority.
        priority: Option<u16>,
    },
    /// `Act::Lock`.
    Lock,
    /// `Act::Grab`.
    Grab,
    /// `Act::Unlock`.
    Unlock,
    /// `Act::EndStep`.
    EndStep,
    /// `Act::RaiseObjection`.
    RaiseObjection {
        /// The number of objections.
        count: u16,
    },
    /// `Act::DropObjection`.
    DropObjection {
        /// The number of objections.
        count: u16,
    },
    /// `Act::SetDrain`.
    SetDrain {
        /// The drain time in ticks.
        ticks: u64,
    },
    /// `Act::Wait`.
    Wait {
        /// The number that `Call::Wake` returns.
        tag: u32,
        /// The number of ticks.
        ticks: u64,
    },
    /// `Act::Send`.
    Send(Rc<Item>),
    /// `Act::Take` through a port with a short name.
    Take {
        port: ShortName,
    },
    /// `Act::TryTake` through a port with a short name.
    TryTake {
        port: ShortName,
    },
    /// `Act::Peek` through a port with a short name.
    Peek {
        port: ShortName,
    },
    /// `Act::Ask` through a port with a short name.
    Ask {
        /// How the driver asks.
        how: How,
        port: ShortName,
    },
    /// `Act::ItemDone` without a response, through a port with a short name.
    Done {
        port: ShortName,
    },
    /// An action with an item through a port with a short name.
    AtPort(Rc<PortAct>),
    /// The start of a child sequence whose type and name are short names.
    StartChild(Rc<ChildStart>),
    /// Any action.
    Whole(Rc<Act>),
}

/// An action of an answer. The entry that records its outcome shares it, so that no memory of an action is copied when it is performed. An action
/// with only numbers owns no memory. In contracts it is the action.
pub struct StoredAct {
    compact: CompactAct,
}

impl Drop for StoredAct {
    fn drop(self) {
        let StoredAct { compact: _ } = self;
    }
}

impl Model for StoredAct {
    ghost use Rattle.uvm_acts.specs.StoredActs.{held_act};
    ghost use Rattle.uvm_acts.specs.declared.acts.Act.{Act};

    ghost Value = { Act };

    ghost view = { λ d. held_act d.compact };
}

impl StoredAct {
    /// Creates the stored form of an action, which can be shared. Errors: out of memory, never for an action with only numbers.
    pub fn new(alloc: Global, act: Act) -> Result<StoredAct, AllocError>
        ensures ok { IfOk result (λ stored_act. stored_act ≡ act) }
        ensures numbers { is_of_numbers act ≡ true → IsOk result }
    {
        let compact = match act {
            Act::Request { priority } => CompactAct::Request { priority },
            Act::Lock => CompactAct::Lock,
            Act::Grab => CompactAct::Grab,
            Act::Unlock => CompactAct::Unlock,
            Act::EndStep => CompactAct::EndStep,
            Act::RaiseObjection { count } => CompactAct::RaiseObjection { count },
            Act::DropObjection { count } => CompactAct::DropObjection { count },
            Act::SetDrain { ticks } => CompactAct::SetDrain { ticks },
            Act::Wait { ticks, tag } => CompactAct::Wait { tag, ticks },
            Act::Send { item } => CompactAct::Send(Rc::new(alloc, item)?),
            act => return StoredAct::named(alloc, act),
        };
        Ok(StoredAct { compact })
    }

    // Creates the stored form of an action with a name. It is in place for a short port name and no item, otherwise on the heap.
    fn named(alloc: Global, act: Act) -> Result<StoredAct, AllocError>
        ensures { IfOk result (λ stored_act. stored_act ≡ act) }
    {
        if let Some(compact) = at_port(&act) {
            return Ok(StoredAct { compact });
        }
        if let Some(port_act) = PortAct::new(&act) {
            return Ok(StoredAct {
                compact: CompactAct::AtPort(Rc::new(alloc, port_act)?),
            });
        }
        if let Some(start) = ChildStart::new(alloc, &act) {
            return Ok(StoredAct {
                compact: CompactAct::StartChild(Rc::new(alloc, start)?),
            });
        }
        Ok(StoredAct {
            compact: CompactAct::Whole(Rc::new(alloc, act)?),
        })
    }

    /// Returns another share of the same action. Allocates no memory. Errors: the count of its shares has reached its maximum.
    pub fn share(&self) -> Result<StoredAct, AllocError>
        ensures { IfOk result (λ stored_act. stored_act ≡ self.now) }
    {
        let compact = match &self.compact {
            CompactAct::Request { priority } => CompactAct::Request {
                priority: *priority,
            },
            CompactAct::Lock => CompactAct::Lock,
            CompactAct::Grab => CompactAct::Grab,
            CompactAct::Unlock => CompactAct::Unlock,
            CompactAct::EndStep => CompactAct::EndStep,
            CompactAct::RaiseObjection { count } => CompactAct::RaiseObjection { count: *count },
            CompactAct::DropObjection { count } => CompactAct::DropObjection { count: *count },
            CompactAct::SetDrain { ticks } => CompactAct::SetDrain { ticks: *ticks },
            CompactAct::Wait { tag, ticks } => CompactAct::Wait {
                tag: *tag,
                ticks: *ticks,
            },
            CompactAct::Send(item) => CompactAct::Send(item.clone()?),
            CompactAct::Take { port } => CompactAct::Take { port: port.copy() },
            CompactAct::TryTake { port } => CompactAct::TryTake { port: port.copy() },
            CompactAct::Peek { port } => CompactAct::Peek { port: port.copy() },
            CompactAct::Ask { how, port } => CompactAct::Ask {
                how: *how,
                port: port.copy(),
            },
            CompactAct::Done { port } => CompactAct::Done { port: port.copy() },
            CompactAct::AtPort(port_act) => CompactAct::AtPort(port_act.clone()?),
            CompactAct::StartChild(start) => CompactAct::StartChild(start.clone()?),
            CompactAct::Whole(act) => CompactAct::Whole(act.clone()?),
        };
        Ok(StoredAct { compact })
    }

    /// Returns the action. Allocates no memory.
    pub fn act(&self) -> ActRef<'_>
        ensures { result ≡ self.now }
    {
        let lent = match &self.compact {
            CompactAct::Request { priority } => Lent::Made(Act::Request {
                priority: *priority,
            }),
            CompactAct::Lock => Lent::Made(Act::Lock),
            CompactAct::Grab => Lent::Made(Act::Grab),
            CompactAct::Unlock => Lent::Made(Act::Unlock),
            CompactAct::EndStep => Lent::Made(Act::EndStep),
            CompactAct::RaiseObjection { count } => Lent::Made(Act::RaiseObjection {
                count: *count,
            }),
            CompactAct::DropObjection { count } => Lent::Made(Act::DropObjection { count: *count }),
            CompactAct::SetDrain { ticks } => Lent::Made(Act::SetDrain { ticks: *ticks }),
            CompactAct::Wait { tag, ticks } => Lent::Made(Act::Wait {
                ticks: *ticks,
                tag: *tag,
            }),
            CompactAct::Send(item) => Lent::Made(Act::Send { item: **item }),
            CompactAct::Take { port } => Lent::Made(Act::Take { port: port.name() }),
            CompactAct::TryTake { port } => Lent::Made(Act::TryTake { port: port.name() }),
            CompactAct::Peek { port } => Lent::Made(Act::Peek { port: port.name() }),
            CompactAct::Ask { how, port } => Lent::Made(Act::Ask {
                port: port.name(),
                how: *how,
            }),
            CompactAct::Done { port } => Lent::Made(Act::ItemDone {
                port: port.name(),
                response: None,
            }),
            CompactAct::AtPort(port_act) => Lent::Made(port_act.act()),
            CompactAct::StartChild(start) => Lent::Made(start.act()),
            CompactAct::Whole(act) => Lent::Whole(act),
        };
        ActRef { lent }
    }
}

// Returns the compact form of an action without an item through a port with a short name; `None` for other actions.
fn at_port(act: &Act) -> Option<CompactAct>
    ensures { IfSome result (λ compact. held_act compact ≡ act.now) }
{
    Some(match act {
        Act::Take { port } => CompactAct::Take {
            port: ShortName::new(port)?,
        },
        Act::TryTake { port } => CompactAct::TryTake {
            port: ShortName::new(port)?,
        },
        Act::Peek { port } => CompactAct::Peek {
            port: ShortName::new(port)?,
        },
        Act::Ask { port, how } => CompactAct::Ask {
            how: *how,
            port: ShortName::new(port)?,
        },
        Act::ItemDone {
            port,
            response: None,
        } => CompactAct::Done {
            port: ShortName::new(port)?,
        },
        _ => return None,
    })
}

// A reference to an action that is stored whole, or an action that is built from its compact form.
#[derive(Drop)]
enum Lent<'a> {
    Made(Act),
    Whole(&'a Act),
}

/// A reference to an action of an answer. In contracts it is the action.
pub struct ActRef<'a> {
    lent: Lent<'a>,
}

// (Implemented by hand, so that dependent crates need no proof about the drop of its field.)
impl Drop for ActRef<'_> {
    fn drop(self) {
        let ActRef { lent: _ } = self;
    }
}

impl<'a> Model for ActRef<'a> {
    ghost use Rattle.uvm_acts.specs.StoredActs.{act_ref};
    ghost use Rattle.uvm_acts.specs.declared.acts.Act.{Act};

    ghost Value = { Act };

    ghost view = { λ l. act_ref l.lent };
}

impl ActRef<'_> {
    /// Returns the action.
    pub fn get(&self) -> &Act
        ensures { result.now ≡ self.now }
    {
        match &self.lent {
            Lent::Made(act) => act,
            Lent::Whole(act) => act,
        }
    }
}

// The actions of an answer. Most answers have one or two, for which no vector is allocated.
#[derive(Drop)]
enum StoredActs {
    /// No action.
    None,
    /// One action.
    One(StoredAct),
    /// Two actions, in order.
    Two(Box<[StoredAct; 2]>),
    /// Any number of actions, in order.
    Many(Box<Vec<StoredAct>>),
}

/// The actions of one answer, in order. In contracts it is the list of the actions.
pub struct Acts {
    pub(crate) alloc: Global,
    stored_acts: StoredActs,
}

impl Drop for Acts {
    fn drop(self) {
        let Acts {
            alloc: _,
            stored_acts: _,
        } = self;
    }
}

impl Model for Acts {
    ghost use Rattle.std.specs.Prelude.{List};
    ghost use Rattle.uvm_acts.specs.Acts.{acts_of};
    ghost use Rattle.uvm_acts.specs.declared.acts.Act.{Act};

    ghost Value = { List Act };

    ghost view = { λ a. acts_of a.stored_acts };
}

impl Acts {
    /// Creates an answer without actions.
    pub fn new(alloc: Global) -> Acts
        ensures { result ≡ [] }
    {
        Acts {
            alloc,
            stored_acts: StoredActs::None,
        }
    }

    /// Appends an action. Errors: out of memory. An error changes nothing.
    pub fn push(&mut self, act: Act) -> Result<(), AllocError>
        ensures ok { OnOk result (self.new ≡ self.old ++ act ∷ []) }
        ensures err { OnErr result (self.new ≡ self.old) }
    {
        let stored_act = StoredAct::new(self.alloc, act)?;
        match &mut self.stored_acts {
            StoredActs::None => self.stored_acts = StoredActs::One(stored_act),
            StoredActs::One(first) => {
                let both = Box::new(self.alloc, [first.share()?, stored_act])?;
                self.stored_acts = StoredActs::Two(both);
            }
            StoredActs::Two(both) => {
                let all = three(self.alloc, both, stored_act)?;
                self.stored_acts = StoredActs::Many(all);
            }
            StoredActs::Many(all) => all.push(stored_act)?,
        }
        Ok(())
    }

    /// Releases the unused capacity of the list of actions.
    pub fn shrink_to_fit(&mut self)
        ensures { self.new ≡ self.old }
    {
        if let StoredActs::Many(all) = &mut self.stored_acts {
            all.shrink_to_fit();
        }
    }

    /// Returns the number of actions.
    pub fn len(&self) -> usize
        ensures { result ≡ length self.now }
    {
        match &self.stored_acts {
            StoredActs::None => 0,
            StoredActs::One(_) => 1,
            StoredActs::Two(both) => both.as_slice().len(),
            StoredActs::Many(all) => all.len(),
        }
    }

    /// Returns whether there are no actions.
    pub fn is_empty(&self) -> bool
        ensures { result ≡ (length self.now == 0) }
    {
        self.len() == 0
    }

    /// Returns the action at a place, from 0; `None` if the place is not below the number of actions. Allocates no memory.
    pub fn get(&self, place: usize) -> Option<ActRef<'_>>
        ensures { result ≡ slice_get self.now place }
    {
        match self.stored_act(place) {
            Some(stored_act) => Some(stored_act.act()),
            None => None,
        }
    }

    /// Returns the stored form of the action at a place, from 0; `None` if the place is not below the number of actions.
    pub fn stored_act(&self, place: usize) -> Option<&StoredAct>
        ensures { option_copied result ≡ slice_get self.now place }
    {
        match &self.stored_acts {
            StoredActs::One(stored_act) if place == 0 => Some(stored_act),
            StoredActs::Two(both) => both.get(place),
            StoredActs::Many(all) => all.get(place),
            _ => None,
        }
    }

    /// Returns an iterator over the actions, in order. Allocates no memory.
    pub fn iter(&self) -> ActsIter<'_>
        ensures { result ≡ self.now }
    {
        ActsIter {
            left: match &self.stored_acts {
                StoredActs::None => &[],
                StoredActs::One(stored_act) => slice::from_ref(stored_act),
                StoredActs::Two(both) => both.as_slice(),
                StoredActs::Many(all) => all.as_slice(),
            },
        }
    }
}

/// An iterator over the actions of an answer, in order. In contracts it is the list of the actions that are left.
#[derive(Drop)]
pub struct ActsIter<'a> {
    left: &'a [StoredAct],
}

impl<'a> Model for ActsIter<'a> {
    ghost use Rattle.std.specs.Prelude.{List};
    ghost use Rattle.uvm_acts.specs.declared.acts.Act.{Act};

    ghost Value = { List Act };

    ghost view = { λ it. it.left.now };
}

impl<'a> Iterator for ActsIter<'a> {
    ghost use Rattle.std.specs.Prelude.{◌≡◌, length, Some, IfSome};
    ghost use Rattle.std.specs.Iterator.{YieldsFirst, UpTo, at_most, item_count};
    ghost use Rattle.std.specs.Iterator.SizeHint.{IsWithinCount};

    type Item = ActRef<'a>;

    ghost next_gives = { YieldsFirst (λ it. it) };

    ghost remaining = { item_count (λ it. it) };

    fn next(&mut self) -> Option<ActRef<'a>> {
        let (first, left) = self.left.split_first()?;
        self.left = left;
        Some(first.act())
    }

    fn size_hint(&self) -> (usize, Option<usize>)
        ensures lower { IsWithinCount result.0 (at_most (length self.now)) }
        ensures upper { IfSome result.1 (UpTo (at_most (length self.now))) }
        ensures exact { (result.0 ≡ length self.now) × (result.1 ≡ Some (length self.now)) }
    {
        let len = self.left.len();
        (len, Some(len))
    }
}

impl ExactSizeIterator for ActsIter<'_> {
    fn len(&self) -> usize {
        self.left.len()
    }
}

impl FusedIterator for ActsIter<'_> {}

/// Iterates over the actions, in order.
impl<'a> IntoIterator for &'a Acts {
    ghost use Rattle.std.specs.Prelude.{◌≡◌};

    type Item = ActRef<'a>;

    type IntoIter = ActsIter<'a>;

    ghost into_iter_gives = { λ acts it. it ≡ acts.now };

    fn into_iter(self) -> ActsIter<'a> {
        self.iter()
    }
}

// Returns a list of two actions and a third. Errors: out of memory.
fn three(
    alloc: Global,
    both: &[StoredAct; 2],
    third: StoredAct,
) -> Result<Box<Vec<StoredAct>>, AllocError>
    ensures { IfOk result (λ stored_acts. stored_acts.value.items ≡ both.now ++ third ∷ []) }
{
    let [first, second] = both;
    let mut stored_acts = Vec::with_capacity(alloc, 3)?;
    stored_acts.push(first.share()?)?;
    stored_acts.push(second.share()?)?;
    stored_acts.push(third)?;
    Ok(Box::new(alloc, stored_acts)?)
}
