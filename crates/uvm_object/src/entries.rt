//! The entries of the log.

ghost use Rattle.std.specs.Prelude.{◌≡◌, IfOk, IsOk, None};
ghost use Rattle.uvm_object.specs.declared.entries.Outcome.TheVariants.{Done, Made, Started, Value, Stored, Taken, Waits, Finished, Refused};
ghost use Rattle.uvm_object.specs.declared.entries.Entry.TheVariants.{Heard};

use crate::fatals::Fatal;
use std::alloc::{AllocError, Global};
use std::marker::Model;
use uvm_acts::{Acts, Call, StoredAct, StoredCall, Who};
use uvm_glob::{Name, ShortName};
use uvm_phase::{Cause, Phase};
use uvm_sequences::SeqId;
use uvm_tlm::{Item, MoveKind};
use uvm_tree::NodeId;

/// The outcome of an action.
#[derive(Clone, Copy)]
pub enum Outcome {
    /// The action was performed.
    Done,
    /// The factory created an object of this type.
    Made(Name),
    /// The sequence with this number was started.
    Started(SeqId),
    /// The result of `Act::Get`: the value of the field; none if no setting applies.
    Value(Option<i64>),
    /// The result of `Act::TryPut`: whether the item is in the FIFO.
    Stored(bool),
    /// The result of `Act::TryTake`: the item; none if none could be taken.
    Taken(Option<Item>),
    /// The result of `Act::Ask` with `How::Try`: whether there is a candidate, for which the driver then waits.
    Waits(bool),
    /// The sequence has ended its last step.
    Finished,
    /// The action was rejected with this fatal report.
    Refused(Fatal),
}

/// The reason why a run ended.
#[derive(Clone, Copy, PartialEq, Eq)]
pub enum Reason {
    /// All phases have ended.
    Finished,
    /// A report had the action exit.
    Exit,
    /// The creation of the test was rejected.
    NoTest,
    /// An objection kept a phase from its end, and no event was due.
    Stall,
    /// The next event was due after the time limit.
    Timeout,
}

/// The reason why a call or the end of a drain was due, and its phase. This is the phase of the action that caused it, or that of the ask, the
/// put or the sequence for which the action was performed.
#[derive(Clone, Copy, PartialEq, Eq)]
pub struct Origin {
    /// The cause of the call, or of the end of the drain.
    pub cause: Cause,
    /// Its phase (IEEE 1800.2-2020, Clause 9).
    pub phase: Phase,
}

// An origin or none, in numbers of at most 32 bits each.
#[derive(Drop)]
enum CompactOrigin {
    /// No origin: the call is a `Call::Phase`.
    None,
    /// The origin of another call.
    Caused {
        /// The phase of the call.
        phase: Phase,
        /// The place of the entry that caused the call, from 0.
        place: u32,
        /// The number of the call among those of that entry, from 0.
        number: u32,
    },
}

/// The origin of the call of an entry, or none. In contracts it is the origin, if there is one.
#[derive(Drop)]
pub struct LoggedOrigin {
    compact: CompactOrigin,
}

impl Model for LoggedOrigin {
    ghost use Rattle.std.specs.Prelude.{Option};
    ghost use Rattle.uvm_object.specs.declared.entries.Origin.{Origin};
    ghost use Rattle.uvm_object.specs.Origins.{held_origin};

    ghost Value = { Option Origin };

    ghost view = { λ l. held_origin l.compact };
}

impl LoggedOrigin {
    // Creates the stored form of an origin, or of none.
    fn new(origin: Option<Origin>) -> LoggedOrigin
        ensures { result ≡ origin }
    {
        let compact = match origin {
            Some(Origin { cause, phase }) => CompactOrigin::Caused {
                phase,
                place: cause.place,
                number: cause.number,
            },
            None => CompactOrigin::None,
        };
        LoggedOrigin { compact }
    }

    /// Returns the origin; `None` for a `Call::Phase`.
    pub fn get(&self) -> Option<Origin>
        ensures { result ≡ self.now }
    {
        match &self.compact {
            CompactOrigin::None => None,
            CompactOrigin::Caused {
                phase,
                place,
                number,
            } => Some(Origin {
                cause: Cause {
                    place: *place,
                    number: *number,
                },
                phase: *phase,
            }),
        }
    }
}

// An outcome in two machine words. Names and items are stored on the heap, and an absent value or item is a variant of its own.
#[derive(Drop)]
enum CompactOutcome {
    /// The action was performed.
    Done,
    /// The factory created an object of this type.
    Made(Box<Name>),
    /// The sequence with this number was started.
    Started(SeqId),
    /// The result of `Act::Get` if no setting applies.
    NoValue,
    /// The value that `Act::Get` found.
    Value(i64),
    /// The result of `Act::TryPut`: whether the item is in the FIFO.
    Stored(bool),
    /// The result of `Act::TryTake` if no item could be taken.
    NoItem,
    /// The item that `Act::TryTake` took.
    Taken(Box<Item>),
    /// The result of `Act::Ask` with `How::Try`: whether there is a candidate, for which the driver then waits.
    Waits(bool),
    /// The sequence has ended its last step.
    Finished,
    /// The action was rejected with this fatal report.
    Refused(Fatal),
}

/// The stored form of the outcome of an entry. In contracts it is the outcome.
pub struct LoggedOutcome {
    compact: CompactOutcome,
}

// (Implemented by hand, so that dependent crates need no proof about the drop of its field.)
impl Drop for LoggedOutcome {
    fn drop(self) {
        let LoggedOutcome { compact: _ } = self;
    }
}

impl Model for LoggedOutcome {
    ghost use Rattle.uvm_object.specs.declared.entries.Outcome.{Outcome};
    ghost use Rattle.uvm_object.specs.Outcomes.{outcome_of};

    ghost Value = { Outcome };

    ghost view = { λ l. outcome_of l.compact };
}

impl LoggedOutcome {
    /// Creates the outcome `Done`.
    pub fn done() -> LoggedOutcome
        ensures { result ≡ Done }
    {
        LoggedOutcome {
            compact: CompactOutcome::Done,
        }
    }

    /// Creates the outcome `Made`. It stores the type's name in `room`, whose content is replaced, and allocates no memory.
    pub fn made(mut room: Box<Name>, type_name: Name) -> LoggedOutcome
        ensures { result ≡ Made type_name }
    {
        *room = type_name;
        LoggedOutcome {
            compact: CompactOutcome::Made(room),
        }
    }

    /// Creates the outcome `Started`.
    pub fn started(id: SeqId) -> LoggedOutcome
        ensures { result ≡ Started id }
    {
        LoggedOutcome {
            compact: CompactOutcome::Started(id),
        }
    }

    /// Creates the outcome `Value`.
    pub fn value(value: Option<i64>) -> LoggedOutcome
        ensures { result ≡ Value value }
    {
        let compact = match value {
            Some(value) => CompactOutcome::Value(value),
            None => CompactOutcome::NoValue,
        };
        LoggedOutcome { compact }
    }

    /// Creates the outcome `Stored`.
    pub fn stored(stored: bool) -> LoggedOutcome
        ensures { result ≡ Stored stored }
    {
        LoggedOutcome {
            compact: CompactOutcome::Stored(stored),
        }
    }

    /// Creates the outcome `Taken`. Errors: out of memory, only if there is an item.
    pub fn taken(alloc: Global, item: Option<Item>) -> Result<LoggedOutcome, AllocError>
        ensures ok { IfOk result (λ outcome. outcome ≡ Taken item) }
        ensures none { item ≡ None → IsOk result }
    {
        let compact = match item {
            Some(item) => CompactOutcome::Taken(Box::new(alloc, item)?),
            None => CompactOutcome::NoItem,
        };
        Ok(LoggedOutcome { compact })
    }

    /// Creates the outcome `Waits`.
    pub fn waits(waits: bool) -> LoggedOutcome
        ensures { result ≡ Waits waits }
    {
        LoggedOutcome {
            compact: CompactOutcome::Waits(waits),
        }
    }

    /// Creates the outcome `Finished`.
    pub fn finished() -> LoggedOutcome
        ensures { result ≡ Finished }
    {
        LoggedOutcome {
            compact: CompactOutcome::Finished,
        }
    }

    /// Creates the outcome `Refused`.
    pub fn refused(fatal: Fatal) -> LoggedOutcome
        ensures { result ≡ Refused fatal }
    {
        LoggedOutcome {
            compact: CompactOutcome::Refused(fatal),
        }
    }

    /// Returns the outcome.
    pub fn get(&self) -> Outcome
        ensures { result ≡ self.now }
    {
        match &self.compact {
            CompactOutcome::Done => Outcome::Done,
            CompactOutcome::Made(type_name) => Outcome::Made(**type_name),
            CompactOutcome::Started(id) => Outcome::Started(*id),
            CompactOutcome::NoValue => Outcome::Value(None),
            CompactOutcome::Value(value) => Outcome::Value(Some(*value)),
            CompactOutcome::Stored(stored) => Outcome::Stored(*stored),
            CompactOutcome::NoItem => Outcome::Taken(None),
            CompactOutcome::Taken(item) => Outcome::Taken(Some(**item)),
            CompactOutcome::Waits(waits) => Outcome::Waits(*waits),
            CompactOutcome::Finished => Outcome::Finished,
            CompactOutcome::Refused(fatal) => Outcome::Refused(*fatal),
        }
    }
}

/// The completion of a put, a take or a peek at a FIFO: a transfer.
#[derive(Clone, Copy, PartialEq, Eq)]
pub struct Passage {
    /// What the transfer does: an item goes in, goes out, or is shown and stays.
    pub kind: MoveKind,
    /// The requester.
    pub who: Who,
    /// The port of the request.
    pub port: Name,
    /// The item.
    pub item: Item,
    /// The place of the entry of the action that requested the transfer, from 0.
    pub request: u64,
    /// The phase of the request.
    pub phase: Phase,
}

// A transfer through a port with a short name.
#[derive(Drop)]
struct ShortPassage {
    kind: MoveKind,
    phase: Phase,
    port: ShortName,
    who: Who,
    request: u64,
    item: Item,
}

// A transfer, stored on the heap.
#[derive(Drop)]
enum CompactPassage {
    /// A transfer through a port with a short name.
    Short(Box<ShortPassage>),
    /// Any transfer.
    Whole(Box<Passage>),
}

/// The stored form of the transfer of an entry. In contracts it is the transfer.
pub struct LoggedPassage {
    compact: CompactPassage,
}

// (Implemented by hand, so that dependent crates need no proof about the drop of its field.)
impl Drop for LoggedPassage {
    fn drop(self) {
        let LoggedPassage { compact: _ } = self;
    }
}

impl Model for LoggedPassage {
    ghost use Rattle.uvm_object.specs.declared.entries.Passage.{Passage};
    ghost use Rattle.uvm_object.specs.Passages.{passage_of};

    ghost Value = { Passage };

    ghost view = { λ l. passage_of l.compact };
}

impl LoggedPassage {
    /// Creates the stored form of a transfer. Errors: out of memory.
    pub fn new(alloc: Global, passage: Passage) -> Result<LoggedPassage, AllocError>
        ensures { IfOk result (λ logged. logged ≡ passage) }
    {
        let compact = match ShortName::new(&passage.port) {
            Some(port) => CompactPassage::Short(Box::new(
                alloc,
                ShortPassage {
                    kind: passage.kind,
                    phase: passage.phase,
                    port,
                    who: passage.who,
                    request: passage.request,
                    item: passage.item,
                },
            )?),
            None => CompactPassage::Whole(Box::new(alloc, passage)?),
        };
        Ok(LoggedPassage { compact })
    }

    /// Returns the transfer.
    pub fn get(&self) -> Passage
        ensures { result ≡ self.now }
    {
        match &self.compact {
            CompactPassage::Short(short) => Passage {
                kind: short.kind,
                who: short.who,
                port: short.port.name(),
                item: short.item,
                request: short.request,
                phase: short.phase,
            },
            CompactPassage::Whole(passage) => **passage,
        }
    }
}

/// A sequence that was granted, and the random number that decided it.
#[derive(Clone, Copy, PartialEq, Eq)]
pub struct Grant {
    /// The sequence.
    pub id: SeqId,
    /// The random number that decided; none if none was consumed.
    pub word: Option<u64>,
}

/// An entry of the log. Its place is the number of the entries before it.
#[derive(Drop)]
pub enum Entry {
    /// A phase begins.
    Begin(Phase),
    /// A phase ends.
    End(Phase),
    /// Time advances to this time, in ticks.
    Time(u64),
    /// An object received a call and answered it. A `Call::Phase` has no origin; every other call has one.
    Heard {
        /// The receiver of the call.
        who: Who,
        /// The reason why the call was due, and its phase.
        origin: LoggedOrigin,
        /// The call.
        call: StoredCall,
        /// The answer.
        acts: Acts,
    },
    /// An action of the last answer was performed or rejected.
    Did {
        /// The performer.
        who: Who,
        /// The outcome of the action.
        outcome: LoggedOutcome,
        /// The action.
        act: StoredAct,
    },
    /// A sequence receives its lock or grab: from now on it holds the sequencer (Clause 15).
    Locked {
        /// The sequencer.
        sequencer: NodeId,
        /// The sequence.
        id: SeqId,
    },
    /// The request of a sequence is granted: it may send its item (Clause 15).
    Granted {
        /// The sequencer.
        sequencer: NodeId,
        /// The sequence, and the random number that decided.
        grant: Grant,
    },
    /// A put, a take or a peek at a FIFO completes (Clause 12).
    Passed {
        /// The FIFO.
        fifo: NodeId,
        /// The transfer.
        passage: LoggedPassage,
    },
    /// The drain time of a node ends: the drop that it delayed propagates to the parent (Clause 10.5).
    Drained {
        /// The node.
        node: NodeId,
        /// The reason why the drain began, and its phase.
        origin: Origin,
    },
    /// The kernel issues a fatal report at a node.
    Note {
        /// The report.
        fatal: Fatal,
        /// The node.
        node: NodeId,
    },
    /// The run ends for this reason: no entry follows.
    Over(Reason),
}

impl Entry {
    /// Creates the entry of a call and its answer, and releases the unused capacity of the answer. Errors: out of memory, only for a call
    /// with an item or a name.
    pub fn heard(
        alloc: Global,
        who: Who,
        call: &Call,
        origin: Option<Origin>,
        mut acts: Acts,
    ) -> Result<Entry, AllocError>
        ensures { IfOk result (λ entry. entry ≡ Heard who origin call.now acts) }
    {
        acts.shrink_to_fit();
        Ok(Entry::Heard {
            who,
            origin: LoggedOrigin::new(origin),
            call: StoredCall::new(alloc, call)?,
            acts,
        })
    }
}
