//! Calls to an object, and the actions of its answers.

ghost use Rattle.std.specs.Prelude.{◌≡◌, true, false, IfOk};
ghost use Rattle.uvm_acts.specs.Acts.{node_of, is_sequencing};
ghost use Rattle.uvm_acts.specs.Copies.{holds_memory};

use std::alloc::AllocError;
use uvm_glob::{Glob, Name, Path};
use uvm_phase::Phase;
use uvm_report::{Actions, Report, Severity, Which};
use uvm_sequencer::{How, Mode};
use uvm_sequences::SeqId;
use uvm_tlm::{Item, PortKind};
use uvm_tree::NodeId;

/// The receiver of a call, which performs the actions of its answer.
#[derive(Clone, Copy, PartialEq, Eq, Hash)]
pub enum Who {
    /// The component at a node.
    Node(NodeId),
    /// A sequence (IEEE 1800.2-2020, Clause 14).
    Sequence {
        /// The sequencer that it was started on, its home.
        home: NodeId,
        /// Its number.
        id: SeqId,
    },
}

impl Who {
    /// Returns the node of a component; for a sequence that of its sequencer.
    pub fn node(&self) -> NodeId
        ensures { result ≡ node_of self.now }
    {
        match self {
            Who::Node(node) => *node,
            Who::Sequence { home, .. } => *home,
        }
    }

    /// Returns the same value.
    pub fn copy(&self) -> Who
        ensures { result ≡ self.now }
    {
        *self
    }
}

/// A call to an object.
#[derive(Clone, Copy, PartialEq, Eq)]
pub enum Call {
    /// The call of a component in a phase, once in each phase (IEEE 1800.2-2020, Clause 9).
    Phase(Phase),
    /// The value of a configuration field, or none if it has none (Annex C); follows `Act::Get`.
    Config {
        /// The field that was looked up.
        field: Name,
        /// Its value at the performer's path; none if no setting applies.
        value: Option<i64>,
    },
    /// The ticks of a wait have passed; follows `Act::Wait`.
    Wake {
        /// The tag that was given to `Act::Wait`.
        tag: u32,
    },
    /// An item that was put is now in the FIFO (Clause 12, put); follows `Act::Put`.
    Stored {
        /// The port through which it was put.
        port: Name,
    },
    /// Whether an item could be put immediately (Clause 12, try_put); follows `Act::TryPut`.
    TryStored {
        /// The port that was given to `Act::TryPut`.
        port: Name,
        /// Whether the item is in the FIFO.
        stored: bool,
    },
    /// An item was taken from the FIFO (Clause 12, get); follows `Act::Take`.
    Taken {
        /// The port through which it was taken.
        port: Name,
        /// The item.
        item: Item,
    },
    /// The item that could be taken immediately, or none (Clause 12, try_get); follows `Act::TryTake`.
    TryTaken {
        /// The port that was given to `Act::TryTake`.
        port: Name,
        /// The item; none if none could be taken.
        item: Option<Item>,
    },
    /// The first item of the FIFO, which stays there (Clause 12, peek); follows `Act::Peek`.
    Peeked {
        /// The port that was given to `Act::Peek`.
        port: Name,
        /// The item.
        item: Item,
    },
    /// An item was written to an imp of the component (Clause 12, write); follows each `Act::Write` that reaches the imp.
    Written {
        /// The imp.
        imp: Name,
        /// The item.
        item: Item,
    },
    /// The item for which the driver asked, when a sequence sends it, or none if a `Try` ends without one (Clause 15);
    /// follows `Act::Ask`.
    NextItem {
        /// The port that was given to `Act::Ask`.
        port: Name,
        /// The item; none if a `Try` found no candidate, or if the sequence granted to it ended before it sent.
        item: Option<Item>,
    },
    /// The sequence enters pre_start, its first step (Clause 14); follows `Act::Start`.
    PreStart,
    /// The sequence enters body, its second step (Clause 14); follows `Act::EndStep`.
    Body,
    /// The sequence enters post_start, its last step (Clause 14); follows `Act::EndStep`.
    PostStart,
    /// The sequence may send its item (Clause 15, wait_for_grant); follows `Act::Request`.
    Grant,
    /// The driver has completed the item of the sequence (Clause 15, wait_for_item_done); follows `Act::Send`.
    ItemDone {
        /// The response of the driver, if it gave one.
        response: Option<Item>,
    },
    /// The sequence now holds the sequencer (Clause 15); follows `Act::Lock` or `Act::Grab`.
    Held,
    /// A sequence that the object started has ended its last step; follows `Act::Start`. A sequence that ends with its
    /// phase causes no such call.
    Finished {
        /// The name of the sequence.
        name: Name,
        /// Its number.
        id: SeqId,
    },
}

/// What a component adds below itself.
#[derive(Clone, Copy, PartialEq, Eq)]
pub enum What {
    /// A sequencer (Clause 15).
    Sequencer {
        /// Its arbitration mode.
        mode: Mode,
    },
    /// A FIFO (Clause 12).
    Fifo {
        /// How many items it holds at most; 0 for no limit.
        size: u16,
    },
    /// A port, through which the component puts, takes, writes or asks for items (Clause 12).
    Port {
        /// What the port is for: put, get, analysis or seq.
        kind: PortKind,
    },
    /// An export, which passes requests on to what it is connected to (Clause 12).
    Export {
        /// What the export is for: put, get, analysis or seq.
        kind: PortKind,
    },
    /// An imp, at which the component receives what analysis ports write (Clause 12).
    Imp,
}

/// An action: what an object does in its answer to a call. The performer is the component or the sequence that answers.
/// Globs and paths are taken below the performer's path; for a sequence this is the path of its sequencer.
#[derive(Drop)]
pub enum Act {
    /// Creates a component as a child of the performer, by the factory, until build ends (Clause 8). The child then
    /// receives the call of each phase, build first.
    Create {
        /// The type; an override may replace it.
        type_name: Name,
        /// The child's name.
        name: Name,
    },
    /// Adds a sequencer, a FIFO, a port, an export or an imp as a child of the performer, until build ends.
    Add {
        /// The child's name.
        name: Name,
        /// What the child is.
        what: What,
    },
    /// Sets a configuration field at the paths that a glob matches (Annex C, uvm_config_db::set).
    Set {
        /// The paths, below the performer's.
        glob: Glob,
        /// The field.
        field: Name,
        /// Its value.
        value: i64,
    },
    /// Looks up a configuration field at the performer's path (Annex C, uvm_config_db::get). `Call::Config` follows
    /// with the value, or with none.
    Get {
        /// The field.
        field: Name,
    },
    /// Overrides a type by another of the same kind, at every path (Clause 8). Without `replace`, an earlier override
    /// of the type stays in force.
    OverrideType {
        /// The type that is replaced.
        original: Name,
        /// The type that replaces it.
        new: Name,
        /// Whether this override replaces an earlier one.
        replace: bool,
    },
    /// Overrides a type by another of the same kind, at the paths that a glob matches (Clause 8). This takes precedence
    /// over an override at every path.
    OverrideInst {
        /// The type that is replaced.
        original: Name,
        /// The type that replaces it.
        new: Name,
        /// The paths, below the performer's.
        glob: Glob,
    },
    /// Connects a port or an export to another end, until connect ends (Clause 12).
    Connect {
        /// The path of the port or export, below the performer's.
        from: Path,
        /// The path of the other end, below the performer's.
        to: Path,
    },
    /// Puts an item into the FIFO that a put port of the performer reaches, once the FIFO has capacity (Clause 12,
    /// put). `Call::Stored` follows.
    Put {
        /// The port.
        port: Name,
        /// The item.
        item: Item,
    },
    /// Puts an item into the FIFO that a put port of the performer reaches, if it has capacity and no put waits (Clause
    /// 12, try_put). `Call::TryStored` follows.
    TryPut {
        /// The port.
        port: Name,
        /// The item.
        item: Item,
    },
    /// Takes an item from the FIFO that a get port of the performer reaches, once it has one (Clause 12, get).
    /// `Call::Taken` follows with the item.
    Take {
        /// The port.
        port: Name,
    },
    /// Takes an item from the FIFO that a get port of the performer reaches, if it has one and no take or peek waits
    /// (Clause 12, try_get). `Call::TryTaken` follows.
    TryTake {
        /// The port.
        port: Name,
    },
    /// Reads the first item of the FIFO that a get port of the performer reaches, once it has one, and leaves it there
    /// (Clause 12, peek). `Call::Peeked` follows with the item.
    Peek {
        /// The port.
        port: Name,
    },
    /// Writes an item to each FIFO and imp that an analysis port of the performer reaches, without waiting (Clause 12,
    /// write). `Call::Written` follows at the component of each imp.
    Write {
        /// The port.
        port: Name,
        /// The item.
        item: Item,
    },
    /// Asks the sequencer that a seq port of the performer reaches for an item (Clause 15: get_next_item,
    /// try_next_item, get). `Call::NextItem` follows.
    Ask {
        /// The port.
        port: Name,
        /// Whether the driver waits, and whether the item counts as done when it comes.
        how: How,
    },
    /// Completes the item that came through a seq port of the performer (Clause 15, item_done). `Call::ItemDone`
    /// follows at the sequence that sent it, if this is still active.
    ItemDone {
        /// The port.
        port: Name,
        /// The response to the sequence, if any.
        response: Option<Item>,
    },
    /// Creates a sequence by the factory and starts it on a sequencer (Clauses 8 and 14). The sequence receives
    /// `Call::PreStart`. When it has finished, `Call::Finished` follows at the performer.
    Start {
        /// The type; an override may replace it.
        type_name: Name,
        /// The sequence's name.
        name: Name,
        /// The path of the sequencer, below the performer's; empty if a sequence starts its child.
        on: Path,
        /// Its priority, at least 1; by default that of the parent sequence, or 100 without a parent.
        priority: Option<u16>,
    },
    /// Requests to send an item of the sequence (Clause 15, wait_for_grant). `Call::Grant` follows when the sequencer
    /// grants it.
    Request {
        /// The priority of this request, at least 1; by default that of the sequence.
        priority: Option<u16>,
    },
    /// Requests to hold the sequencer, after all requests that wait (Clause 15, lock). `Call::Held` follows when it is
    /// granted.
    Lock,
    /// Requests to hold the sequencer, before all requests that wait (Clause 15, grab). `Call::Held` follows when it is
    /// granted.
    Grab,
    /// Releases the latest lock or grab that the sequence holds (Clause 15: unlock, ungrab).
    Unlock,
    /// Sends an item of the granted sequence to the driver (Clause 15, send_request). The driver receives
    /// `Call::NextItem`. When it has completed the item, `Call::ItemDone` follows at the sequence.
    Send {
        /// The item.
        item: Item,
    },
    /// Ends the current step of the sequence (Clause 14). `Call::Body` or `Call::PostStart` follows; after post_start
    /// the sequence has finished.
    EndStep,
    /// Issues a report at the performer's path (Clause 6).
    Report {
        /// The report.
        report: Report,
    },
    /// Sets the verbosity level for reports at the performer's path: INFO reports with a greater verbosity are dropped
    /// (Clause 6).
    Verbosity {
        /// The reports for which it is set.
        which: Which,
        /// The level.
        level: u16,
    },
    /// Sets what is done with reports at the performer's path: display, count, exit (Clause 6).
    Actions {
        /// The reports for which it is set.
        which: Which,
        /// What is done with them.
        actions: Actions,
    },
    /// Changes the severity of reports that are issued at the performer's path from then on (Clause 6).
    Severity {
        /// The severity with which they are issued.
        from: Severity,
        /// Their id; none for all ids.
        id: Option<Name>,
        /// The severity that they have instead.
        to: Severity,
    },
    /// Raises objections at the performer's node: the phase to which the action belongs does not end while one is
    /// raised (Clause 10.5).
    RaiseObjection {
        /// How many.
        count: u16,
    },
    /// Drops objections that were raised at the performer's node in the same phase (Clause 10.5).
    DropObjection {
        /// How many.
        count: u16,
    },
    /// Sets the drain time of the performer's node: when its objections drop to zero, this propagates to the parent
    /// only after that time (Clause 10.5).
    SetDrain {
        /// The drain time in ticks, at most 10^15.
        ticks: u64,
    },
    /// Waits without blocking: `Call::Wake` follows after these ticks.
    Wait {
        /// The number of ticks, at most 10^15.
        ticks: u64,
        /// A number that `Call::Wake` returns.
        tag: u32,
    },
}

impl Act {
    /// Returns an equal action. Errors: out of memory.
    pub fn copy(&self) -> Result<Act, AllocError>
        ensures { IfOk result (λ act. act ≡ self.now) }
    {
        Ok(match *self {
            Act::Set {
                ref glob,
                field,
                value,
            } => Act::Set {
                glob: glob.copy()?,
                field,
                value,
            },
            Act::OverrideInst {
                original,
                new,
                ref glob,
            } => Act::OverrideInst {
                original,
                new,
                glob: glob.copy()?,
            },
            Act::Connect { ref from, ref to } => Act::Connect {
                from: from.copy()?,
                to: to.copy()?,
            },
            Act::Start {
                type_name,
                name,
                ref on,
                priority,
            } => Act::Start {
                type_name,
                name,
                on: on.copy()?,
                priority,
            },
            Act::Report { ref report } => Act::Report {
                report: report.copy()?,
            },
            _ => self.plain_copy(),
        })
    }

    // Returns an equal action. Requires an action that owns no memory.
    fn plain_copy(&self) -> Act
        requires { holds_memory self.now ≡ false }
        ensures { result ≡ self.now }
    {
        match *self {
            Act::Create { type_name, name } => Act::Create { type_name, name },
            Act::Add { name, what } => Act::Add { name, what },
            Act::Get { field } => Act::Get { field },
            Act::Put { port, item } => Act::Put { port, item },
            Act::TryPut { port, item } => Act::TryPut { port, item },
            Act::Take { port } => Act::Take { port },
            Act::TryTake { port } => Act::TryTake { port },
            Act::Peek { port } => Act::Peek { port },
            Act::Write { port, item } => Act::Write { port, item },
            Act::OverrideType {
                original,
                new,
                replace,
            } => Act::OverrideType {
                original,
                new,
                replace,
            },
            Act::Verbosity { which, level } => Act::Verbosity { which, level },
            Act::Actions { which, actions } => Act::Actions { which, actions },
            Act::Severity { from, id, to } => Act::Severity { from, id, to },
            Act::RaiseObjection { count } => Act::RaiseObjection { count },
            Act::DropObjection { count } => Act::DropObjection { count },
            Act::SetDrain { ticks } => Act::SetDrain { ticks },
            Act::Wait { ticks, tag } => Act::Wait { ticks, tag },
            _ => self.sequencing_copy(),
        }
    }

    // Returns an equal action. Requires an action that owns no memory and concerns sequences.
    fn sequencing_copy(&self) -> Act
        requires plain { holds_memory self.now ≡ false }
        requires sequencing { is_sequencing self.now ≡ true }
        ensures { result ≡ self.now }
    {
        match *self {
            Act::Ask { port, how } => Act::Ask { port, how },
            Act::ItemDone { port, response } => Act::ItemDone { port, response },
            Act::Request { priority } => Act::Request { priority },
            Act::Lock => Act::Lock,
            Act::Grab => Act::Grab,
            Act::Unlock => Act::Unlock,
            Act::Send { item } => Act::Send { item },
            Act::EndStep => Act::EndStep,
            _ => unreachable!(),
        }
    }
}
