//! The fatal reports of the kernel.

ghost use Rattle.std.specs.Prelude.{◌≡◌, IfOk};
ghost use Rattle.uvm_object.specs.Fatals.{id_of, text_of, fatal_report};

use std::alloc::{AllocError, Global};
use uvm_glob::Name;
use uvm_report::{Report, Severity, Text};

/// A fatal report of the kernel: why it rejects an action, or why it ends the run.
#[derive(Clone, Copy, PartialEq, Eq)]
pub enum Fatal {
    /// ILLACT: a component performs an action that only sequences may perform, or the reverse.
    NotOpen,
    /// ILLCRT: a child is created or added after build has ended.
    CreatedAfterBuild,
    /// ACTLIM: an answer has more than 64 actions; none of them is performed.
    TooManyActs,
    /// INVTYP: a type is not declared or is of the wrong kind, or an override is between a component type and a
    /// sequence type.
    InvalidType,
    /// CLDEXT: the performer already has a child of that name.
    ChildTaken,
    /// TREELIM: the tree would have more than 4,096 nodes below the root, or a new path more than 32 names or 1,024
    /// bytes.
    TreeLimit,
    /// OVRDLOOP: the overrides of the type form a loop.
    OverrideLoop,
    /// FCTTYP: the bench supplies no object for the type.
    NoObject,
    /// CFGFULL: a configuration field is set after 65,536 settings, those of the script included.
    TooManySettings,
    /// CONNERR: a connection is made after connect has ended.
    ConnectedTooLate,
    /// CONNERR: a path of a connection is not that of a port, an export, an imp, a FIFO or a sequencer.
    UnknownNode,
    /// CONNERR: the kinds of the two ends differ, or no connection is allowed from the first to the second.
    KindsDiffer,
    /// CONNERR: at the end of connect, a put, get or seq port reaches no FIFO or sequencer.
    TooFewConnections,
    /// CONNERR: at the end of connect, a put, get or seq port reaches several targets, or another port already drives
    /// the sequencer that it reaches.
    TooManyConnections,
    /// NOPORT: the performer has no correctly connected port of that name and of the kind that the action needs.
    NoPort,
    /// NOSQR: a sequence is started at a path that is not a sequencer's.
    NoSequencer,
    /// SQRERR: the port does not drive the sequencer. (The kernel reports NOPORT instead.)
    NoDriver,
    /// SQRERR: the driver asks again while it waits for an item or has one, or the sequence repeats a request that is
    /// still open.
    AskedTwice,
    /// SQRERR: the driver completes an item, but has none.
    NothingOut,
    /// SQRERR: the sequence sends an item without a grant, or has already sent the item of its grant.
    NotGranted,
    /// SQRERR: the sequence unlocks the sequencer, but holds no lock.
    NotHeld,
    /// NOTTASK: the action is only for phases that take time (run and the run-time phases), and belongs to another
    /// phase.
    OutsideTask,
    /// OBJTN_ZERO: more objections are dropped than are raised at the performer's node in this phase.
    ObjectionBelowZero,
    /// ACTRNG: a priority is 0, or a wait or a drain time has more than 10^15 ticks.
    OutOfRange,
    /// PH_TIMEOUT: an objection keeps a phase from its end, and the next event is due after the time limit.
    Timeout,
    /// STALL: an objection keeps a phase from its end, and no event is due.
    Stall,
}

impl Fatal {
    /// Returns the id of the report, for example `ILLCRT`.
    pub fn id(self) -> &'static str
        ensures { result.now ≡ id_of self }
    {
        match self {
            Fatal::NotOpen => "ILLACT",
            Fatal::CreatedAfterBuild => "ILLCRT",
            Fatal::TooManyActs => "ACTLIM",
            Fatal::InvalidType => "INVTYP",
            Fatal::ChildTaken => "CLDEXT",
            Fatal::TreeLimit => "TREELIM",
            Fatal::OverrideLoop => "OVRDLOOP",
            Fatal::NoObject => "FCTTYP",
            Fatal::TooManySettings => "CFGFULL",
            Fatal::ConnectedTooLate
            | Fatal::UnknownNode
            | Fatal::KindsDiffer
            | Fatal::TooFewConnections
            | Fatal::TooManyConnections => "CONNERR",
            Fatal::NoPort => "NOPORT",
            Fatal::NoSequencer => "NOSQR",
            Fatal::NoDriver
            | Fatal::AskedTwice
            | Fatal::NothingOut
            | Fatal::NotGranted
            | Fatal::NotHeld => "SQRERR",
            Fatal::OutsideTask => "NOTTASK",
            Fatal::ObjectionBelowZero => "OBJTN_ZERO",
            Fatal::OutOfRange => "ACTRNG",
            Fatal::Timeout => "PH_TIMEOUT",
            Fatal::Stall => "STALL",
        }
    }

    /// Returns the text of the report.
    pub fn text(self) -> &'static str
        ensures { result.now ≡ text_of self }
    {
        match self {
            Fatal::NotOpen => "act not open to this object",
            Fatal::CreatedAfterBuild => "created after build",
            Fatal::TooManyActs => "more than 64 acts",
            Fatal::InvalidType => "type unknown or of another kind",
            Fatal::ChildTaken => "child name taken",
            Fatal::TreeLimit => "tree limit reached",
            Fatal::OverrideLoop => "override loop",
            Fatal::NoObject => "no object supplied",
            Fatal::TooManySettings => "too many settings",
            Fatal::ConnectedTooLate => "connected too late",
            Fatal::UnknownNode => "unknown node",
            Fatal::KindsDiffer => "kinds differ",
            Fatal::TooFewConnections => "too few connections",
            Fatal::TooManyConnections => "too many connections",
            Fatal::NoPort => "no such port",
            Fatal::NoSequencer => "no such sequencer",
            Fatal::NoDriver => "no driver",
            Fatal::AskedTwice => "asked twice",
            Fatal::NothingOut => "nothing out",
            Fatal::NotGranted => "not granted",
            Fatal::NotHeld => "not held",
            Fatal::OutsideTask => "act outside a task phase",
            Fatal::ObjectionBelowZero => "objection dropped below zero",
            Fatal::OutOfRange => "value out of range",
            Fatal::Timeout => "time limit passed",
            Fatal::Stall => "objection stands and nothing is due",
        }
    }

    /// Returns the report, of severity FATAL. Errors: out of memory.
    #[tactic(auto, unfolding(uvm_glob::specs::Names::name_fault))]
    pub fn report(self, alloc: Global) -> Result<Report, AllocError>
        ensures { IfOk result (λ report. report ≡ fatal_report self) }
    {
        let Ok(id) = Name::new(self.id().as_bytes()) else {
            unreachable!()
        };
        match Text::new(alloc, self.text().as_bytes()) {
            Ok(text) => Ok(Report {
                severity: Severity::Fatal,
                id,
                text,
                verbosity: 0,
            }),
            Err(_) => Err(AllocError),
        }
    }
}
