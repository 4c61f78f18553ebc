//! The objects that wait at FIFOs or drive sequencers, and the ports that they use.

use uvm_glob::Name;
use uvm_object::Who;
use uvm_phase::Phase;
use uvm_tlm::InPhase;
use uvm_tree::NodeId;

/// A port and the FIFO that is reached through it (IEEE 1800.2-2020, Clause 12).
#[derive(Clone, Copy, PartialEq, Eq)]
pub struct FifoPort {
    /// The node of the port.
    pub port: NodeId,
    /// The node of the FIFO.
    pub fifo: NodeId,
}

/// The requester of a put, a take or a peek, with the port and the phase of the request.
#[derive(Clone, Copy, PartialEq, Eq)]
pub struct Requester {
    /// The place in the log of the requesting action: the number of entries before it.
    pub place: u64,
    /// The component or sequence that made the request.
    pub who: Who,
    /// The name of the port through which the request was made.
    pub port: Name,
    /// The phase in which the request was made. The wait ends with this phase.
    pub phase: Phase,
}

impl InPhase for Requester {
    ghost use Rattle.uvm_phase.specs.Phases.{phase_number};

    ghost phase_of = { λ requester. phase_number requester.phase };

    fn phase_number(&self) -> u8 {
        self.phase.number()
    }
}

/// The driver of a sequencer: the object that last asked for an item there, and its port (IEEE 1800.2-2020, Clause 15).
#[derive(Clone, Copy, PartialEq, Eq)]
pub struct DriverPort {
    /// The component or sequence that asked for an item.
    pub who: Who,
    /// The name of the port.
    pub name: Name,
    /// The phase in which the driver asked. The request ends with this phase.
    pub phase: Option<Phase>,
}
