//! The kinds of ports and exports, and the ends that a connection joins.

ghost use Rattle.std.specs.Prelude.{◌≡◌};
ghost use Rattle.uvm_tlm.specs.Ends.{accepts, agrees, is_port, is_target, port_kind};

/// The kind of a port or an export: what passes through it (IEEE 1800.2-2020, 12.2).
#[derive(Clone, Copy, PartialEq, Eq)]
pub enum PortKind {
    /// Items that the port puts into a FIFO.
    Put,
    /// Items that the port takes from a FIFO or peeks at there.
    Get,
    /// Items that the port writes to each of its targets.
    Analysis,
    /// Items that the sequences of a sequencer send.
    Seq,
}

/// An end of a connection: what was added to the wiring at a node.
#[derive(Clone, Copy, PartialEq, Eq)]
pub enum End {
    /// A port of this kind, which sends its requests to what it is connected to.
    Port(PortKind),
    /// An export of this kind, which passes requests on to what it is connected to.
    Export(PortKind),
    /// An analysis imp, which receives the items that are written to it.
    Imp,
    /// A FIFO that holds up to this many items; 0 for an unbounded FIFO.
    Fifo(u16),
    /// A sequencer.
    Sequencer,
}

impl End {
    // Returns whether a connection of this kind may end here.
    fn accepts(self, kind: PortKind) -> bool
        ensures { result ≡ accepts self kind }
    {
        match self {
            End::Port(own) | End::Export(own) => own == kind,
            End::Imp => kind == PortKind::Analysis,
            End::Sequencer => kind == PortKind::Seq,
            End::Fifo(size) => match kind {
                PortKind::Put | PortKind::Get => true,
                PortKind::Analysis => size == 0,
                PortKind::Seq => false,
            },
        }
    }

    // Returns whether a connection may go from this end to another.
    pub(crate) fn agrees(self, to: End) -> bool
        ensures { result ≡ agrees self to }
    {
        match self {
            End::Port(kind) => to.accepts(kind),
            End::Export(kind) => !to.is_port() && to.accepts(kind),
            End::Imp | End::Fifo(_) | End::Sequencer => false,
        }
    }

    fn is_port(self) -> bool
        ensures { result ≡ is_port self }
    {
        matches!(self, End::Port(_))
    }

    // Returns whether this end is a target: an imp, a FIFO or a sequencer.
    pub(crate) fn is_target(self) -> bool
        ensures { result ≡ is_target self }
    {
        matches!(self, End::Imp | End::Fifo(_) | End::Sequencer)
    }

    // Returns the kind of a port; `None` for any other end.
    pub(crate) fn port_kind(self) -> Option<PortKind>
        ensures { result ≡ port_kind self }
    {
        match self {
            End::Port(kind) => Some(kind),
            _ => None,
        }
    }
}
