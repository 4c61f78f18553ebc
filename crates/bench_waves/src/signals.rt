//! What the variables of a dump show, and which variables there are.

use std::alloc::{AllocError, Global};
use uvm_report::Severity;
use uvm_tree::{NodeId, NodeKind, Tree};

// What a variable shows.
#[derive(Clone, Copy, PartialEq, Eq)]
pub(crate) enum Signal {
    // The active phase that began last.
    Phase,
    // The objections that prevent the end of this phase.
    Objections,
    // The reports that were counted with a severity.
    Reports(Severity),
    // The objections to the end of this phase that a component has raised itself.
    Raised(NodeId),
    // The last call that a component received.
    Call(NodeId),
    // The items in a FIFO.
    Level(NodeId),
    // The puts, takes and peeks that wait at a FIFO, or the requests at a sequencer.
    Waiting(NodeId),
    // The sequence to which a sequencer has granted the next item, or whose item its driver has.
    Granted(NodeId),
    // The sequence that locked or grabbed a sequencer last, and holds it.
    Holder(NodeId),
    // The last item that a sequence sent at a sequencer.
    Item(NodeId),
}

impl Signal {
    // Returns the name of the variable.
    pub(crate) fn name(self) -> &'static str {
        match self {
            Signal::Phase => "phase",
            Signal::Objections => "objections",
            Signal::Reports(severity) => match severity {
                Severity::Info => "infos",
                Severity::Warning => "warnings",
                Severity::Error => "errors",
                Severity::Fatal => "fatals",
            },
            Signal::Raised(_) => "raised",
            Signal::Call(_) => "call",
            Signal::Level(_) => "level",
            Signal::Waiting(_) => "waiting",
            Signal::Granted(_) => "granted",
            Signal::Holder(_) => "holder",
            Signal::Item(_) => "item",
        }
    }

    // Returns the node in whose scope the variable is; `None` for the scope of the run.
    pub(crate) fn node(self) -> Option<NodeId> {
        match self {
            Signal::Phase | Signal::Objections | Signal::Reports(_) => None,
            Signal::Raised(node)
            | Signal::Call(node)
            | Signal::Level(node)
            | Signal::Waiting(node)
            | Signal::Granted(node)
            | Signal::Holder(node)
            | Signal::Item(node) => Some(node),
        }
    }

    // Returns whether the values are texts, and not numbers.
    pub(crate) fn is_text(self) -> bool {
        matches!(
            self,
            Signal::Phase
                | Signal::Call(_)
                | Signal::Granted(_)
                | Signal::Holder(_)
                | Signal::Item(_)
        )
    }
}

// The variables of the run itself.
pub(crate) const OF_RUN: [Signal; 6] = [
    Signal::Phase,
    Signal::Objections,
    Signal::Reports(Severity::Info),
    Signal::Reports(Severity::Warning),
    Signal::Reports(Severity::Error),
    Signal::Reports(Severity::Fatal),
];

// Returns the variables of a dump: those of the run, and then those of the nodes in path order. Errors: out of memory.
pub(crate) fn signals_of(alloc: Global, tree: &Tree) -> Result<Vec<Signal>, AllocError> {
    let mut signals = Vec::new(alloc);
    for signal in OF_RUN {
        signals.push(signal)?;
    }
    let mut last = None;
    for _place in 0..Tree::MAX_NODES {
        last = tree.next_down(last);
        match last {
            Some(node) => push_node(tree, node, &mut signals)?,
            None => break,
        }
    }
    Ok(signals)
}

// Appends the variables of a node. Errors: out of memory.
fn push_node(tree: &Tree, node: NodeId, signals: &mut Vec<Signal>) -> Result<(), AllocError> {
    match tree.kind(node) {
        Some(NodeKind::Component) => {
            signals.push(Signal::Raised(node))?;
            signals.push(Signal::Call(node))?;
        }
        Some(NodeKind::Fifo) => {
            signals.push(Signal::Level(node))?;
            signals.push(Signal::Waiting(node))?;
        }
        Some(NodeKind::Sequencer) => {
            signals.push(Signal::Waiting(node))?;
            signals.push(Signal::Granted(node))?;
            signals.push(Signal::Holder(node))?;
            signals.push(Signal::Item(node))?;
        }
        _ => {}
    }
    Ok(())
}
