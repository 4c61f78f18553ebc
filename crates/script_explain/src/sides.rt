//! Who puts into a FIFO, and who takes from it.

use script_facts::{Facts, Page};
use uvm_object::Who;
use uvm_tlm::PortKind;
use uvm_tree::NodeId;

// A side of a FIFO.
#[derive(Clone, Copy)]
pub(crate) enum Side {
    // Through put and analysis ports.
    Put,
    // Through get ports.
    Get,
}

impl Side {
    // Returns whether a port of this kind is at the side.
    fn has(self, kind: PortKind) -> bool {
        match self {
            Side::Put => matches!(kind, PortKind::Put | PortKind::Analysis),
            Side::Get => matches!(kind, PortKind::Get),
        }
    }
}

// Appends a sentence for each component at a side of a FIFO, and if there is none a sentence that says so.
pub(crate) fn push_users(facts: &Facts<'_>, fifo: NodeId, side: Side, page: &mut Page) {
    let mut has_user = false;
    for node in &facts.nodes {
        let is_there = match facts.wiring.port_kind(*node) {
            Some(kind) => side.has(kind) && facts.wiring.resolve(*node).contains(&fifo),
            None => false,
        };
        if is_there {
            has_user = true;
            push_user(facts, *node, side, page);
        }
    }
    if !has_user {
        page.say(match side {
            Side::Put => " No put port reaches it.",
            Side::Get => " No get port reaches it.",
        });
    }
}

// Appends a sentence for the component of a port at a side of a FIFO.
fn push_user(facts: &Facts<'_>, node: NodeId, side: Side, page: &mut Page) {
    let Some((parent, port)) = facts.tree.under(node) else {
        return;
    };
    let who = Who::Node(parent);
    page.say(" ");
    facts.who(&who, page);
    page.say(match side {
        Side::Put => " puts into it through ",
        Side::Get => " takes from it through ",
    });
    page.name(&port);
    page.say("; ");
    facts.last_call(&who, page);
    page.say(".");
}
