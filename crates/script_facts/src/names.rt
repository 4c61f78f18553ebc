//! The words for the objects, the calls and the actions of a run.

use crate::facts::Facts;
use crate::lines::{List, Page};
use uvm_glob::Name;
use uvm_lines::{act_text, call_text};
use uvm_object::{Act, Call, Entry, Who};
use uvm_tlm::{End, Item, PortKind};
use uvm_tree::NodeId;

impl Facts<'_> {
    /// Appends the path of a component, or the name of a sequence, without its type.
    pub fn label(&self, who: &Who, page: &mut Page) {
        match self.core.who_text(self.alloc, who) {
            Ok(text) => page.bytes(text.as_slice()),
            Err(_) => page.fail(),
        }
    }

    /// Appends the path of a component, or the name of a sequence, and its type.
    pub fn who(&self, who: &Who, page: &mut Page) {
        self.label(who, page);
        match self.makes() {
            Ok(makes) => push_type(makes.type_of(who), page),
            Err(_) => page.fail(),
        }
    }

    /// Appends the path of a node.
    pub fn path(&self, node: NodeId, page: &mut Page) {
        self.label(&Who::Node(node), page);
    }

    /// Appends a call in backquotes.
    pub fn call(&self, call: &Call, page: &mut Page) {
        page.say("`");
        match call_text(self.alloc, call) {
            Ok(text) => page.bytes(text.as_slice()),
            Err(_) => page.fail(),
        }
        page.say("`");
    }

    /// Appends an action in backquotes.
    pub fn act(&self, act: &Act, page: &mut Page) {
        page.say("`");
        match act_text(self.alloc, act) {
            Ok(text) => page.bytes(text.as_slice()),
            Err(_) => page.fail(),
        }
        page.say("`");
    }

    /// Appends what an object did last: `its last call was CALL, at time TIME, answered by ACTIONS`.
    pub fn last_call(&self, who: &Who, page: &mut Page) {
        let place = match self.heard(who) {
            Ok(Some(place)) => place,
            Ok(None) => {
                page.say("it has received no call");
                return;
            }
            Err(_) => {
                page.fail();
                return;
            }
        };
        let Some(Entry::Heard { call, acts, .. }) = self.core.log().get(place) else {
            return;
        };
        page.say("its last call was ");
        self.call(&call.get(), page);
        page.say(", at time ");
        page.number(self.time_at(place));
        page.say(", answered by ");
        let mut list = List::new();
        for act in acts.iter() {
            if list.begin(page) {
                self.act(act.get(), page);
            }
        }
        list.end(page, "no actions");
    }

    /// Appends the names of the children of a node.
    pub fn children(&self, node: NodeId, page: &mut Page) {
        let mut list = List::new();
        for child in self.tree.children(node) {
            if let Some((_, name)) = self.tree.under(child) {
                if list.begin(page) {
                    page.name(&name);
                }
            }
        }
        list.end(page, "no children");
    }

    /// Appends what a node is.
    pub fn kind(&self, node: NodeId, page: &mut Page) {
        let (text, kind) = match self.wiring.end(node) {
            None => ("a component", None),
            Some(End::Port(kind)) => ("a port of kind ", Some(kind)),
            Some(End::Export(kind)) => ("an export of kind ", Some(kind)),
            Some(End::Imp) => ("an imp", None),
            Some(End::Fifo(0)) => ("a FIFO without a limit", None),
            Some(End::Fifo(size)) => {
                page.say("a FIFO of size ");
                page.number(u64::from(size));
                return;
            }
            Some(End::Sequencer) => ("a sequencer", None),
        };
        page.say(text);
        if let Some(kind) = kind {
            page.say(kind_word(kind));
        }
    }
}

// Appends a type in parentheses, if there is one.
fn push_type(type_name: Option<&Name>, page: &mut Page) {
    if let Some(type_name) = type_name {
        page.say(" (");
        page.name(type_name);
        page.say(")");
    }
}

/// Returns the word for a kind of port, as actions spell it.
pub fn kind_word(kind: PortKind) -> &'static str {
    match kind {
        PortKind::Put => "put",
        PortKind::Get => "get",
        PortKind::Analysis => "analysis",
        PortKind::Seq => "seq",
    }
}

/// Appends an item, as in the transcript.
pub fn push_item(item: &Item, page: &mut Page) {
    let [first, second, third, fourth] = item.0;
    page.say("[");
    page.signed(first);
    page.say(",");
    page.signed(second);
    page.say(",");
    page.signed(third);
    page.say(",");
    page.signed(fourth);
    page.say("]");
}
