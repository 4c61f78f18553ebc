//! Why an action was rejected.

use script_facts::{Facts, List, Nearest, Page, kind_word};
use std::str::from_utf8;
use uvm_factory::Kind;
use uvm_glob::{Name, Path};
use uvm_object::{Act, Entry, Fatal, Outcome, Who};
use uvm_sequencer::Driver;
use uvm_tlm::PortKind;
use uvm_tree::NodeId;

// Appends the last action, which was rejected, and why.
pub(crate) fn push_refusal(facts: &Facts<'_>, page: &mut Page) {
    let Some(last) = facts.last_action() else {
        return;
    };
    let Some(Entry::Did { who, outcome, act }) = facts.core.log().get(last.place) else {
        return;
    };
    let Outcome::Refused(fatal) = outcome.get() else {
        return;
    };
    let stored = act.act();
    let act = stored.get();
    facts.act(act, page);
    page.say(" of ");
    facts.who(who, page);
    if let Some(place) = last.heard {
        push_answer(facts, place, last.number, page);
    }
    page.say(" was rejected: ");
    page.say(fatal.id());
    page.say(", ");
    page.say(fatal.text());
    page.say(".\n");
    push_why(facts, who, act, fatal, page);
}

// Appends which action of which answer it was.
fn push_answer(facts: &Facts<'_>, place: usize, number: usize, page: &mut Page) {
    let Some(Entry::Heard { call, acts, .. }) = facts.core.log().get(place) else {
        return;
    };
    page.say(", action ");
    page.count(number);
    page.say(" of ");
    page.count(acts.len());
    page.say(" of its answer to ");
    facts.call(&call.get(), page);
    page.say(",");
}

// Appends a line with what is wrong with an action, if more is known than the words of its report.
fn push_why(facts: &Facts<'_>, who: &Who, act: &Act, fatal: Fatal, page: &mut Page) {
    if !has_why(fatal) {
        return;
    }
    page.say("  ");
    match (fatal, act) {
        (Fatal::NoPort, _) => push_no_port(facts, who, act, page),
        (Fatal::UnknownNode, Act::Connect { from, to }) => {
            push_unknown(facts, who.node(), from, to, page);
        }
        (Fatal::KindsDiffer, Act::Connect { from, to }) => {
            push_path(facts, who.node(), from, page);
            page.say(" ");
            push_path(facts, who.node(), to, page);
        }
        (Fatal::NoSequencer, Act::Start { on, .. }) => push_path(facts, who.node(), on, page),
        (Fatal::InvalidType, _) => push_type(facts, act, page),
        (Fatal::ChildTaken, Act::Create { name, .. } | Act::Add { name, .. }) => {
            push_taken(facts, who.node(), name, page);
        }
        (Fatal::AskedTwice | Fatal::NothingOut, _) => push_driver(facts, who, act, page),
        (Fatal::ObjectionBelowZero, _) => push_below_zero(facts, who, page),
        (Fatal::NotOpen, _) => page.say(match who {
            Who::Node(_) => "Such an action is for sequences.",
            Who::Sequence { .. } => "Such an action is for components.",
        }),
        _ => page.say(plain_why(fatal)),
    }
    page.say("\n");
}

// Returns whether more is known of a rejection than the words of its report.
fn has_why(fatal: Fatal) -> bool {
    matches!(
        fatal,
        Fatal::NoPort
            | Fatal::UnknownNode
            | Fatal::KindsDiffer
            | Fatal::NoSequencer
            | Fatal::InvalidType
            | Fatal::ChildTaken
            | Fatal::AskedTwice
            | Fatal::NothingOut
            | Fatal::ObjectionBelowZero
            | Fatal::NotOpen
    ) || !plain_why(fatal).is_empty()
}

// Returns what is wrong with an action, if it follows from the report alone.
fn plain_why(fatal: Fatal) -> &'static str {
    match fatal {
        Fatal::OverrideLoop => "The overrides of the type lead back to an earlier type.",
        Fatal::CreatedAfterBuild => "Components are created in build.",
        Fatal::ConnectedTooLate => "Ports are connected before the end of connect.",
        Fatal::TreeLimit => "A tree has at most 4096 nodes.",
        Fatal::NotGranted => "A sequence sends one item for each grant.",
        Fatal::NotHeld => "The sequence holds no lock of its sequencer.",
        Fatal::OutsideTask => "Such an action is for run and the run-time phases.",
        Fatal::OutOfRange => "A value of the action is out of its range (docs/REFERENCE.md).",
        _ => "",
    }
}

// Returns the port that an action names, and the kind that it needs.
fn port_of(act: &Act) -> Option<(&Name, PortKind)> {
    match act {
        Act::Put { port, .. } | Act::TryPut { port, .. } => Some((port, PortKind::Put)),
        Act::Take { port } | Act::TryTake { port } | Act::Peek { port } => {
            Some((port, PortKind::Get))
        }
        Act::Write { port, .. } => Some((port, PortKind::Analysis)),
        Act::Ask { port, .. } | Act::ItemDone { port, .. } => Some((port, PortKind::Seq)),
        _ => None,
    }
}

// Appends why a port cannot be used.
fn push_no_port(facts: &Facts<'_>, who: &Who, act: &Act, page: &mut Page) {
    let Some((port, kind)) = port_of(act) else {
        return;
    };
    let Some(node) = facts.tree.child(who.node(), port) else {
        push_ports(facts, who.node(), port, page);
        return;
    };
    page.name(port);
    page.say(" is ");
    facts.kind(node, page);
    if facts.wiring.port_kind(node) == Some(kind) {
        page.say(" that is not connected as it must be.");
    } else {
        page.say(", and the action needs a port of kind ");
        page.say(kind_word(kind));
        page.say(".");
    }
}

// Appends the ports of a node, and the one whose name is nearest.
fn push_ports(facts: &Facts<'_>, node: NodeId, port: &Name, page: &mut Page) {
    page.say("It has no port ");
    page.name(port);
    page.say("; it has ");
    let mut near = Nearest::new(facts.alloc, text_of(port));
    let mut list = List::new();
    for child in facts.tree.children(node) {
        if let (Some(_), Some((_, name))) = (
            facts.wiring.port_kind(child),
            facts.tree.under(child),
        ) {
            near.add(&name, page);
            if list.begin(page) {
                page.name(&name);
            }
        }
    }
    list.end(page, "no port");
    page.say(".");
    near.write(page);
}

// Returns the text of a name.
fn text_of(name: &Name) -> &str {
    from_utf8(name.as_bytes()).unwrap_or("")
}

// Appends the first part of a path that is missing below a node, otherwise what the path leads to.
fn push_path(facts: &Facts<'_>, below: NodeId, path: &Path, page: &mut Page) {
    let mut node = below;
    let text = from_utf8(path.as_bytes()).unwrap_or("");
    for part in text.split('.') {
        if part.is_empty() {
            break;
        }
        let child = match Name::new(part.as_bytes()) {
            Ok(name) => facts.tree.child(node, &name),
            Err(_) => None,
        };
        match child {
            Some(child) => node = child,
            None => {
                push_no_child(facts, node, part, page);
                return;
            }
        }
    }
    page.say("(");
    page.say(text);
    page.say(") is ");
    facts.kind(node, page);
    page.say(".");
}

// Appends that a node has no child with a name, and the children that it has.
fn push_no_child(facts: &Facts<'_>, node: NodeId, name: &str, page: &mut Page) {
    facts.path(node, page);
    page.say(" has no ");
    page.say(name);
    page.say("; it has ");
    facts.children(node, page);
    page.say(".");
    let mut near = Nearest::new(facts.alloc, name);
    for child in facts.tree.children(node) {
        if let Some((_, name)) = facts.tree.under(child) {
            near.add(&name, page);
        }
    }
    near.write(page);
}

// Appends which end of a connection is missing.
fn push_unknown(facts: &Facts<'_>, node: NodeId, from: &Path, to: &Path, page: &mut Page) {
    let is_end = match facts.tree.find_below(node, from) {
        Some(node) => facts.wiring.end(node).is_some(),
        None => false,
    };
    push_path(facts, node, if is_end { to } else { from }, page);
}

// Appends what is wrong with the types of an action.
fn push_type(facts: &Facts<'_>, act: &Act, page: &mut Page) {
    let (first, second, wanted) = match act {
        Act::Create { type_name, .. } => (type_name, None, Some(Kind::Component)),
        Act::Start { type_name, .. } => (type_name, None, Some(Kind::Sequence)),
        Act::OverrideType { original, new, .. } | Act::OverrideInst { original, new, .. } => {
            (original, Some(new), None)
        }
        _ => return,
    };
    let factory = facts.world.factory();
    let unknown = match second {
        _ if factory.find(first).is_none() => Some(first),
        Some(second) if factory.find(second).is_none() => Some(second),
        _ => None,
    };
    match (unknown, wanted) {
        (Some(name), _) => push_no_type(facts, name, page),
        (None, Some(kind)) => {
            page.name(first);
            page.say(match kind {
                Kind::Component => " is a sequence type.",
                Kind::Sequence => " is a component type.",
            });
        }
        (None, None) => page.say("One type is a component type, the other a sequence type."),
    }
}

// Appends that a type is not declared, and the one whose name is nearest.
fn push_no_type(facts: &Facts<'_>, name: &Name, page: &mut Page) {
    page.say("The script has no type ");
    page.name(name);
    page.say(".");
    let mut near = Nearest::new(facts.alloc, text_of(name));
    for (known, _) in facts.world.script().types() {
        near.add(known, page);
    }
    near.write(page);
}

// Appends what the child is whose name is taken.
fn push_taken(facts: &Facts<'_>, node: NodeId, name: &Name, page: &mut Page) {
    page.say("It has a child ");
    page.name(name);
    page.say(" already");
    if let Some(child) = facts.tree.child(node, name) {
        page.say(": ");
        facts.kind(child, page);
    }
    page.say(".");
}

// Appends the state of a driver whose ask or whose end of an item was rejected.
fn push_driver(facts: &Facts<'_>, who: &Who, act: &Act, page: &mut Page) {
    let Some((port, _)) = port_of(act) else {
        return;
    };
    let target = match facts.tree.child(who.node(), port) {
        Some(node) => facts.wiring.resolve(node).first().copied(),
        None => None,
    };
    let Some(home) = target else {
        return;
    };
    let Some(arbiter) = facts.world.sequencer(home) else {
        return;
    };
    let drive = facts.drive(who, port);
    match arbiter.state() {
        Driver::InHand(id) => {
            page.say("It has held the item of ");
            facts.who(&Who::Sequence { home, id: *id }, page);
            page.say(" since time ");
            page.number(drive.item);
            page.say(", and has not completed it with `item_done ");
            page.name(port);
            page.say(" ..`.");
        }
        Driver::Idle => {
            page.say("It holds no item. An item of `ask ");
            page.name(port);
            page.say(
                " get` is complete when it comes, and an item ends with the phase of its ask.",
            );
        }
        _ => {
            page.say("It has asked there already, at time ");
            page.number(drive.asked);
            page.say(", and waits for an item.");
        }
    }
}

// Appends how many objections are raised where more were dropped.
fn push_below_zero(facts: &Facts<'_>, who: &Who, page: &mut Page) {
    let phase = match facts.last_action() {
        Some(last) => last.phase,
        None => None,
    };
    let Some(phase) = phase else {
        return;
    };
    facts.path(who.node(), page);
    page.say(" has ");
    page.number(facts.world.raised(phase, who.node()));
    page.say(" raised in ");
    page.say(phase.name());
    page.say(".");
}
