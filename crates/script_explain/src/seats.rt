//! The sequences that have not ended by themselves, and why.

use script_facts::{Facts, List, Page, Section, reason_of};
use uvm_object::{Reason, Who};
use uvm_sequencer::{Driver, Want};
use uvm_sequences::SeqId;
use uvm_tree::NodeId;
use world_sequencing::arbiters::Arbiter;

// Appends a line for each sequence that has not ended its last step.
pub(crate) fn push_living(facts: &Facts<'_>, page: &mut Page) {
    let mut section = Section::new("Sequences that have not ended by themselves");
    for started in &facts.records.sequences {
        if started.finished || !section.begin(page) {
            continue;
        }
        let who = &started.who;
        facts.who(who, page);
        match who {
            Who::Sequence { home, id } if facts.sequences.is_live(*id) => {
                page.say(" is active: ");
                push_active(facts, who, *home, *id, page);
            }
            _ => {
                page.say(" ended with its phase: ");
                facts.last_call(who, page);
            }
        }
        page.say(".\n");
    }
    section.end(page);
}

// Appends why a sequence is active.
fn push_active(facts: &Facts<'_>, who: &Who, home: NodeId, id: SeqId, page: &mut Page) {
    if let Some(arbiter) = facts.world.sequencer(home) {
        if push_seat(facts, arbiter, home, id, page) {
            return;
        }
    }
    if push_children(facts, id, page) {
        return;
    }
    if reason_of(facts.core.log()) == Some(Reason::Stall) {
        page.say("nothing more comes to it; ");
    }
    facts.last_call(who, page);
}

// Appends what a sequence does at its sequencer, and returns whether it does something there.
fn push_seat(
    facts: &Facts<'_>,
    arbiter: &Arbiter,
    home: NodeId,
    id: SeqId,
    page: &mut Page,
) -> bool {
    for request in arbiter.requests() {
        if request.seq == id {
            page.say(match request.want {
                Want::Item(_) => "its request waits at ",
                Want::Lock => "its lock request waits at ",
            });
            facts.path(home, page);
            push_cause(facts, arbiter, home, id, page);
            return true;
        }
    }
    match arbiter.state() {
        Driver::Granted(other, _) if *other == id => {
            page.say("it is granted and has not sent; ");
            facts.last_call(&Who::Sequence { home, id }, page);
            true
        }
        Driver::InHand(other) if *other == id => {
            push_driver(facts, arbiter, page);
            page.say(" holds its item and has not completed it");
            true
        }
        _ => false,
    }
}

// Appends why a request waits.
fn push_cause(facts: &Facts<'_>, arbiter: &Arbiter, home: NodeId, id: SeqId, page: &mut Page) {
    if let Some(holder) = holder_of(facts, arbiter, id) {
        page.say(", which ");
        facts.who(&holder, page);
        page.say(" holds by a lock or a grab");
        return;
    }
    match arbiter.state() {
        Driver::InHand(other) if *other == id => {
            page.say(", where ");
            push_driver(facts, arbiter, page);
            page.say(" holds its previous item");
        }
        Driver::InHand(other) => {
            page.say(", whose driver holds the item of ");
            facts.who(&Who::Sequence { home, id: *other }, page);
        }
        Driver::Granted(other, _) => {
            page.say(", where ");
            facts.who(&Who::Sequence { home, id: *other }, page);
            page.say(" is granted and has not sent");
        }
        Driver::Idle => {
            page.say(", where no driver asks; ");
            push_asks(facts, arbiter, page);
        }
        _ => {}
    }
}

// Returns a sequence that holds the sequencer and is not an ancestor of `id`, if there is one.
fn holder_of(facts: &Facts<'_>, arbiter: &Arbiter, id: SeqId) -> Option<Who> {
    for started in &facts.records.sequences {
        if let Who::Sequence { id: other, .. } = started.who {
            if arbiter.holds(other) && !facts.sequences.is_under(id, other) {
                return Some(started.who);
            }
        }
    }
    None
}

// Appends the driver that asked last.
fn push_driver(facts: &Facts<'_>, arbiter: &Arbiter, page: &mut Page) {
    match arbiter.driver() {
        Some(driver) => facts.who(&driver.who, page),
        None => page.say("its driver"),
    }
}

// Appends who asked last, how often, and its last call.
fn push_asks(facts: &Facts<'_>, arbiter: &Arbiter, page: &mut Page) {
    let Some(driver) = arbiter.driver() else {
        page.say("none has asked");
        return;
    };
    let drive = facts.drive(&driver.who, &driver.name);
    facts.who(&driver.who, page);
    page.say(" asked ");
    page.count(drive.asks);
    page.say(if drive.asks == 1 { " time" } else { " times" });
    page.say(", last at time ");
    page.number(drive.asked);
    page.say("; ");
    facts.last_call(&driver.who, page);
}

// Appends the active sequences that a sequence has started, and returns whether there are any.
fn push_children(facts: &Facts<'_>, id: SeqId, page: &mut Page) -> bool {
    let mut list = List::new();
    let mut has_child = false;
    for started in &facts.records.sequences {
        let Who::Sequence { id: child, .. } = started.who else {
            continue;
        };
        if facts.sequences.parent(child) != Some(id) || !facts.sequences.is_live(child) {
            continue;
        }
        if !has_child {
            page.say("sequences that it started are active: ");
            has_child = true;
        }
        if list.begin(page) {
            facts.label(&started.who, page);
        }
    }
    list.end(page, "");
    has_child
}
