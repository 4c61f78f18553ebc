//! The objections that keep a phase, and what waits at FIFOs and sequencers.

use crate::sides::{Side, push_users};
use bench_history::Requester;
use script_facts::{Facts, Page, Section, push_item, reason_of};
use uvm_object::{Reason, Who};
use uvm_phase::Phase;
use uvm_sequencer::Driver;
use uvm_tlm::Fifo;
use uvm_tree::NodeId;

// The phases that take time, in the order of the schedule.
const TASKS: [Phase; 13] = [
    Phase::Run,
    Phase::PreReset,
    Phase::Reset,
    Phase::PostReset,
    Phase::PreConfigure,
    Phase::Configure,
    Phase::PostConfigure,
    Phase::PreMain,
    Phase::Main,
    Phase::PostMain,
    Phase::PreShutdown,
    Phase::Shutdown,
    Phase::PostShutdown,
];

// Appends who keeps the phases that have not ended.
pub(crate) fn push_holders(facts: &Facts<'_>, page: &mut Page) {
    if !has_stopped(facts) {
        return;
    }
    let mut section = Section::new("Objections that are raised");
    for phase in TASKS {
        if !facts.world.has_objection(phase) {
            continue;
        }
        push_sources(facts, phase, NodeId::TOP, &mut section, page);
        for node in &facts.nodes {
            push_sources(facts, phase, *node, &mut section, page);
        }
    }
    section.end(page);
}

// Returns whether the run stopped while a phase was kept.
fn has_stopped(facts: &Facts<'_>) -> bool {
    matches!(
        reason_of(facts.core.log()),
        None | Some(Reason::Stall | Reason::Timeout)
    )
}

// Appends a line if objections are raised at a node.
fn push_sources(
    facts: &Facts<'_>,
    phase: Phase,
    node: NodeId,
    section: &mut Section,
    page: &mut Page,
) {
    let count = facts.world.raised(phase, node);
    if count == 0 || !section.begin(page) {
        return;
    }
    facts.who(&Who::Node(node), page);
    page.say(" has ");
    page.number(count);
    page.say(" raised in ");
    page.say(phase.name());
    if let Some(raise) = facts.raise(node, phase) {
        page.say(", the last");
        if raise.who != Who::Node(node) {
            page.say(" by ");
            facts.who(&raise.who, page);
        }
        page.say(" at time ");
        page.number(raise.time);
    }
    page.say(".\n");
}

// Appends what waits at FIFOs and sequencers.
pub(crate) fn push_waits(facts: &Facts<'_>, page: &mut Page) {
    if !has_stopped(facts) {
        return;
    }
    let mut section = Section::new("What waits");
    for node in &facts.nodes {
        if let Some(fifo) = facts.world.fifo(*node) {
            push_puts(facts, *node, fifo, &mut section, page);
            push_takes(facts, *node, fifo, &mut section, page);
        }
        push_driver(facts, *node, &mut section, page);
    }
    section.end(page);
}

// Appends a line for each put that waits at a FIFO, with who takes from it.
fn push_puts(
    facts: &Facts<'_>,
    node: NodeId,
    fifo: &Fifo<Requester>,
    section: &mut Section,
    page: &mut Page,
) {
    let (first, second) = fifo.puts();
    for put in first.iter().chain(second.iter()) {
        if !section.begin(page) {
            continue;
        }
        facts.who(&put.owner.who, page);
        page.say(" waits to put ");
        push_item(&put.item, page);
        page.say(" through ");
        page.name(&put.owner.port);
        page.say(" into ");
        facts.path(node, page);
        page.say(", ");
        facts.kind(node, page);
        page.say(" that is full.");
        push_users(facts, node, Side::Get, page);
        page.say("\n");
    }
}

// Appends a line for each take and peek that waits at a FIFO, with who puts into it.
fn push_takes(
    facts: &Facts<'_>,
    node: NodeId,
    fifo: &Fifo<Requester>,
    section: &mut Section,
    page: &mut Page,
) {
    let (first, second) = fifo.takes();
    for take in first.iter().chain(second.iter()) {
        if !section.begin(page) {
            continue;
        }
        facts.who(&take.owner.who, page);
        page.say(if take.peeks {
            " waits to peek through "
        } else {
            " waits to take through "
        });
        page.name(&take.owner.port);
        page.say(" from ");
        facts.path(node, page);
        page.say(", which is empty.");
        push_users(facts, node, Side::Put, page);
        page.say("\n");
    }
}

// Appends a line if a driver waits at a sequencer or holds an item.
fn push_driver(facts: &Facts<'_>, node: NodeId, section: &mut Section, page: &mut Page) {
    let Some(arbiter) = facts.world.sequencer(node) else {
        return;
    };
    let Some(driver) = arbiter.driver() else {
        return;
    };
    match arbiter.state() {
        Driver::Waiting(_) => {
            if !section.begin(page) {
                return;
            }
            facts.who(&driver.who, page);
            page.say(" waits for an item through ");
            page.name(&driver.name);
            page.say(" at ");
            facts.path(node, page);
            page.say(if arbiter.requests().is_empty() {
                ", where no sequence requests.\n"
            } else {
                ", where no request can be granted.\n"
            });
        }
        Driver::InHand(id) => {
            if !section.begin(page) {
                return;
            }
            facts.who(&driver.who, page);
            page.say(" has held an item of ");
            facts.label(
                &Who::Sequence {
                    home: node,
                    id: *id,
                },
                page,
            );
            page.say(" since time ");
            page.number(facts.drive(&driver.who, &driver.name).item);
            page.say("; ");
            facts.last_call(&driver.who, page);
            page.say(".\n");
        }
        _ => {}
    }
}
