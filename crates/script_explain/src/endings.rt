//! What ended a run.

use crate::refusals::push_refusal;
use crate::repeats::push_repeated;
use bench_history::EventTarget;
use script_facts::{Facts, List, Page, reason_of};
use uvm_object::{Act, Entry, Fatal, Outcome, Reason};
use uvm_report::Fate;
use uvm_tlm::{PortKind, WireFault};
use uvm_tree::NodeId;

// Appends what ended the run.
pub(crate) fn push_ending(facts: &Facts<'_>, page: &mut Page) {
    let reason = reason_of(facts.core.log());
    page.say(match reason {
        Some(_) => "The run ended at time ",
        None => "The run was aborted at time ",
    });
    page.number(facts.core.now());
    if let Some(phase) = facts.records.phase {
        page.say(" in ");
        page.say(phase.name());
    }
    page.say(", after ");
    page.count(facts.core.log().len());
    page.say(" entries");
    match reason {
        Some(reason) => push_reason(facts, reason, page),
        None if facts.core.has_failed() => {
            page.say(": the log is full.\n");
            push_repeated(facts, page);
        }
        None => page.say(".\n"),
    }
}

// Appends the reason of the end.
fn push_reason(facts: &Facts<'_>, reason: Reason, page: &mut Page) {
    page.say(": ");
    page.say(reason_word(facts, reason));
    page.say(".\n");
    match reason {
        Reason::Finished if !facts.has_raised() => {
            page.say("No objection was raised, so run ended at the time at which it began.\n");
        }
        Reason::Finished | Reason::Stall => {}
        Reason::Timeout => push_due(facts, page),
        Reason::Exit | Reason::NoTest => push_last(facts, page),
    }
}

fn reason_word(facts: &Facts<'_>, reason: Reason) -> &'static str {
    match reason {
        Reason::Finished => "all phases have ended",
        Reason::Exit if is_limit_reached(facts) => "the quit limit is reached",
        Reason::Exit => "a report has the action exit",
        Reason::NoTest => "the test was not created",
        Reason::Stall => "an objection keeps the phase, and nothing is due",
        Reason::Timeout => "the next event is due after the time limit",
    }
}

// Returns whether the count of the reports with the action count has reached the quit limit.
fn is_limit_reached(facts: &Facts<'_>) -> bool {
    let limit = facts.world.script().quit_limit();
    limit > 0 && facts.world.reports().quit_count() >= u64::from(limit)
}

// Appends what is due next, after the time limit.
fn push_due(facts: &Facts<'_>, page: &mut Page) {
    let Some(due) = facts.world.agenda().first() else {
        return;
    };
    page.say("The time limit is ");
    page.number(facts.world.script().time_limit());
    page.say(" (key `time_limit`). Next is ");
    match (&due.owner, due.notice.call()) {
        (EventTarget::Object(who), Some(call)) => {
            facts.call(&call, page);
            page.say(" of ");
            facts.who(who, page);
        }
        (owner, _) => {
            page.say("the end of the drain time of ");
            facts.path(owner.who().node(), page);
        }
    }
    page.say(", due at time ");
    page.number(due.time);
    page.say(".\n");
}

// Appends why the last action was rejected, or which report ended the run.
fn push_last(facts: &Facts<'_>, page: &mut Page) {
    let log = facts.core.log();
    match log.get(log.len().saturating_sub(2)) {
        Some(Entry::Note { fatal, node }) => push_note(facts, *fatal, *node, page),
        Some(Entry::Did { outcome, .. }) => match outcome.get() {
            Outcome::Refused(_) => push_refusal(facts, page),
            _ => push_report(facts, page),
        },
        _ => push_report(facts, page),
    }
}

// Appends the report of the last action.
fn push_report(facts: &Facts<'_>, page: &mut Page) {
    let Some(place) = facts.last_place() else {
        return;
    };
    let Some(Entry::Did { who, act, .. }) = facts.core.log().get(place) else {
        return;
    };
    let stored = act.act();
    let Act::Report { report } = stored.get() else {
        return;
    };
    let severity = match facts.world.newest_fate() {
        Some(Fate::Issued { severity, .. }) => severity,
        _ => report.severity,
    };
    page.say("The last report is ");
    page.say(severity.name());
    page.say(" [");
    page.name(&report.id);
    page.say("] ");
    page.bytes(report.text.as_bytes());
    page.say(", by ");
    facts.who(who, page);
    if severity != report.severity {
        page.say(", which issued it as ");
        page.say(report.severity.name());
    }
    page.say(".\n");
    push_limit(facts, page);
}

// Appends the quit limit, if it is reached.
fn push_limit(facts: &Facts<'_>, page: &mut Page) {
    if is_limit_reached(facts) {
        page.say("The quit limit is ");
        page.number(u64::from(facts.world.script().quit_limit()));
        page.say(" (key `quit_limit`).\n");
    }
}

// Appends what the kernel found.
fn push_note(facts: &Facts<'_>, fatal: Fatal, node: NodeId, page: &mut Page) {
    match fatal {
        Fatal::TooFewConnections | Fatal::TooManyConnections => push_port(facts, fatal, node, page),
        Fatal::TooManyActs => push_too_many(facts, page),
        _ => {
            facts.path(node, page);
            page.say(": ");
            page.say(fatal.id());
            page.say(", ");
            page.say(fatal.text());
            page.say(".\n");
        }
    }
}

// Appends where a port with too few or too many connections leads.
fn push_port(facts: &Facts<'_>, fatal: Fatal, node: NodeId, page: &mut Page) {
    page.say("After connect, ");
    facts.path(node, page);
    page.say(", ");
    facts.kind(node, page);
    page.say(", has ");
    page.say(fatal.text());
    page.say(" (");
    page.say(fatal.id());
    page.say("): it reaches ");
    let targets = facts.wiring.resolve(node);
    let mut list = List::new();
    for target in targets {
        if list.begin(page) {
            facts.path(*target, page);
        }
    }
    list.end(page, "nothing");
    let is_shared = targets.len() == 1
        && facts.wiring.port_kind(node) == Some(PortKind::Seq)
        && facts.wiring.fault_of(node) == Some(WireFault::TooMany);
    page.say(if is_shared {
        ", which another port drives too"
    } else {
        ""
    });
    page.say(". Actions that connect it: ");
    push_connections(facts, node, page);
    page.say(".\n");
}

// Appends the accepted actions that connect a port.
fn push_connections(facts: &Facts<'_>, node: NodeId, page: &mut Page) {
    let mut list = List::new();
    for entry in facts.core.log().iter() {
        let Entry::Did { who, act, outcome } = entry else {
            continue;
        };
        let stored = act.act();
        let Act::Connect { from, .. } = stored.get() else {
            continue;
        };
        let is_done = matches!(outcome.get(), Outcome::Done);
        if is_done && facts.tree.find_below(who.node(), from) == Some(node) && list.begin(page) {
            facts.act(stored.get(), page);
            page.say(" of ");
            facts.who(who, page);
        }
    }
    list.end(page, "none");
}

// Appends which answer has too many actions.
fn push_too_many(facts: &Facts<'_>, page: &mut Page) {
    let log = facts.core.log();
    let Some(
        Entry::Heard {
            who,
            call,
            acts,
            ..
        },
    ) = log.get(log.len().saturating_sub(3))
    else {
        page.say("An answer has more than 64 actions (ACTLIM); none is performed.\n");
        return;
    };
    page.say("The answer of ");
    facts.who(who, page);
    page.say(" to ");
    facts.call(&call.get(), page);
    page.say(" has ");
    page.count(acts.len());
    page.say(" actions (ACTLIM): at most 64 are allowed, and none is performed.\n");
}
