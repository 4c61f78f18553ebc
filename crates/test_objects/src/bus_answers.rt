//! Tests of the answers of the objects of the bus bench.

mod said;

use crate::bus_calls::call_of;
use bus_objects::BusObject;
use std::alloc::{AllocError, Global};
use std::io;
use std::io::Write;
use std::test::Fail;
use uvm_glob::Name;
use uvm_lines::line_of;
use uvm_object::{Act, Acts, Entry, LoggedOutcome, StoredAct, UvmObject, Who};
use uvm_report::Report;
use uvm_sequences::Sequences;
use uvm_tree::{NodeId, Tree};

// Returns whether a new object of a type answers as in the text.
fn says(alloc: Global, type_name: &str, text: &str) -> bool {
    match object_of(type_name) {
        Some(mut object) => answers(alloc, &mut object, text),
        None => false,
    }
}

// Returns whether an object answers as in the text. A line `> CALL` is a call; the lines after it are the actions of the answer.
fn answers(alloc: Global, object: &mut BusObject, text: &str) -> bool {
    let mut told = Vec::new(alloc);
    hear_all(alloc, object, text, &mut told).is_some() && told.as_slice() == text.as_bytes()
}

// Returns a new object of a type, if there is one and it has the name of the type.
fn object_of(type_name: &str) -> Option<BusObject> {
    let name = Name::new(type_name.as_bytes()).ok()?;
    let object = BusObject::of_type(&name)?;
    if *object.type_name() == name {
        Some(object)
    } else {
        None
    }
}

fn hear_all(alloc: Global, object: &mut BusObject, text: &str, told: &mut Vec<u8>) -> Option<()> {
    for line in text.lines() {
        if let Some(call) = line.strip_prefix("> ") {
            push_line(line, told).ok()?;
            hear(alloc, object, call, told)?;
        }
    }
    Some(())
}

fn hear(alloc: Global, object: &mut BusObject, call: &str, told: &mut Vec<u8>) -> Option<()> {
    let call = call_of(alloc, call)?;
    match object.hear(alloc, &call) {
        Ok(acts) => push_acts(alloc, &acts, told).ok(),
        Err(_) => None,
    }
}

fn push_line(line: &str, told: &mut Vec<u8>) -> Result<(), AllocError> {
    told.extend_from_slice(line.as_bytes())?;
    Ok(told.push(b'\n')?)
}

fn push_acts(alloc: Global, acts: &Acts, told: &mut Vec<u8>) -> io::Result<()> {
    for place in 0..acts.len() {
        if let Some(stored_act) = acts.stored_act(place) {
            push_stored_act(alloc, stored_act, told)?;
        }
    }
    Ok(())
}

// Appends the line of an action, as a log shows it, and then a line with the verbosity and the text of a report.
fn push_stored_act(alloc: Global, stored_act: &StoredAct, told: &mut Vec<u8>) -> io::Result<()> {
    let mut line = Vec::new(alloc);
    push_entry(alloc, stored_act, &mut line)?;
    told.extend_from_slice(words_of(line.as_slice()))?;
    told.push(b'\n')?;
    match stored_act.act().get() {
        Act::Report { report } => push_report(report, told),
        _ => Ok(()),
    }
}

// Appends the line of the log entry that the action was done at the top.
fn push_entry(alloc: Global, stored_act: &StoredAct, line: &mut Vec<u8>) -> Result<(), AllocError> {
    let entry = Entry::Did {
        who: Who::Node(NodeId::TOP),
        outcome: LoggedOutcome::done(),
        act: stored_act.share()?,
    };
    line_of(&entry, &Tree::new(alloc), &Sequences::new(alloc), line)
}

// Returns the text of the action in that line.
fn words_of(line: &[u8]) -> &[u8] {
    let line = line
        .strip_prefix(b"did uvm_top ".as_slice())
        .unwrap_or(line);
    line.strip_suffix(b": done\n".as_slice()).unwrap_or(line)
}

fn push_report(report: &Report, told: &mut Vec<u8>) -> io::Result<()> {
    let verbosity = report.verbosity;
    write!(told, "  {verbosity}: ")?;
    told.extend_from_slice(report.text.as_bytes())?;
    Ok(told.push(b'\n')?)
}

#[test]
fn bus_monitor_reports_an_item_and_writes_it_on(rt: HostRuntime) {
    assert!(rt; says(rt.alloc(), "bus_monitor", said::BUS_MONITOR));
}

#[test]
fn bus_scoreboard_reports_bad_reads_and_its_counts(rt: HostRuntime) {
    assert!(rt; says(rt.alloc(), "bus_scoreboard", said::BUS_SCOREBOARD));
}

#[test]
fn bus_test_starts_a_sequence_under_an_objection(rt: HostRuntime) {
    assert!(rt; says(rt.alloc(), "bus_test", said::BUS_TEST));
}

#[test]
fn bus_env_creates_and_connects_its_parts(rt: HostRuntime) {
    assert!(rt; says(rt.alloc(), "bus_env", said::BUS_ENV));
}

#[test]
fn bus_agent_asks_for_its_mode_and_connects_its_parts(rt: HostRuntime) {
    assert!(rt; says(rt.alloc(), "bus_agent", said::BUS_AGENT));
}

#[test]
fn bus_agent_adds_the_sequencer_that_it_is_told(rt: HostRuntime) -> Result<(), Fail> {
    for (value, mode) in said::MODES {
        let text = format!(in rt.alloc();
            "> config arb {value}\nadd sqr sequencer {mode}\ncreate bus_driver drv\ncreate bus_monitor mon\n"
        )?;
        assert!(rt; says(rt.alloc(), "bus_agent", text.as_str()), "at {value}");
    }
    Ok(())
}

#[test]
fn bus_driver_puts_each_item_and_responds(rt: HostRuntime) {
    assert!(rt; says(rt.alloc(), "bus_driver", said::BUS_DRIVER));
}

#[test]
fn slow_driver_puts_each_item_when_it_wakes(rt: HostRuntime) {
    assert!(rt; says(rt.alloc(), "slow_driver", said::SLOW_DRIVER));
}

#[test]
fn seq_smoke_sends_two_items(rt: HostRuntime) {
    assert!(rt; says(rt.alloc(), "seq_smoke", said::SEQ_SMOKE));
}

#[test]
fn seq_burst_sends_four_items_under_a_lock(rt: HostRuntime) {
    assert!(rt; says(rt.alloc(), "seq_burst", said::SEQ_BURST));
}

#[test]
fn seq_pair_ends_at_the_second_of_its_children(rt: HostRuntime) {
    assert!(rt; says(rt.alloc(), "seq_pair", said::SEQ_PAIR));
}

#[test]
fn idle_answers_with_no_acts(rt: HostRuntime) {
    assert!(rt; says(rt.alloc(), "idle", said::IDLE));
}

#[test]
fn loud_reports_three_errors_when_it_builds(rt: HostRuntime) {
    assert!(rt; says(rt.alloc(), "loud", said::LOUD));
}

#[test]
fn pulse_wakes_three_times(rt: HostRuntime) {
    assert!(rt; says(rt.alloc(), "pulse", said::PULSE));
}

#[test]
fn sleeper_waits_for_the_value_that_it_is_told(rt: HostRuntime) {
    assert!(rt; says(rt.alloc(), "sleeper", said::SLEEPER));
}

#[test]
fn spinner_waits_again_and_again(rt: HostRuntime) {
    assert!(rt; says(rt.alloc(), "spinner", said::SPINNER));
}

#[test]
fn bus_mem_waits_for_the_value_that_it_is_told(rt: HostRuntime) {
    assert!(rt; says(rt.alloc(), "bus_mem", said::WAITING_MEMORY));
}

#[test]
fn bus_mem_begins_with_an_item_of_zeros(rt: HostRuntime) {
    assert!(rt; says(rt.alloc(), "bus_mem", said::NEW_MEMORY));
}

#[test]
fn memories_perform_the_items_that_they_take(rt: HostRuntime) {
    assert!(rt; memories_perform(rt.alloc()));
}

// Returns whether the two memories perform the items. What `bus_mem_bad` reads has its lowest bit flipped.
fn memories_perform(alloc: Global) -> bool {
    let (Some(mut memory), Some(mut bad)) = (object_of("bus_mem"), object_of("bus_mem_bad")) else {
        return false;
    };
    for (item, response, bad_response) in said::ITEMS {
        if !performs(alloc, &mut memory, item, response)
            || !performs(alloc, &mut bad, item, bad_response)
        {
            return false;
        }
    }
    true
}

// Returns whether a memory takes an item, puts the response, and then waits for the next item.
fn performs(alloc: Global, memory: &mut BusObject, item: &str, response: &str) -> bool {
    match format!(in alloc;
        "> taken req {item}\nwait 0 1\n> wake 1\nput rsp {response}\n> stored rsp\ntake req\n"
    ) {
        Ok(text) => answers(alloc, memory, text.as_str()),
        Err(_) => false,
    }
}

#[test]
fn other_types_have_no_object(rt: HostRuntime) {
    for name in [
        "idl",
        "idles",
        "Idle",
        "other",
        "bus_memo",
        "bus_mem_ba",
        "seq",
        "seq_smok",
    ] {
        assert!(rt; object_of(name).is_none(), "of {name}");
    }
}
