//! Tests of actions, calls, entries, outcomes and logs by their public calls, if memory is available.

mod lines;

use std::alloc::{AllocError, Global};
use std::mem::size_of;
use std::test::Fail;
use uvm_glob::{Name, Path};
use uvm_object::{
    Act, ActRef, Acts, Call, Entry, EventCall, Fatal, Log, LogFault, LoggedOutcome, LoggedPassage,
    Origin, Outcome, Passage, StoredAct, StoredCall, Who,
};
use uvm_phase::{Cause, Phase};
use uvm_report::{Report, Severity};
use uvm_sequences::{SeqId, Sequences};
use uvm_tlm::{Item, MoveKind};
use uvm_tree::NodeId;

const ITEM: Item = Item([1, -2, 10, 0]);

fn override_type(name: Name, replace: bool) -> Act {
    Act::OverrideType {
        original: name,
        new: name,
        replace,
    }
}

fn is_replaced(act: &ActRef<'_>) -> Option<bool> {
    match act.get() {
        Act::OverrideType { replace, .. } => Some(*replace),
        _ => None,
    }
}

fn replaced_at(acts: &Acts, place: usize) -> Option<bool> {
    is_replaced(&acts.get(place)?)
}

// Adds three overrides of a type: one that replaces, and two copies of one that does not.
fn push_overrides(acts: &mut Acts, name: Name) -> Result<(), AllocError> {
    acts.push(override_type(name, true))?;
    push_copy(acts, &override_type(name, false))?;
    push_copy(acts, &override_type(name, false))
}

fn push_copy(acts: &mut Acts, act: &Act) -> Result<(), AllocError> {
    acts.push(act.copy()?)
}

#[test]
fn acts_stand_in_order(rt: HostRuntime) -> Result<(), Fail> {
    let name = Name::new(b"x")?;
    let mut acts = Acts::new(rt.alloc());
    assert!(rt; stand_in_order(&mut acts, name)?);
    Ok(())
}

fn stand_in_order(acts: &mut Acts, name: Name) -> Result<bool, AllocError> {
    let were_none = acts.is_empty();
    push_overrides(acts, name)?;
    Ok(were_none && !acts.is_empty() && acts.len() == 3 && are_told(acts) && are_gone_over(acts))
}

fn are_told(acts: &Acts) -> bool {
    replaced_at(acts, 0) == Some(true)
        && replaced_at(acts, 1) == Some(false)
        && acts.get(3).is_none()
}

fn are_gone_over(acts: &Acts) -> bool {
    let mut seen = [None; 3];
    for (slot, act) in seen.iter_mut().zip(acts) {
        *slot = is_replaced(&act);
    }
    acts.iter().len() == 3 && seen == [Some(true), Some(false), Some(false)]
}

#[test]
fn an_act_is_shared(rt: HostRuntime) -> Result<(), Fail> {
    let stored_act = StoredAct::new(rt.alloc(), override_type(Name::new(b"x")?, true))?;
    assert!(rt; is_shared(&stored_act)?);
    Ok(())
}

fn is_shared(stored_act: &StoredAct) -> Result<bool, AllocError> {
    let shared = stored_act.share()?;
    Ok(is_replaced(&stored_act.act()) == Some(true) && is_replaced(&shared.act()) == Some(true))
}

// The actions are a put through a port with a short name, a put through a port with a longer name, and the start of a sequence.
#[test]
fn an_act_is_as_it_was_given(rt: HostRuntime) -> Result<(), Fail> {
    assert!(rt; is_put(rt.alloc(), Name::new(b"out")?)?);
    assert!(rt; is_put(rt.alloc(), Name::new(b"a_port_of_a_long_name")?)?);
    assert!(rt; is_start(rt.alloc(), Name::new(b"seq_pair")?)?);
    Ok(())
}

fn is_put(alloc: Global, port: Name) -> Result<bool, AllocError> {
    let stored_act = StoredAct::new(alloc, Act::Put { port, item: ITEM })?;
    Ok(match stored_act.act().get() {
        Act::Put {
            port: through,
            item,
        } => *through == port && *item == ITEM,
        _ => false,
    })
}

fn is_start(alloc: Global, type_name: Name) -> Result<bool, AllocError> {
    let act = Act::Start {
        type_name,
        name: type_name,
        on: Path::top(alloc),
        priority: Some(7),
    };
    let stored_act = StoredAct::new(alloc, act)?;
    Ok(match stored_act.act().get() {
        Act::Start {
            type_name: started,
            name,
            on,
            priority: Some(7),
        } => *started == type_name && *name == type_name && on.depth() == 0,
        _ => false,
    })
}

#[test]
fn a_call_is_as_it_was_given(rt: HostRuntime) -> Result<(), Fail> {
    let port = Name::new(b"in")?;
    let item = Some(ITEM);
    assert!(rt; is_held(rt.alloc(), Call::Wake { tag: 3 })?);
    assert!(rt; is_held(rt.alloc(), Call::ItemDone { response: item })?);
    assert!(rt; is_held(rt.alloc(), Call::NextItem { port, item })?);
    assert!(rt;
        is_held(
            rt.alloc(),
            Call::Config {
                field: port,
                value: Some(-1)
            }
        )?
    );
    Ok(())
}

fn is_held(alloc: Global, call: Call) -> Result<bool, AllocError> {
    let held = StoredCall::new(alloc, &call)?;
    let is_same = held.get() == call;
    Ok(is_same && is_noticed(held, call))
}

fn is_noticed(held: StoredCall, call: Call) -> bool {
    EventCall::nothing().call().is_none() && EventCall::of_call(held).call() == Some(call)
}

fn ended(entry: Option<&Entry>) -> Option<Phase> {
    match entry {
        Some(Entry::End(phase)) => Some(*phase),
        _ => None,
    }
}

#[test]
fn a_log_keeps_entries_up_to_its_limit(rt: HostRuntime) {
    let mut log = Log::new(rt.alloc(), 2);
    assert!(rt; log.is_empty() && log.next_place() == 0);
    assert!(rt; is_filled(&mut log));
    assert!(rt; is_gone_over(&log));
}

fn is_filled(log: &mut Log) -> bool {
    log.reserve().is_ok()
        && log.push(Entry::End(Phase::Build)).is_ok()
        && log.push(Entry::End(Phase::Connect)).is_ok()
        && log.is_full()
        && log.push(Entry::End(Phase::Run)) == Err(LogFault::Full)
}

fn is_gone_over(log: &Log) -> bool {
    let mut seen = [None; 2];
    for (slot, entry) in seen.iter_mut().zip(log) {
        *slot = ended(Some(entry));
    }
    seen == [Some(Phase::Build), Some(Phase::Connect)]
        && log.len() == 2
        && ended(log.get(0)) == Some(Phase::Build)
        && ended(log.last()) == Some(Phase::Connect)
        && log.get(2).is_none()
}

#[test]
fn a_fatal_report_is_that_of_its_id_and_text(rt: HostRuntime) -> Result<(), Fail> {
    let id = Name::new(b"CLDEXT")?;
    let report = Fatal::ChildTaken.report(rt.alloc())?;
    assert!(rt; is_of(&report, id));
    Ok(())
}

fn is_of(report: &Report, id: Name) -> bool {
    report.severity == Severity::Fatal
        && report.id == id
        && report.text.as_bytes() == b"child name taken".as_slice()
        && report.verbosity == 0
}

#[test]
fn a_fatal_has_its_id_and_its_text(rt: HostRuntime) {
    let fatal = Fatal::NoSequencer;
    assert!(rt; (fatal.id(), fatal.text()) == ("NOSQR", "no such sequencer"));
}

const ORIGIN: Origin = Origin {
    cause: Cause {
        place: 9,
        number: 2,
    },
    phase: Phase::Run,
};

#[test]
fn an_entry_tells_what_it_holds(rt: HostRuntime) -> Result<(), Fail> {
    let call = Call::Phase(Phase::Run);
    let acts = three_acts(rt.alloc())?;
    let heard = Entry::heard(
        rt.alloc(),
        Who::Node(NodeId::TOP),
        &call,
        Some(ORIGIN),
        acts,
    )?;
    assert!(rt; holds(&heard, &call, ORIGIN, 3));
    Ok(())
}

fn three_acts(alloc: Global) -> Result<Acts, Fail> {
    let name = Name::new(b"x")?;
    let mut acts = Acts::new(alloc);
    push_overrides(&mut acts, name)?;
    Ok(acts)
}

fn holds(entry: &Entry, call: &Call, origin: Origin, count: usize) -> bool {
    match entry {
        Entry::Heard {
            call: asked,
            origin: why,
            acts,
            ..
        } => asked.get() == *call && why.get() == Some(origin) && acts.len() == count,
        _ => false,
    }
}

fn word(outcome: LoggedOutcome) -> &'static str {
    word_for(outcome.get())
}

fn word_for(outcome: Outcome) -> &'static str {
    match outcome {
        Outcome::Done => "done",
        Outcome::Made(_) => "made",
        Outcome::Started(_) => "started",
        Outcome::Value(None) => "no value",
        Outcome::Value(Some(_)) => "value",
        Outcome::Stored(_) => "stored",
        Outcome::Taken(_) => "taken",
        Outcome::Waits(_) => "waits",
        Outcome::Finished => "finished",
        Outcome::Refused(_) => "refused",
    }
}

#[test]
fn what_was_made_and_started_is_told(rt: HostRuntime) -> Result<(), Fail> {
    let (name, id) = (Name::new(b"f")?, first_sequence(rt.alloc())?);
    let room = Box::new(rt.alloc(), name)?;
    assert!(rt; word(LoggedOutcome::made(room, name)) == "made");
    assert!(rt; word(LoggedOutcome::started(id)) == "started");
    Ok(())
}

#[test]
fn what_was_taken_is_told(rt: HostRuntime) -> Result<(), Fail> {
    for item in [Some(ITEM), None] {
        assert!(rt; is_taken(rt.alloc(), item)?);
    }
    Ok(())
}

fn is_taken(alloc: Global, item: Option<Item>) -> Result<bool, AllocError> {
    let outcome = LoggedOutcome::taken(alloc, item)?;
    Ok(matches!(outcome.get(), Outcome::Taken(taken) if taken == item))
}

#[test]
fn outcomes_without_memory_are_told(rt: HostRuntime) {
    assert!(rt; word(LoggedOutcome::done()) == "done");
    assert!(rt; word(LoggedOutcome::value(None)) == "no value");
    assert!(rt; word(LoggedOutcome::value(Some(-1))) == "value");
    assert!(rt; word(LoggedOutcome::stored(true)) == "stored");
    assert!(rt; word(LoggedOutcome::waits(true)) == "waits");
    assert!(rt; word(LoggedOutcome::finished()) == "finished");
    assert!(rt; word(LoggedOutcome::refused(Fatal::NoObject)) == "refused");
}

#[test]
fn passages_are_kept(rt: HostRuntime) -> Result<(), Fail> {
    assert!(rt; is_passage_kept(rt.alloc(), Name::new(b"req")?)?);
    Ok(())
}

fn is_passage_kept(alloc: Global, port: Name) -> Result<bool, AllocError> {
    let passage = Passage {
        kind: MoveKind::Take,
        who: Who::Node(NodeId::TOP),
        port,
        item: ITEM,
        request: 7,
        phase: Phase::Run,
    };
    Ok(LoggedPassage::new(alloc, passage)?.get() == passage)
}

fn first_sequence(alloc: Global) -> Result<SeqId, Fail> {
    let name = Name::new(b"a")?;
    Ok(Sequences::new(alloc).start(NodeId::TOP, None, name, 100)?)
}

#[test]
fn somebody_stands_at_a_node(rt: HostRuntime) {
    let who = Who::Node(NodeId::TOP);
    assert!(rt; who.copy() == who);
    assert!(rt; who.node() == NodeId::TOP);
}

#[test]
fn entries_are_small(rt: HostRuntime) {
    let size = size_of::<Entry>();
    assert!(rt; size <= 64, "{size} bytes");
}
