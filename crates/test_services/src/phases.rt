//! Tests of the order of the phases, and of the order in which calls come due.

use std::alloc::{AllocError, Global};
use std::test::Fail;
use uvm_phase::{Agenda, Cause, Phase, Schedule};

#[test]
fn nine_phases_follow_one_another(rt: HostRuntime) {
    let mut phase = Some(Phase::Build);
    for name in [
        "build",
        "connect",
        "end_of_elaboration",
        "start_of_simulation",
        "run",
        "extract",
        "check",
        "report",
        "final",
    ] {
        assert!(rt; is_named(phase, name), "{name}");
        phase = after(phase);
    }
    assert!(rt; phase == None);
}

#[test]
fn twelve_runtime_phases_follow_one_another_and_then_comes_extract(rt: HostRuntime) {
    let mut phase = Some(Phase::PreReset);
    for name in [
        "pre_reset",
        "reset",
        "post_reset",
        "pre_configure",
        "configure",
        "post_configure",
        "pre_main",
        "main",
        "post_main",
        "pre_shutdown",
        "shutdown",
        "post_shutdown",
    ] {
        assert!(rt; is_named(phase, name), "{name}");
        phase = after(phase);
    }
    assert!(rt; phase == Some(Phase::Extract));
}

fn is_named(phase: Option<Phase>, name: &str) -> bool {
    match phase {
        Some(phase) => phase.name() == name,
        None => false,
    }
}

fn after(phase: Option<Phase>) -> Option<Phase> {
    Schedule::next(phase?)
}

#[test]
fn build_and_final_are_top_down_and_run_takes_time(rt: HostRuntime) {
    assert!(rt; Phase::Build.is_top_down() && Phase::Final.is_top_down());
    assert!(rt; !Phase::Run.is_top_down() && Phase::Run.is_task() && !Phase::Build.is_task());
    assert!(rt; Phase::Run.number() == 4);
    assert!(rt; Phase::Main.is_runtime() && Phase::Main.is_task() && !Phase::Run.is_runtime());
}

// Adds a call at 5 ticks, another at 5 ticks with an earlier cause, and one at 2 ticks. Each has its own owner; the last has another
// phase.
fn add_three(agenda: &mut Agenda<char, u8>) -> Result<(), AllocError> {
    for (time, place, phase, owner, notice) in [
        (5, 3, Phase::Run, 'a', 10),
        (5, 1, Phase::Run, 'b', 20),
        (2, 9, Phase::Check, 'c', 30),
    ] {
        agenda.reserve()?;
        agenda.due(time, Cause { place, number: 0 }, phase, owner, notice)?;
    }
    Ok(())
}

// The change to the three calls before they are taken.
#[derive(Clone, Copy)]
enum Done {
    Nothing,
    Cancelled(char),
    Cleared(Phase),
}

// Returns how many of the three calls are left, and the places of their causes in the order in which they are taken.
fn taken(alloc: Global, done: Done) -> Result<(usize, [Option<u32>; 3]), AllocError> {
    let mut agenda = Agenda::new(alloc);
    add_three(&mut agenda)?;
    Ok(taken_after(&mut agenda, done))
}

fn taken_after(agenda: &mut Agenda<char, u8>, done: Done) -> (usize, [Option<u32>; 3]) {
    match done {
        Done::Nothing => {}
        Done::Cancelled(owner) => agenda.cancel(&owner),
        Done::Cleared(phase) => agenda.clear(phase),
    }
    let count = agenda.len();
    (count, [take(agenda), take(agenda), take(agenda)])
}

fn take(agenda: &mut Agenda<char, u8>) -> Option<u32> {
    match agenda.take_first() {
        Some(due) => Some(due.cause.place),
        None => None,
    }
}

#[test]
fn calls_come_due_by_time_and_then_by_cause(rt: HostRuntime) -> Result<(), Fail> {
    assert!(rt; taken(rt.alloc(), Done::Nothing)? == (3, [Some(9), Some(1), Some(3)]));
    Ok(())
}

#[test]
fn calls_of_an_owner_or_a_phase_are_taken_out(rt: HostRuntime) -> Result<(), Fail> {
    assert!(rt; taken(rt.alloc(), Done::Cancelled('b'))? == (2, [Some(9), Some(3), None]));
    assert!(rt; taken(rt.alloc(), Done::Cleared(Phase::Run))? == (1, [Some(9), None, None]));
    Ok(())
}

#[test]
fn the_first_call_is_shown(rt: HostRuntime) -> Result<(), Fail> {
    assert!(rt; first(rt.alloc())? == Some(([2, 9, 0], 'c', 30)));
    Ok(())
}

fn first(alloc: Global) -> Result<Option<([u64; 3], char, u8)>, AllocError> {
    let mut agenda = Agenda::new(alloc);
    add_three(&mut agenda)?;
    Ok(shown(&agenda))
}

// Returns the time of the first call in ticks, the place and the number of its cause, its owner, and its notice.
fn shown(agenda: &Agenda<char, u8>) -> Option<([u64; 3], char, u8)> {
    if agenda.is_empty() {
        return None;
    }
    let due = agenda.first()?;
    Some((
        [
            due.time,
            u64::from(due.cause.place),
            u64::from(due.cause.number),
        ],
        due.owner,
        due.notice,
    ))
}
