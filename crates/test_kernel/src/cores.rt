//! Tests of the core, driven by answers that are values: no object gives them.

use bench_core::{Core, Turn};
use rand_pcg::Pcg32;
use std::alloc::{AllocError, Global};
use uvm_object::{Act, Acts, Call, Who};
use uvm_phase::Phase;

const SCRIPT: &[u8] = b"version = 1
test = \"t\"
type = [{ name = \"t\", kind = \"component\" }, { name = \"c\", kind = \"component\" }]
";

// The answer of the test to one of its calls. Every other answer has no actions.
#[derive(Clone, Copy)]
enum Plan {
    // The answer to `build`: two FIFOs with the same name.
    NameTwice,
    // The answer to `build`: 65 actions, one more than an answer may have.
    TooMany,
    // The answer to `connect`: a creation.
    CreateLate,
    // The answer to `build`: an objection.
    RaiseEarly,
}

impl Plan {
    // Returns the answer to the pending call of the core. Errors: out of memory.
    fn answer(self, alloc: Global, core: &Core, who: &Who) -> Result<Acts, AllocError> {
        let mut acts = Acts::new(alloc);
        if let (true, Some(Call::Phase(phase))) = (is_test(core, who), core.call()) {
            self.push(*phase, &mut acts)?;
        }
        Ok(acts)
    }

    fn push(self, phase: Phase, acts: &mut Acts) -> Result<(), AllocError> {
        match (self, phase) {
            (Plan::NameTwice, Phase::Build) => {
                acts.fifo("x", 1)?;
                acts.fifo("x", 1)
            }
            (Plan::TooMany, Phase::Build) => push_many(acts),
            (Plan::CreateLate, Phase::Connect) => acts.create("c", "a"),
            (Plan::RaiseEarly, Phase::Build) => acts.raise_objection(1),
            _ => Ok(()),
        }
    }
}

fn push_many(acts: &mut Acts) -> Result<(), AllocError> {
    for _ in 0..65 {
        acts.push(Act::EndStep)?;
    }
    Ok(())
}

fn is_test(core: &Core, who: &Who) -> bool {
    core.path(who.node())
        .is_some_and(|path| path.as_bytes() == b"uvm_test_top".as_slice())
}

// Returns the transcript of a run to its end, or `None` if an error comes or the run takes more than 200 steps.
fn transcript(alloc: Global, plan: Plan) -> Option<Vec<u8>> {
    let script = bench_script::read(alloc, SCRIPT).ok()?;
    let mut core = Core::new(alloc, script).ok()?;
    let mut words = Pcg32::new(1, 1);
    let mut text = Vec::new(alloc);
    for _ in 0..200 {
        if !goes_on(alloc, &mut core, plan, &mut words)? {
            return Some(text);
        }
        core.last_text(true, &mut text).ok()?;
    }
    None
}

// Performs one step. Returns whether the run goes on, or `None` if the step fails.
fn goes_on(alloc: Global, core: &mut Core, plan: Plan, words: &mut Pcg32) -> Option<bool> {
    match core.next(words).ok()? {
        Turn::Over => return Some(false),
        Turn::Need => {
            core.made();
        }
        Turn::Ask { who } => {
            let acts = plan.answer(alloc, core, &who).ok()?;
            core.heard(acts).ok()?;
        }
        Turn::Moved | Turn::Leave { .. } => {}
    }
    Some(true)
}

// Returns whether the run of a plan writes a text.
fn writes(alloc: Global, plan: Plan, text: &str) -> bool {
    transcript(alloc, plan).is_some_and(|out| out.as_slice() == text.as_bytes())
}

#[test]
fn answers_as_values_are_refused_in_order(rt: HostRuntime) {
    let alloc = rt.alloc();
    assert!(rt; writes(alloc, Plan::NameTwice, NAME_TWICE));
    assert!(rt; writes(alloc, Plan::TooMany, TOO_MANY));
    assert!(rt; writes(alloc, Plan::CreateLate, CREATE_LATE));
    assert!(rt; writes(alloc, Plan::RaiseEarly, RAISE_EARLY));
}

const NAME_TWICE: &str = "did uvm_top create t uvm_test_top: made t
begin build
heard uvm_test_top build: 2
did uvm_test_top add x fifo 1: done
did uvm_test_top add x fifo 1: refused CLDEXT
UVM_FATAL @ 0: uvm_test_top [CLDEXT] child name taken
over exit
";

const TOO_MANY: &str = "did uvm_top create t uvm_test_top: made t
begin build
heard uvm_test_top build: 65
note ACTLIM uvm_test_top
UVM_FATAL @ 0: uvm_test_top [ACTLIM] more than 64 acts
over exit
";

const CREATE_LATE: &str = "did uvm_top create t uvm_test_top: made t
begin build
heard uvm_test_top build: 0
end build
begin connect
heard uvm_test_top connect: 1
did uvm_test_top create c a: refused ILLCRT
UVM_FATAL @ 0: uvm_test_top [ILLCRT] created after build
over exit
";

const RAISE_EARLY: &str = "did uvm_top create t uvm_test_top: made t
begin build
heard uvm_test_top build: 1
did uvm_test_top raise 1: refused NOTTASK
UVM_FATAL @ 0: uvm_test_top [NOTTASK] act outside a task phase
over exit
";
