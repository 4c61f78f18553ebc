//! Tests of the objects that a kernel needs and returns: objects whose answers are data, and boxed objects. The texts are the parts of a
//! run that show an object. The stored run of `script_bench` shows the rest.

use crate::runs::IDLE;
use test_runs::{Scenario, make_mute, make_spinner, shows, shows_in_boxes, shows_with};

/// A path at which no object is needed.
const NEVER: &[u8] = b"never";

#[test]
fn idle_test_runs_to_the_end(rt: HostRuntime) {
    assert!(rt; shows(rt.alloc(), IDLE, Scenario::Run(NEVER, NEVER, IDLE_RUN)));
}

const IDLE_RUN: &str = "over finished
over
live 1
uvm_test_top
none
live 0
";

// A test that creates an environment.
const ENVIRONMENT: &[u8] = b"version = 1
test = \"bus_test\"
type = [{ name = \"bus_test\", kind = \"component\" }, { name = \"bus_env\", kind = \"component\" }]
answers.bus_test.build = [\"create bus_env env\"]
";

#[test]
fn object_of_another_type_comes_back_and_the_child_is_declined(rt: HostRuntime) {
    let scenario = Scenario::Run(b"uvm_test_top.env", NEVER, DECLINED_RUN);
    assert!(rt; shows(rt.alloc(), ENVIRONMENT, scenario));
}

const DECLINED_RUN: &str = "did uvm_top create bus_test uvm_test_top: made bus_test
begin build
heard uvm_test_top build: 1
need bus_env uvm_test_top.env
unfit idle
did uvm_test_top create bus_env env: refused FCTTYP
UVM_FATAL @ 0: uvm_test_top [FCTTYP] no object supplied
over exit
over
live 1
uvm_test_top
none
live 0
";

// A test that creates three environments.
const ENVIRONMENTS: &[u8] = b"version = 1
test = \"bus_test\"
type = [{ name = \"bus_test\", kind = \"component\" }, { name = \"bus_env\", kind = \"component\" }]
answers.bus_test.build = [\"create bus_env b\", \"create bus_env a\", \"create bus_env c\"]
";

#[test]
fn abandoned_run_gives_back_each_object_down(rt: HostRuntime) {
    let scenario = Scenario::Run(NEVER, b"uvm_test_top.c", ABANDONED_RUN);
    assert!(rt; shows(rt.alloc(), ENVIRONMENTS, scenario));
}

const ABANDONED_RUN: &str = "did uvm_top create bus_test uvm_test_top: made bus_test
begin build
heard uvm_test_top build: 3
did uvm_test_top create bus_env b: made bus_env
did uvm_test_top create bus_env a: made bus_env
need bus_env uvm_test_top.c
failed
live 3
uvm_test_top
uvm_test_top.a
uvm_test_top.b
none
live 0
";

// A sequence that ends each of its steps immediately.
const SEQUENCE: &[u8] = b"version = 1
test = \"bus_test\"
type = [{ name = \"bus_test\", kind = \"component\" }, { name = \"seq\", kind = \"sequence\" }]
[answers.bus_test]
build = [\"add sqr sequencer FIFO\"]
run = [\"start seq a (sqr) none\"]
[answers.seq]
\"*\" = [\"end_step\"]
";

#[test]
fn object_of_a_finished_sequence_comes_back_at_once(rt: HostRuntime) {
    assert!(rt;
        shows(
            rt.alloc(),
            SEQUENCE,
            Scenario::Run(NEVER, NEVER, FINISHED_RUN)
        )
    );
}

const FINISHED_RUN: &str = "did uvm_test_top.sqr@@a#1 end_step: finished
back 1
heard uvm_test_top finished a 1: 0
end run
";

// Two sequences that stay at their first step.
const SEQUENCES: &[u8] = b"version = 1
test = \"bus_test\"
type = [{ name = \"bus_test\", kind = \"component\" }, { name = \"seq\", kind = \"sequence\" }]
[answers.bus_test]
build = [\"add sqr sequencer FIFO\"]
run = [\"start seq a (sqr) none\", \"start seq b (sqr) none\"]
";

#[test]
fn objects_of_sequences_come_back_with_their_phase(rt: HostRuntime) {
    assert!(rt;
        shows(
            rt.alloc(),
            SEQUENCES,
            Scenario::Run(NEVER, NEVER, ENDED_RUN)
        )
    );
}

const ENDED_RUN: &str = "heard uvm_test_top.sqr@@b#2 pre_start: 0
end run
back 1
back 2
begin extract
";

// The driver requests an item in run. A sequence of main is granted and sends no item.
const GRANTED_IN_MAIN: &[u8] = b"version = 1
test = \"t\"
runtime = true
type = [{ name = \"t\", kind = \"component\" }, { name = \"a\", kind = \"sequence\" }]
[answers.t]
build = [\"add sqr sequencer FIFO\", \"add sqp port seq\"]
connect = [\"connect (sqp) (sqr)\"]
run = [\"ask sqp next\"]
main = [\"raise 1\", \"start a a (sqr) none\", \"wait 3 1\"]
\"wake 1\" = [\"drop 1\"]
[answers.a]
pre_start = [\"request none\"]
";

#[test]
fn object_of_a_granted_sequence_comes_back_with_main(rt: HostRuntime) {
    assert!(rt;
        shows(
            rt.alloc(),
            GRANTED_IN_MAIN,
            Scenario::Run(NEVER, NEVER, GRANT_ENDED)
        )
    );
}

const GRANT_ENDED: &str = "granted uvm_test_top.sqr uvm_test_top.sqr@@a#1
heard uvm_test_top.sqr@@a#1 grant: 0
time 3
heard uvm_test_top wake 1: 1
did uvm_test_top drop 1: done
end main
back 1
begin post_main
";

#[test]
fn abandoned_run_gives_back_sequences_first(rt: HostRuntime) {
    let scenario = Scenario::Run(NEVER, b"uvm_test_top.sqr.b", ABANDONED_STARTS);
    assert!(rt; shows(rt.alloc(), SEQUENCES, scenario));
}

const ABANDONED_STARTS: &str = "did uvm_test_top start seq a (sqr) none: started 1
need seq uvm_test_top.sqr.b
failed
live 2
uvm_test_top.sqr
uvm_test_top
none
live 0
";

#[test]
fn object_that_gives_no_answer_fails_the_kernel(rt: HostRuntime) {
    assert!(rt; shows_with(rt.alloc(), IDLE, Scenario::Break(UNANSWERED), &make_mute));
}

const UNANSWERED: &str = "out of memory
2 entries
begin build
failed
live 1
uvm_test_top
none
live 0
";

#[test]
fn boxed_spinner_comes_back_after_a_full_log(rt: HostRuntime) {
    assert!(rt; shows_in_boxes(rt.alloc(), IDLE, 1, Scenario::Break(SPUN)));
}

#[test]
fn spinner_comes_back_after_a_full_log(rt: HostRuntime) {
    assert!(rt; shows_with(rt.alloc(), IDLE, Scenario::Break(SPUN), &make_spinner));
}

const SPUN: &str = "log full
1000000 entries
did uvm_test_top wait 0 1: done
failed
live 1
uvm_test_top
none
live 0
";

// The `wake` calls of the spinner in run are due immediately, so it never receives its call for pre_reset.
#[test]
fn spinner_in_run_lets_no_run_time_phase_go_on(rt: HostRuntime) {
    assert!(rt;
        shows_with(
            rt.alloc(),
            IDLE_IN_PHASES,
            Scenario::Break(SPUN_BESIDE),
            &make_spinner
        )
    );
}

const IDLE_IN_PHASES: &[u8] =
    b"version = 1\ntest = \"idle\"\nruntime = true\ntype = [{ name = \"idle\", kind = \"component\" }]\n";

const SPUN_BESIDE: &str = "log full
1000000 entries
heard uvm_test_top wake 1: 1
failed
live 1
uvm_test_top
none
live 0
";

#[test]
fn boxed_object_of_too_many_acts_comes_back(rt: HostRuntime) {
    let scenario = Scenario::Run(NEVER, NEVER, TOO_MANY_ACTS);
    assert!(rt; shows_in_boxes(rt.alloc(), IDLE, 65, scenario));
}

const TOO_MANY_ACTS: &str = "heard uvm_test_top run: 65
note ACTLIM uvm_test_top
UVM_FATAL @ 0: uvm_test_top [ACTLIM] more than 64 acts
over exit
over
live 1
uvm_test_top
none
live 0
";

#[test]
fn script_without_a_test_has_no_kernel(rt: HostRuntime) {
    assert!(rt; shows(rt.alloc(), b"version = 1", Scenario::Nothing));
}
