//! Tests of the queries of a core during a run.

use test_runs::{Count, Scenario, answered, shows};
use uvm_phase::Phase;

const SCRIPT: &[u8] =
    b"version = 1\ntest = \"t\"\ntype = [{ name = \"t\", kind = \"component\" }, { name = \"c\", kind = \"component\" }]
set = [{ scope = \"*\", field = \"f\", value = 7 }]\n";

#[test]
fn need_is_told_until_it_is_met_and_then_the_phase_and_the_nodes(rt: HostRuntime) {
    assert!(rt; shows(rt.alloc(), SCRIPT, Scenario::Begin));
}

// The test puts an item for its child `mem`, and takes the item that `mem` puts two ticks later.
const MEMORY: &[u8] = b"version = 1
test = \"t\"
type = [{ name = \"t\", kind = \"component\" }, { name = \"c\", kind = \"component\" }]
[answers.t]
build = [\"create c mem\", \"add reqf fifo 1\", \"add rspf fifo 1\", \"add req port put\", \"add rsp port get\"]
connect = [\"connect (req) (reqf)\", \"connect (mem.req) (reqf)\", \"connect (rsp) (rspf)\", \"connect (mem.rsp) (rspf)\"]
run = [\"raise 1\", \"put req [1,0,10,0]\"]
\"stored req\" = [\"take rsp\"]
\"taken rsp *\" = [\"drop 1\"]
[answers.c]
build = [\"add req port get\", \"add rsp port put\"]
run = [\"take req\"]
\"taken req *\" = [\"wait 2 1\"]
\"wake 1\" = [\"put rsp [1,0,10,0]\"]
\"stored rsp\" = [\"take req\"]
";

#[test]
fn waits_at_a_fifo_are_counted_until_the_phase_ends(rt: HostRuntime) {
    assert!(rt;
        shows(
            rt.alloc(),
            MEMORY,
            Scenario::Counts(Count::Waiting, b"uvm_test_top.reqf", "121010")
        )
    );
    assert!(rt;
        shows(
            rt.alloc(),
            MEMORY,
            Scenario::Counts(Count::Waiting, b"uvm_test_top.rspf", "1210")
        )
    );
}

#[test]
fn nobody_waits_where_no_fifo_stands(rt: HostRuntime) {
    assert!(rt;
        shows(
            rt.alloc(),
            MEMORY,
            Scenario::Counts(Count::Waiting, b"uvm_test_top.req", "")
        )
    );
}

// Three sequences send one item each. All three wait before the driver requests an item, and each grant ends a wait.
const PRIORITIES: &[u8] = b"version = 1
test = \"t\"
type = [{ name = \"t\", kind = \"component\" }, { name = \"q\", kind = \"sequence\" }]
[answers.t]
build = [\"add sqr sequencer STRICT_FIFO\", \"add sqp port seq\"]
connect = [\"connect (sqp) (sqr)\"]
run = [\"raise 3\", \"start q a (sqr) 10\", \"start q b (sqr) 30\", \"start q c (sqr) 30\", \"wait 1 1\"]
\"wake 1\" = [\"ask sqp next\"]
\"next_item sqp *\" = [\"item_done sqp none\", \"ask sqp next\"]
\"finished *\" = [\"drop 1\"]
[answers.q]
pre_start = [\"request none\"]
grant = [\"send [1,0,10,0]\"]
\"item_done *\" = [\"end_step\", \"end_step\", \"end_step\"]
";

#[test]
fn waits_at_a_sequencer_are_counted(rt: HostRuntime) {
    assert!(rt;
        shows(
            rt.alloc(),
            PRIORITIES,
            Scenario::Counts(Count::Waiting, b"uvm_test_top.sqr", "123210")
        )
    );
}

#[test]
fn what_is_raised_is_counted_in_its_phase_alone(rt: HostRuntime) {
    let top = b"uvm_test_top";
    assert!(rt;
        shows(
            rt.alloc(),
            PRIORITIES,
            Scenario::Counts(Count::Raised(Phase::Run), top, "3210")
        )
    );
    assert!(rt;
        shows(
            rt.alloc(),
            PRIORITIES,
            Scenario::Counts(Count::Raised(Phase::Main), top, "")
        )
    );
}

// The third put waits after the second, and ends with main, in which it was requested. The second drop in main fails: it does not drop
// the objection that was raised in run.
const PHASES: &[u8] = b"version = 1
test = \"t\"
runtime = true
type = [{ name = \"t\", kind = \"component\" }]
severity = [{ scope = \"*\", from = \"FATAL\", to = \"WARNING\" }]
[answers.t]
build = [\"add f fifo 1\", \"add p port put\", \"add g port get\"]
connect = [\"connect (p) (f)\", \"connect (g) (f)\"]
run = [\"raise 1\", \"put p [1,0,0,0]\", \"put p [2,0,0,0]\", \"wait 9 9\"]
main = [\"raise 1\", \"put p [3,0,0,0]\", \"wait 2 1\"]
post_main = [\"take g\", \"take g\"]
\"wake 1\" = [\"drop 1\", \"drop 1\"]
\"wake 9\" = [\"drop 1\"]
";

#[test]
fn waits_end_with_their_phase_alone(rt: HostRuntime) {
    assert!(rt;
        shows(
            rt.alloc(),
            PHASES,
            Scenario::Counts(Count::Waiting, b"uvm_test_top.f", "1012121010")
        )
    );
}

// A sequence of run requests an item, and then two sequences of main do. The requests of these two end with main.
const REQUESTS_OF_TWO_PHASES: &[u8] = b"version = 1
test = \"t\"
runtime = true
type = [{ name = \"t\", kind = \"component\" }, { name = \"q\", kind = \"sequence\" }]
[answers.t]
build = [\"add sqr sequencer FIFO\"]
run = [\"start q a (sqr) none\"]
main = [\"raise 1\", \"start q b (sqr) none\", \"start q c (sqr) none\", \"wait 2 1\"]
\"wake 1\" = [\"drop 1\"]
[answers.q]
pre_start = [\"request none\"]
";

#[test]
fn requests_end_with_the_phase_of_their_sequence(rt: HostRuntime) {
    assert!(rt;
        shows(
            rt.alloc(),
            REQUESTS_OF_TWO_PHASES,
            Scenario::Counts(Count::Waiting, b"uvm_test_top.sqr", "12310")
        )
    );
}

#[test]
fn objections_of_two_phases_are_counted_apart(rt: HostRuntime) {
    let top = b"uvm_test_top";
    assert!(rt;
        shows(
            rt.alloc(),
            PHASES,
            Scenario::Counts(Count::Raised(Phase::Run), top, "10")
        )
    );
    assert!(rt;
        shows(
            rt.alloc(),
            PHASES,
            Scenario::Counts(Count::Raised(Phase::Main), top, "10")
        )
    );
    assert!(rt;
        shows(
            rt.alloc(),
            PHASES,
            Scenario::Counts(Count::Raised(Phase::Build), top, "")
        )
    );
}

const KEYS: &[u8] = b"version = 1
test = \"t\"
type = [{ name = \"t\", kind = \"component\" }]
[answers.t]
\"*\" = [\"get f\"]
build = [[\"get a\"], [\"get b\"]]
run = [\"raise 1\"]
";

// The key `build` has two answers, each given once; `*` is the shortest key, and answers the third call.
#[test]
fn keys_tell_how_often_they_have_answered(rt: HostRuntime) {
    let text = answered(rt.alloc(), KEYS, "t", 3);
    assert!(rt; text.is_some_and(|text| text.as_str() == "201"));
}
