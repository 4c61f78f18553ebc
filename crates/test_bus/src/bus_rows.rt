//! Runs of the objects of the bus bench without a trace, compared byte by byte with the texts of the requirements. The stored run of
//! `script_bench` shows the same runs with a trace.

use crate::bus_runs::BUS;
use crate::runs::SUMMARY;
use crate::texts::joined;
use bus_jobs::{Verdict, run_bench};
use std::alloc::Global;

// The rest of a script after its version: a test whose type has the same name.
const LOUD: &str = "test = \"loud\"
quit_limit = 2
type = [{ name = \"loud\", kind = \"component\" }]
";

const PULSE: &str = "test = \"pulse\"
type = [{ name = \"pulse\", kind = \"component\" }]
";

const SLEEPER: &str = "test = \"sleeper\"
time_limit = 100
type = [{ name = \"sleeper\", kind = \"component\" }]
set = [{ scope = \"*\", field = \"at\", value = ";

// A memory that flips a bit of the data that it reads, and a driver that waits.
const FAULTY: &str = r#"
override = [
  { orig = "bus_mem", new = "bus_mem_bad" },
  { orig = "bus_driver", new = "slow_driver", at = "uvm_test_top.env.agent.*" },
]
set = [{ scope = "*", field = "waits", value = 1 }]
"#;

// Two sequences instead of one, of which one locks the sequencer.
const PAIR: &str = r#"
override = [{ orig = "seq_smoke", new = "seq_pair", at = "uvm_test_top.env.agent.sqr.seq" }]
"#;

const FAULTY_TEXT: &str = "UVM_INFO @ 4: uvm_test_top.env.agent.mon [MON] write 0 10
UVM_INFO @ 8: uvm_test_top.env.agent.mon [MON] read 0 11
UVM_ERROR @ 8: uvm_test_top.env.sb [SB] read 0 gave 11 not 10
UVM_INFO @ 8: uvm_test_top.env.sb [SB] 2 seen 1 bad
--- UVM Report Summary ---
** Report counts by severity
UVM_INFO : 3
UVM_WARNING : 0
UVM_ERROR : 1
UVM_FATAL : 0
** Report counts by id
[MON] 2
[SB] 2
";

const PAIR_TEXT: &str = "UVM_INFO @ 2: uvm_test_top.env.agent.mon [MON] write 0 10
UVM_INFO @ 4: uvm_test_top.env.agent.mon [MON] write 0 20
UVM_INFO @ 6: uvm_test_top.env.agent.mon [MON] write 1 21
UVM_INFO @ 8: uvm_test_top.env.agent.mon [MON] read 0 20
UVM_INFO @ 10: uvm_test_top.env.agent.mon [MON] read 1 21
UVM_INFO @ 12: uvm_test_top.env.agent.mon [MON] read 0 20
UVM_INFO @ 12: uvm_test_top.env.sb [SB] 6 seen 0 bad
--- UVM Report Summary ---
** Report counts by severity
UVM_INFO : 7
UVM_WARNING : 0
UVM_ERROR : 0
UVM_FATAL : 0
** Report counts by id
[MON] 6
[SB] 1
";

const LOUD_TEXT: &str = "UVM_ERROR @ 0: uvm_test_top [E] one
UVM_ERROR @ 0: uvm_test_top [E] two
--- UVM Report Summary ---
Quit count : 2 of 2
** Report counts by severity
UVM_INFO : 0
UVM_WARNING : 0
UVM_ERROR : 2
UVM_FATAL : 0
** Report counts by id
[E] 2
";

// The summary of one fatal report, before the line of its id.
const ONE_FATAL: &str = "--- UVM Report Summary ---
** Report counts by severity
UVM_INFO : 0
UVM_WARNING : 0
UVM_ERROR : 0
UVM_FATAL : 1
** Report counts by id
";

// Returns whether a run of the script that the parts make, with the seed 1, ends with a verdict and writes the text of the other parts.
fn writes(alloc: Global, script: &[&str], verdict: Verdict, text: &[&str]) -> bool {
    match (joined(alloc, script), joined(alloc, text)) {
        (Ok(script), Ok(text)) => {
            let mut out = Vec::new(alloc);
            run_bench(alloc, script.as_bytes(), 1, None, false, &mut out) == verdict
                && out.as_slice() == text.as_bytes()
        }
        _ => false,
    }
}

#[test]
fn faulty_memory_is_found(rt: HostRuntime) {
    assert!(rt; writes(rt.alloc(), &[BUS, FAULTY], Verdict::Faulty, &[FAULTY_TEXT]));
}

#[test]
fn two_sequences_share_the_driver(rt: HostRuntime) {
    assert!(rt; writes(rt.alloc(), &[BUS, PAIR], Verdict::Clean, &[PAIR_TEXT]));
}

#[test]
fn errors_end_the_run_at_the_quit_limit(rt: HostRuntime) {
    let script = ["version = 1\n", LOUD];
    assert!(rt; writes(rt.alloc(), &script, Verdict::Faulty, &[LOUD_TEXT]));
}

#[test]
fn objections_of_pulse_are_all_dropped(rt: HostRuntime) {
    let script = ["version = 1\n", PULSE];
    assert!(rt; writes(rt.alloc(), &script, Verdict::Clean, &[SUMMARY]));
}

#[test]
fn sleeper_sleeps_as_long_as_it_may(rt: HostRuntime) {
    for (at, line, id) in [
        (
            "101",
            "UVM_FATAL @ 0: uvm_top [PH_TIMEOUT] time limit passed\n",
            "[PH_TIMEOUT] 1\n",
        ),
        (
            "-1",
            "UVM_FATAL @ 0: uvm_top [STALL] objection stands and nothing is due\n",
            "[STALL] 1\n",
        ),
        (
            "1000000000000001",
            "UVM_FATAL @ 0: uvm_test_top [ACTRNG] value out of range\n",
            "[ACTRNG] 1\n",
        ),
    ] {
        let script = ["version = 1\n", SLEEPER, at, " }]\n"];
        let text = [line, ONE_FATAL, id];
        assert!(rt;
            writes(rt.alloc(), &script, Verdict::Faulty, &text),
            "at {at}"
        );
    }
    let script = ["version = 1\n", SLEEPER, "100", " }]\n"];
    assert!(rt; writes(rt.alloc(), &script, Verdict::Clean, &[SUMMARY]));
}
