//! Runs of the bus bench in which the random numbers of a seed decide which sequence is granted. The expected grants come from a calculation
//! by hand, and from the reference model (`tools/second_machine`).

use crate::texts::joined;
use bus_jobs::{Verdict, run_bench};
use std::alloc::{AllocError, Global};

/// The script with all types of the bench and the test `bus_test`.
pub(crate) const BUS: &str = r#"
version = 1
test = "bus_test"
type = [
  { name = "idle", kind = "component" },
  { name = "pulse", kind = "component" },
  { name = "loud", kind = "component" },
  { name = "sleeper", kind = "component" },
  { name = "spinner", kind = "component" },
  { name = "bus_test", kind = "component" },
  { name = "bus_env", kind = "component" },
  { name = "bus_agent", kind = "component" },
  { name = "bus_driver", kind = "component" },
  { name = "slow_driver", kind = "component" },
  { name = "bus_monitor", kind = "component" },
  { name = "bus_mem", kind = "component" },
  { name = "bus_mem_bad", kind = "component" },
  { name = "bus_scoreboard", kind = "component" },
  { name = "seq_smoke", kind = "sequence" },
  { name = "seq_burst", kind = "sequence" },
  { name = "seq_pair", kind = "sequence" },
]
"#;

// Two pairs in a pair: four sequences that compete for one driver, none of which locks. The arbitration mode follows this text.
const CROWD: &str = r#"
override = [
  { orig = "seq_smoke", new = "seq_pair", at = "uvm_test_top.env.agent.sqr.seq" },
  { orig = "seq_smoke", new = "seq_pair", at = "uvm_test_top.env.agent.sqr.seq.a" },
  { orig = "seq_burst", new = "seq_pair", at = "uvm_test_top.env.agent.sqr.seq.b" },
  { orig = "seq_burst", new = "seq_smoke" },
]
set = [{ scope = "*", field = "arb", value = "#;

// The lines after those of the monitor.
const CROWD_END: &str = "UVM_INFO @ 16: uvm_test_top.env.sb [SB] 8 seen 0 bad
--- UVM Report Summary ---
** Report counts by severity
UVM_INFO : 9
UVM_WARNING : 0
UVM_ERROR : 0
UVM_FATAL : 0
** Report counts by id
[MON] 8
[SB] 1
";

// Returns the text of a run of the crowd: the monitor reports a transfer every two ticks, a write at `writes` and a read at other times.
fn crowd_text(alloc: Global, writes: [u64; 4]) -> Result<String, AllocError> {
    let mut text = String::new(alloc);
    for time in [2, 4, 6, 8, 10, 12, 14, 16] {
        let transfer = if writes.contains(&time) {
            "write"
        } else {
            "read"
        };
        writeln!(
            text,
            "UVM_INFO @ {time}: uvm_test_top.env.agent.mon [MON] {transfer} 0 10"
        )?;
    }
    text.push_str(CROWD_END)?;
    Ok(text)
}

// Returns whether a run of the crowd in an arbitration mode is clean and writes at these times.
fn crowd_writes(alloc: Global, mode: &str, seed: u64, writes: [u64; 4]) -> bool {
    match (
        joined(alloc, &[BUS, CROWD, mode, " }]\n"]),
        crowd_text(alloc, writes),
    ) {
        (Ok(script), Ok(text)) => {
            let mut out = Vec::new(alloc);
            run_bench(alloc, script.as_bytes(), seed, None, false, &mut out) == Verdict::Clean
                && out.as_slice() == text.as_bytes()
        }
        _ => false,
    }
}

// Each sequence writes and then reads, so the times of the writes show which sequence is granted.
#[test]
fn random_numbers_of_the_seed_decide_grants(rt: HostRuntime) {
    let (weighted, random, strict_random) = ("1", "2", "4");
    for (mode, seed, writes) in [
        (weighted, 1, [2, 4, 6, 10]),
        (random, 1, [2, 4, 6, 12]),
        (strict_random, 1, [2, 4, 6, 8]),
        (weighted, u64::MAX, [2, 4, 6, 10]),
        (random, u64::MAX, [2, 4, 6, 14]),
        (strict_random, u64::MAX, [2, 4, 6, 10]),
    ] {
        assert!(rt;
            crowd_writes(rt.alloc(), mode, seed, writes),
            "{mode} by {seed}"
        );
    }
}
