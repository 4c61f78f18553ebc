//! Tests of the exit status of a verdict, and of the line that reports it.

use crate::writers::Narrow;
use bench_script::ScriptFault;
use bus_jobs::{Breakage, Verdict, tell};
use std::alloc::Global;

/// Returns whether a verdict is reported by this status and this line, and by the same status if the line cannot be written.
pub(crate) fn is_told(alloc: Global, verdict: Verdict, status: u8, line: &str) -> bool {
    let mut err = Vec::new(alloc);
    tell(&verdict, &mut err) == status
        && err.as_slice() == line.as_bytes()
        && tell(&verdict, &mut Narrow::failing(alloc, 0)) == status
}

#[test]
fn verdicts_are_told(rt: HostRuntime) {
    let alloc = rt.alloc();
    let not_toml = Verdict::Refused(ScriptFault::NotToml);
    assert!(rt; is_told(alloc, Verdict::Clean, 0, ""));
    assert!(rt; is_told(alloc, Verdict::Faulty, 1, ""));
    assert!(rt; is_told(alloc, not_toml, 2, "bus_bench: script fault 2 NotToml\n"));
    let no_memory = Verdict::Refused(ScriptFault::Memory);
    assert!(rt; is_told(alloc, no_memory, 2, "bus_bench: script fault 11 Memory\n"));
}

#[test]
fn breakages_are_told(rt: HostRuntime) {
    for (breakage, line) in [
        (Breakage::Memory, "bus_bench: memory\n"),
        (Breakage::LogFull, "bus_bench: log full\n"),
        (Breakage::Output, "bus_bench: output fault\n"),
        (Breakage::Unread, "bus_bench: cannot read the file\n"),
    ] {
        assert!(rt;
            is_told(rt.alloc(), Verdict::Broken(breakage), 3, line),
            "of {line}"
        );
    }
}
