//! Tests of the printed texts of severities and errors. The lemmas in proofs/ state the text of each.

use std::test::Fail;
use uvm_object::LogFault;
use uvm_report::{Severity, TextFault};
use uvm_sequencer::SeqFault;
use uvm_tlm::WireFault;

#[test]
fn severities_and_faults_are_printed(rt: HostRuntime) -> Result<(), Fail> {
    let (log, text) = (LogFault::Full, TextFault::TooLong);
    let (sequencer, wiring) = (SeqFault::Twice, WireFault::TooFew);
    let severity = Severity::Error;
    let printed = format!(in rt.alloc(); "{severity}, {log}, {text}, {sequencer}, {wiring}")?;
    let want = "UVM_ERROR, log full, more than 200 bytes, asked twice, too few connections";
    assert!(rt; printed.as_str() == want);
    Ok(())
}
