//! Tests of documents with answers: the objects of types with answers are scripted, and only the others are those of the client.

use crate::serving::{Outcome, reports, serve};
use std::alloc::{AllocError, Global};
use std::test::Fail;

// A test that starts a sequence. The text that follows it in a document decides which of the two is scripted.
const STARTER: &[u8] = b"version = 1
test = \"t\"
type = [{ name = \"t\", kind = \"component\" }, { name = \"q\", kind = \"sequence\" }]
";

const SCRIPTED_TEST: &[u8] = b"[answers.t]
build = [\"add sqr sequencer FIFO\"]
run = [\"raise 1\", \"start q s (sqr) none\"]
\"finished s 1\" = [\"drop 1\"]
";

const SCRIPTED_SEQUENCE: &[u8] = b"[answers.q]
pre_start = [\"end_step\"]
body = [\"end_step\"]
post_start = [\"end_step\"]
";

const SEQUENCE_ANSWERS: &[u8] = b"made
end_step

end_step

end_step

";

const SEQUENCE_DIALOGUE: &[u8] = b"! serve 1
! seed 7
? need sequence q uvm_test_top.sqr.s
! new sequence uvm_test_top.sqr@@s#1
? ask sequence uvm_test_top.sqr@@s#1 pre_start
? ask sequence uvm_test_top.sqr@@s#1 body
? ask sequence uvm_test_top.sqr@@s#1 post_start
! back sequence uvm_test_top.sqr@@s#1
";

const TEST_ANSWERS: &[u8] = b"made
add sqr sequencer FIFO




raise 1
start q s (sqr) none

drop 1





";

const TEST_DIALOGUE: &[u8] = b"! serve 1
! seed 7
? need component t uvm_test_top
! new component uvm_test_top
? ask component uvm_test_top build
? ask component uvm_test_top connect
? ask component uvm_test_top end_of_elaboration
? ask component uvm_test_top start_of_simulation
? ask component uvm_test_top run
? ask component uvm_test_top finished s 1
? ask component uvm_test_top extract
? ask component uvm_test_top check
? ask component uvm_test_top report
? ask component uvm_test_top final
";

const UNDECLARED: &[u8] = b"[answers.v]\n";

const REFUSED: &[u8] = b"! serve 1\n! seed 7\n! end refused 2\n";

const SUMMARY: &[u8] = b"--- UVM Report Summary ---
** Report counts by severity
UVM_INFO : 0
UVM_WARNING : 0
UVM_ERROR : 0
UVM_FATAL : 0
** Report counts by id
! end clean 0
";

fn joined(alloc: Global, parts: &[&[u8]]) -> Result<Vec<u8>, AllocError> {
    let mut text = Vec::new(alloc);
    for part in parts {
        text.extend_from_slice(part)?;
    }
    Ok(text)
}

// Returns whether a run is clean, with this dialogue before the summary. Errors: out of memory.
fn is_clean(alloc: Global, outcome: &Outcome, dialogue: &[u8]) -> Result<bool, AllocError> {
    let want = joined(alloc, &[dialogue, SUMMARY])?;
    Ok(outcome.output.as_slice() == want.as_slice() && outcome.verdict.status() == 0)
}

#[test]
fn a_scripted_component_is_not_asked_of_the_client(rt: HostRuntime) -> Result<(), Fail> {
    let alloc = rt.alloc();
    let document = joined(alloc, &[STARTER, SCRIPTED_TEST])?;
    let outcome = serve(alloc, document.as_slice(), SEQUENCE_ANSWERS)?;
    assert!(rt; is_clean(alloc, &outcome, SEQUENCE_DIALOGUE)?);
    Ok(())
}

#[test]
fn a_scripted_sequence_is_not_asked_of_the_client(rt: HostRuntime) -> Result<(), Fail> {
    let alloc = rt.alloc();
    let document = joined(alloc, &[STARTER, SCRIPTED_SEQUENCE])?;
    let outcome = serve(alloc, document.as_slice(), TEST_ANSWERS)?;
    assert!(rt; is_clean(alloc, &outcome, TEST_DIALOGUE)?);
    Ok(())
}

#[test]
fn nothing_is_asked_if_all_is_scripted(rt: HostRuntime) -> Result<(), Fail> {
    let alloc = rt.alloc();
    let document = joined(alloc, &[STARTER, SCRIPTED_TEST, SCRIPTED_SEQUENCE])?;
    let outcome = serve(alloc, document.as_slice(), b"")?;
    assert!(rt; is_clean(alloc, &outcome, b"! serve 1\n! seed 7\n")?);
    Ok(())
}

#[test]
fn answers_at_fault_are_refused(rt: HostRuntime) -> Result<(), Fail> {
    let alloc = rt.alloc();
    let document = joined(alloc, &[STARTER, UNDECLARED])?;
    let outcome = serve(alloc, document.as_slice(), b"made\n")?;
    assert!(rt; outcome.output.as_slice() == REFUSED);
    assert!(rt; outcome.verdict.status() == 2);
    assert!(rt;
        reports(
            alloc,
            &outcome,
            b"script_bench: f: answers.v: not declared in 'type'\n"
        )
    );
    Ok(())
}
