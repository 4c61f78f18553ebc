//! Tests of whole dialogues.

use crate::serving::{Outcome, reports, serve, serve_test};
use std::test::Fail;

const GREETER: &[u8] = b"version = 1
test = \"greeter\"
type = [{ name = \"greeter\", kind = \"component\" }]
";

const ANSWERS: &[u8] = b"made




raise 1
wait 10 0

report INFO HELLO 100 hello
drop 1





";

const DIALOGUE: &[u8] = b"! serve 1
! seed 7
? need component greeter uvm_test_top
! new component uvm_test_top
? ask component uvm_test_top build
? ask component uvm_test_top connect
? ask component uvm_test_top end_of_elaboration
? ask component uvm_test_top start_of_simulation
? ask component uvm_test_top run
! time 10
? ask component uvm_test_top wake 0
UVM_INFO @ 10: uvm_test_top [HELLO] hello
? ask component uvm_test_top extract
? ask component uvm_test_top check
? ask component uvm_test_top report
? ask component uvm_test_top final
--- UVM Report Summary ---
** Report counts by severity
UVM_INFO : 1
UVM_WARNING : 0
UVM_ERROR : 0
UVM_FATAL : 0
** Report counts by id
[HELLO] 1
! end clean 0
";

const STARTER: &[u8] = b"version = 1
test = \"t\"
type = [{ name = \"t\", kind = \"component\" }, { name = \"q\", kind = \"sequence\" }]
";

const STARTER_ANSWERS: &[u8] = b"made
add sqr sequencer FIFO




raise 1
start q s (sqr) none

made
end_step

end_step

end_step

drop 1





";

const STARTER_DIALOGUE: &[u8] = b"! serve 1
! seed 7
? need component t uvm_test_top
! new component uvm_test_top
? ask component uvm_test_top build
? ask component uvm_test_top connect
? ask component uvm_test_top end_of_elaboration
? ask component uvm_test_top start_of_simulation
? ask component uvm_test_top run
? need sequence q uvm_test_top.sqr.s
! new sequence uvm_test_top.sqr@@s#1
? ask sequence uvm_test_top.sqr@@s#1 pre_start
? ask sequence uvm_test_top.sqr@@s#1 body
? ask sequence uvm_test_top.sqr@@s#1 post_start
! back sequence uvm_test_top.sqr@@s#1
? ask component uvm_test_top finished s 1
? ask component uvm_test_top extract
? ask component uvm_test_top check
? ask component uvm_test_top report
? ask component uvm_test_top final
--- UVM Report Summary ---
** Report counts by severity
UVM_INFO : 0
UVM_WARNING : 0
UVM_ERROR : 0
UVM_FATAL : 0
** Report counts by id
! end clean 0
";

const TRACED: &[u8] = b"! serve 1
! seed 7
? need component greeter uvm_test_top
! new component uvm_test_top
did uvm_top create greeter uvm_test_top: made greeter
begin build
? ask component uvm_test_top build
heard uvm_test_top build: 0
end build
begin connect
? ask component uvm_test_top connect
heard uvm_test_top connect: 0
end connect
";

// The answers to a run of the greeter without actions: the answer to its last call, `final`, is missing.
const CUT: &[u8] = b"made








";

fn is_clean(outcome: &Outcome, want: &[u8]) -> bool {
    outcome.output.as_slice() == want && outcome.verdict.status() == 0
}

#[test]
fn a_component_is_asked(rt: HostRuntime) -> Result<(), Fail> {
    let outcome = serve(rt.alloc(), GREETER, ANSWERS)?;
    assert!(rt; is_clean(&outcome, DIALOGUE));
    assert!(rt; reports(rt.alloc(), &outcome, b""));
    Ok(())
}

#[test]
fn a_sequence_is_asked_and_noticed(rt: HostRuntime) -> Result<(), Fail> {
    let outcome = serve(rt.alloc(), STARTER, STARTER_ANSWERS)?;
    assert!(rt; is_clean(&outcome, STARTER_DIALOGUE));
    Ok(())
}

#[test]
fn entries_are_told_after_their_answers(rt: HostRuntime) -> Result<(), Fail> {
    let outcome = serve_test(rt.alloc(), GREETER, CUT, None, true)?;
    assert!(rt; outcome.output.as_slice().starts_with(TRACED));
    Ok(())
}
