//! Tests of rejected documents, of the choice of another test, and of a document that could not be read.

use crate::serving::{Outcome, reports, serve, serve_test};
use serve_jobs::{Pipe, serve_nothing};
use std::test::Fail;
use uvm_glob::Name;

const REFUSED: &[u8] = b"! serve 1\n! seed 7\n! end refused 2\n";

const TWO: &[u8] = b"version = 1
test = \"t\"
type = [{ name = \"t\", kind = \"component\" }, { name = \"u\", kind = \"component\" }]
";

fn is_refused(outcome: &Outcome) -> bool {
    outcome.output.as_slice() == REFUSED && outcome.verdict.status() == 2
}

#[test]
fn what_is_no_script_is_refused(rt: HostRuntime) -> Result<(), Fail> {
    let outcome = serve(rt.alloc(), b"version = ", b"")?;
    assert!(rt; is_refused(&outcome));
    Ok(())
}

#[test]
fn a_test_that_is_not_declared_is_refused(rt: HostRuntime) -> Result<(), Fail> {
    let name = Name::literal("v");
    let outcome = serve_test(rt.alloc(), TWO, b"", Some(&name), false)?;
    assert!(rt; is_refused(&outcome));
    let line = b"script_bench: f: test v is not declared in 'type' (script fault 8 UnknownType)\n";
    assert!(rt; reports(rt.alloc(), &outcome, line));
    Ok(())
}

#[test]
fn another_test_may_be_asked_for(rt: HostRuntime) -> Result<(), Fail> {
    let name = Name::literal("u");
    let outcome = serve_test(rt.alloc(), TWO, b"declined\n", Some(&name), false)?;
    assert!(rt; outcome.verdict.status() == 1);
    let asked = b"! serve 1\n! seed 7\n? need component u uvm_test_top\nUVM_FATAL @ 0: ";
    assert!(rt; outcome.output.as_slice().starts_with(asked));
    Ok(())
}

#[test]
fn a_file_that_is_not_read_is_none(rt: HostRuntime) -> Result<(), Fail> {
    let alloc = rt.alloc();
    let mut client = Pipe::new(alloc, b"".as_slice(), Vec::new(alloc))?;
    assert!(rt; serve_nothing(18446744073709551615, &mut client).is_ok());
    let want = b"! serve 1\n! seed 18446744073709551615\n! end broken 3\n".as_slice();
    assert!(rt; client.output().as_slice() == want);
    Ok(())
}
