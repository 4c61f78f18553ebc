//! Scripts that are not texts of a few lines: bytes that are not text, a text of the greatest length, and long arrays. Also the messages of
//! faults.

use bench_script::{ScriptFault, read};
use std::alloc::{AllocError, Global};
use std::test::Fail;

// Returns the fault of a script of this many spaces, followed by some bytes, or `Memory` if memory for the script runs out.
fn fault_behind_spaces(alloc: Global, spaces: usize, bytes: &[u8]) -> Option<ScriptFault> {
    match vec![in alloc; b' '; spaces] {
        Ok(mut script) => match script.extend_from_slice(bytes) {
            Ok(()) => read(alloc, script.as_slice()).err(),
            Err(_) => Some(ScriptFault::Memory),
        },
        Err(_) => Some(ScriptFault::Memory),
    }
}

// Checks the message of a fault. No clause of a contract states it.
#[test]
fn a_fault_has_words_for_a_person(rt: HostRuntime) -> Result<(), Fail> {
    let (not_toml, memory) = (ScriptFault::NotToml, ScriptFault::Memory);
    let told = format!(in rt.alloc(); "{not_toml}, {memory}")?;
    assert!(rt; told.as_str() == "the text is not TOML, out of memory");
    Ok(())
}

#[test]
fn faults_before_the_keys(rt: HostRuntime) {
    let alloc = rt.alloc();
    let longest = 1_048_576;
    assert!(rt; fault_behind_spaces(alloc, longest, b"") == Some(ScriptFault::Missing));
    assert!(rt; fault_behind_spaces(alloc, longest, b" ") == Some(ScriptFault::TooLong));
    assert!(rt; fault_behind_spaces(alloc, longest, b" \xff") == Some(ScriptFault::TooLong));
    assert!(rt; fault_behind_spaces(alloc, 0, b"version = \xff") == Some(ScriptFault::NotText));
}

// Returns the fault of a script with an array of this many elements, none of them a table. Returns `Memory` if memory for the script runs
// out.
fn fault_of_elements(alloc: Global, key: &str, count: usize) -> Option<ScriptFault> {
    let mut text = Vec::new(alloc);
    match push_elements(key, count, &mut text) {
        Ok(()) => read(alloc, text.as_slice()).err(),
        Err(_) => Some(ScriptFault::Memory),
    }
}

fn push_elements(key: &str, count: usize, text: &mut Vec<u8>) -> Result<(), AllocError> {
    text.extend_from_slice(b"version = 1\n")?;
    text.extend_from_slice(key.as_bytes())?;
    text.extend_from_slice(b" = [")?;
    for _ in 0..count {
        text.extend_from_slice(b"1,")?;
    }
    text.extend_from_slice(b"]")
}

#[test]
fn types_and_settings_are_counted_before_they_are_read(rt: HostRuntime) {
    let alloc = rt.alloc();
    assert!(rt; fault_of_elements(alloc, "type", 1024) == Some(ScriptFault::WrongKind));
    assert!(rt; fault_of_elements(alloc, "type", 1025) == Some(ScriptFault::OutOfRange));
    assert!(rt; fault_of_elements(alloc, "set", 65_536) == Some(ScriptFault::WrongKind));
    assert!(rt; fault_of_elements(alloc, "set", 65_537) == Some(ScriptFault::OutOfRange));
}
