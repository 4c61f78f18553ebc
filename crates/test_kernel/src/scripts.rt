//! Tests of scripts with many rows.

use bench_script::read;
use std::alloc::{AllocError, Global};

#[test]
fn drain_times_have_no_limit_to_their_number(rt: HostRuntime) {
    assert!(rt; drains_read(rt.alloc(), 4_097) == Some(4_097));
}

// Returns the number of drain times of a script whose text has `count` drain times.
fn drains_read(alloc: Global, count: usize) -> Option<usize> {
    let text = with_drains(alloc, count).ok()?;
    match read(alloc, text.as_bytes()) {
        Ok(script) => Some(script.drains().len()),
        Err(_) => None,
    }
}

fn with_drains(alloc: Global, count: usize) -> Result<String, AllocError> {
    let mut text = String::new(alloc);
    text.push_str("version = 2\n")?;
    for _ in 0..count {
        text.push_str("[[drain]]\npath = \"t\"\nphase = \"run\"\nticks = 1\n")?;
    }
    Ok(text)
}
