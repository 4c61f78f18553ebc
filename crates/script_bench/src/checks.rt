//! The command `check`.

use crate::files::{BROKEN, REFUSED, bytes_of, report_unread};
use script_check::{Finding, Level, check};
use script_input::Breakage;
use std::io;
use std::io::Write;
use std::rt::Files;

/// Checks files one after another, and writes what is found in each. With `serves`, the types without answers are those of a client. Returns
/// the greatest exit status: 0 if no file is rejected, 2 if one is, 3 if a file was not read, memory runs out or the output fails.
pub fn check_files<R: Files + AllocGlobal, O: Write, E: Write>(
    rt: &R,
    files: &[&str],
    serves: bool,
    out: &mut O,
    err: &mut E,
) -> u8 {
    let mut greatest = 0;
    for file in files {
        greatest = greatest.max(check_file(rt, file, serves, out, err));
    }
    if out.flush().is_err() {
        return report(file_of(files), Breakage::Output, err);
    }
    greatest
}

// Returns the last of some files.
fn file_of<'a>(files: &[&'a str]) -> &'a str {
    match files.last() {
        Some(file) => *file,
        None => "",
    }
}

// Writes an error of the check of a file to `err`, and returns the exit status, which is 3.
fn report<E: Write>(file: &str, breakage: Breakage, err: &mut E) -> u8 {
    let message = breakage.message();
    let _ = writeln!(err, "script_bench: {file}: {message}");
    BROKEN
}

fn check_file<R: Files + AllocGlobal, O: Write, E: Write>(
    rt: &R,
    file: &str,
    serves: bool,
    out: &mut O,
    err: &mut E,
) -> u8 {
    let bytes = match bytes_of(rt, file) {
        Ok(bytes) => bytes,
        Err(why) => return report_unread(file, why, err),
    };
    let Ok(findings) = check(rt.alloc(), bytes.as_slice(), serves) else {
        return report(file, Breakage::Memory, err);
    };
    if write_findings(file, bytes.as_slice(), findings.as_slice(), out).is_err() {
        return report(file, Breakage::Output, err);
    }
    let is_rejected = findings.iter().any(|finding| finding.level == Level::Error);
    if is_rejected { REFUSED } else { 0 }
}

// Writes what is found in a file, or that nothing is.
fn write_findings<O: Write>(
    file: &str,
    bytes: &[u8],
    findings: &[Finding],
    out: &mut O,
) -> io::Result<()> {
    if findings.is_empty() {
        return writeln!(out, "{file}: ok");
    }
    for finding in findings {
        finding.write(file, bytes, out)?;
    }
    Ok(())
}
