//! The lines about the runs for some seeds.

ghost use Rattle.std.specs.Prelude.{◌≡◌, ◌++◌, ◌≤◌, ◌+◌, ◌^◌, OnOk, option_copied};
ghost use Rattle.script_seeds.specs.SeedRuns.{after_status, count_line, fault_of, is_fault_line, seed_line, stop_of, verdict_text};
ghost use Rattle.std.specs.Fmt.{decimal};

use itoa::Buffer;
use script_input::Breakage;
use script_jobs::Verdict;
use std::alloc::AllocError;

/// The seeds of some runs: `count` numbers from `first` on, of at most 64 bits.
#[derive(Clone, Copy)]
pub struct Seeds {
    /// The first seed.
    pub first: u64,
    /// The number of seeds.
    pub count: u64,
    ghost fitting: { first + count ≤ 2 ^ 64 },
}

// Returns the first line of a run's output that reports an ERROR or a FATAL, without its newline.
pub(crate) fn fault_of(output: &[u8]) -> Option<&[u8]>
    ensures { option_copied result ≡ fault_of output.now }
{
    for line in output.split(|byte| *byte == b'\n') {
        if is_fault_line(line) {
            return Some(line);
        }
    }
    None
}

// Returns whether a line reports an ERROR or a FATAL.
fn is_fault_line(line: &[u8]) -> bool
    ensures { result ≡ is_fault_line line.now }
{
    line.starts_with(b"UVM_ERROR @ ") || line.starts_with(b"UVM_FATAL @ ")
}

// Appends the line of a run: `seed 7: clean`, or its exit status with the first ERROR or FATAL, or with what stopped it. Errors: out of memory.
pub(crate) fn push_seed(
    seed: u64,
    verdict: &Verdict,
    output: &[u8],
    line: &mut Vec<u8>,
) -> Result<(), AllocError>
    ensures { OnOk result (line.new.items ≡ line.old.items ++ seed_line seed output.now verdict.now) }
{
    line.extend_from_slice(b"seed ")?;
    push_number(seed, line)?;
    line.extend_from_slice(b": ")?;
    push_verdict(verdict, output, line)?;
    line.push(b'\n')?;
    Ok(())
}

fn push_verdict(verdict: &Verdict, output: &[u8], line: &mut Vec<u8>) -> Result<(), AllocError>
    ensures { OnOk result (line.new.items ≡ line.old.items ++ verdict_text output.now verdict.now) }
{
    match verdict {
        Verdict::Clean => line.extend_from_slice(b"clean"),
        Verdict::Faulty => {
            line.extend_from_slice(b"status 1")?;
            push_cause(output, line)
        }
        Verdict::Refused(_) => line.extend_from_slice(b"status 2"),
        Verdict::Broken(breakage) => {
            line.extend_from_slice(b"status 3: ")?;
            line.extend_from_slice(stopped(*breakage).message().as_bytes())
        }
    }
}

// Returns what stopped a run whose output is kept in memory: a refused text is memory that ran out.
fn stopped(breakage: Breakage) -> Breakage
    ensures { result ≡ stop_of breakage }
{
    match breakage {
        Breakage::Output => Breakage::Memory,
        breakage => breakage,
    }
}

// Appends the first ERROR or FATAL of a run, if its output has one. Errors: out of memory.
fn push_cause(output: &[u8], line: &mut Vec<u8>) -> Result<(), AllocError>
    ensures { OnOk result (line.new.items ≡ line.old.items ++ after_status (fault_of output.now)) }
{
    match fault_of(output) {
        Some(fault) => {
            line.extend_from_slice(b": ")?;
            line.extend_from_slice(fault)
        }
        None => Ok(()),
    }
}

// Appends the count of the runs: `100 seeds: 97 clean, 3 not`. Errors: out of memory.
pub(crate) fn push_count(count: u64, clean: u64, line: &mut Vec<u8>) -> Result<(), AllocError>
    requires { clean ≤ count }
    ensures { OnOk result (line.new.items ≡ line.old.items ++ count_line count clean) }
{
    push_number(count, line)?;
    line.extend_from_slice(b" seeds: ")?;
    push_number(clean, line)?;
    line.extend_from_slice(b" clean, ")?;
    push_number(count - clean, line)?;
    line.extend_from_slice(b" not\n")
}

fn push_number(number: u64, line: &mut Vec<u8>) -> Result<(), AllocError>
    ensures { OnOk result (line.new.items ≡ line.old.items ++ decimal number) }
{
    line.extend_from_slice(Buffer::new().format(number).as_bytes())
}
