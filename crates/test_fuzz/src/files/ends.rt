//! The ends of runs, and how they are reported.

use bench_script::ScriptFault;
use std::alloc::AllocError;
use std::io::Write;
use test_fuzz_runs::Violation;

/// The end of a run.
#[derive(Clone, Copy, PartialEq, Eq)]
pub enum End {
    /// The regular end.
    Over,
    /// Out of memory.
    Memory,
    /// A full log.
    Full,
    /// A file that cannot be read, or is not a script with a test and answers.
    Fault,
    /// A transcript that cannot be written.
    Output,
    /// A check that fails.
    Violation(Violation),
}

impl From<ScriptFault> for End {
    fn from(fault: ScriptFault) -> End {
        match fault {
            ScriptFault::Memory => End::Memory,
            _ => End::Fault,
        }
    }
}

impl From<AllocError> for End {
    fn from(_error: AllocError) -> End {
        End::Memory
    }
}

impl From<Violation> for End {
    fn from(violation: Violation) -> End {
        End::Violation(violation)
    }
}

/// Writes how many objects were created and dropped, and how the run ended. Returns the exit status: 4 if not each object was dropped, 0 if
/// the run has ended regularly, otherwise 3. Allocates no memory.
pub fn tell<E: Write>(made: u64, dropped: u64, end: End, err: &mut E) -> u8 {
    let word = match end {
        End::Over => "over",
        End::Memory => "memory",
        End::Full => "full",
        End::Fault => "fault",
        End::Output => "output",
        End::Violation(_) => "violation",
    };
    let _ = writeln!(err, "made {made}, dropped {dropped}, ended as {word}");
    if dropped != made {
        4
    } else if end == End::Over {
        0
    } else {
        3
    }
}
