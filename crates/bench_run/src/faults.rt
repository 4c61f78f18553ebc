//! The errors of a run.

use std::error::Error;
use std::fmt;

/// The error of a run that does not begin, or stops before its end.
#[derive(Clone, Copy, Debug, PartialEq, Eq)]
pub enum RunFault {
    /// Out of memory.
    Memory,
    /// A log with as many entries as it may have, when another entry would come next.
    LogFull,
    /// A text that could not be written.
    Output,
    /// A script without a test.
    NoTest,
}

impl fmt::Display for RunFault {
    ghost use Rattle.std.specs.Prelude.{Some};
    ghost use Rattle.bench_run.specs.Faults.{fault_text};

    ghost output = { λ fault. Some (fault_text fault) };

    fn fmt<W: fmt::Write>(&self, f: &mut fmt::Formatter<W>) -> fmt::Result {
        f.write_str(match self {
            RunFault::Memory => "out of memory",
            RunFault::LogFull => "log full",
            RunFault::Output => "output fault",
            RunFault::NoTest => "no test",
        })
    }
}

impl Error for RunFault {}
