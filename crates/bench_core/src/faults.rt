//! The errors of a core.

use std::error::Error;
use std::fmt;

/// The error of a core that cannot begin or go on.
#[derive(Clone, Copy, Debug, PartialEq, Eq)]
pub enum CoreFault {
    /// Out of memory.
    Memory,
    /// A log with as many entries as it may have, when another entry would come next.
    LogFull,
    /// An earlier call that returned `Memory` or `LogFull`.
    Failed,
    /// A script without a test.
    NoTest,
}

impl fmt::Display for CoreFault {
    ghost use Rattle.std.specs.Prelude.{Some};
    ghost use Rattle.bench_core.specs.Faults.{fault_text};

    ghost output = { λ fault. Some (fault_text fault) };

    fn fmt<W: fmt::Write>(&self, f: &mut fmt::Formatter<W>) -> fmt::Result {
        f.write_str(match self {
            CoreFault::Memory => "out of memory",
            CoreFault::LogFull => "log full",
            CoreFault::Failed => "failed before",
            CoreFault::NoTest => "no test",
        })
    }
}

impl Error for CoreFault {}
