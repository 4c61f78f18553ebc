//! Why a program could not do a job.

ghost use Rattle.std.specs.Prelude.{◌≡◌, ◌≢◌, Some};
ghost use Rattle.script_input.specs.Breakages.{breakage_of, message_of};
ghost use Rattle.script_input.specs.declared.breakages.Breakage.TheVariants.{Memory as memory};

use bench_run::RunFault;
use std::alloc::AllocError;

/// Why a program could not do a job.
#[derive(Clone, Copy, PartialEq, Eq)]
pub enum Breakage {
    /// Memory ran out.
    Memory,
    /// The log of the run is full.
    LogFull,
    /// The output could not be written.
    Output,
    /// The file could not be opened, or could not be read to its end.
    Unread,
}

impl Breakage {
    /// Returns what stopped a run that had a test.
    pub fn of(fault: RunFault) -> Breakage
        requires { fault ≢ RunFault.NoTest }
        ensures { Some result ≡ breakage_of fault }
    {
        match fault {
            RunFault::Memory => Breakage::Memory,
            RunFault::LogFull => Breakage::LogFull,
            RunFault::Output => Breakage::Output,
            RunFault::NoTest => unreachable!(),
        }
    }

    /// Returns the message about it, a few words.
    pub fn message(self) -> &'static str
        ensures { result.now ≡ message_of self }
    {
        match self {
            Breakage::Memory => "memory",
            Breakage::LogFull => "log full",
            Breakage::Output => "output fault",
            Breakage::Unread => "cannot read the file",
        }
    }
}

impl From<AllocError> for Breakage {
    ghost from_gives = { λ _ breakage. breakage ≡ memory };

    fn from(_error: AllocError) -> Breakage {
        Breakage::Memory
    }
}
