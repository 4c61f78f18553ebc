//! The jobs that the arguments of the command line can ask for.
ghost use Rattle.std.specs.Prelude.{◌≡◌, IfOk};
ghost use Rattle.bus_jobs.specs.Faults.{IsFaultBy};
ghost use Rattle.bus_jobs.specs.declared.jobs.JobFault.TheVariants.{Memory};

use clap::error::ErrorKind;
use std::alloc::{AllocError, Global};
use uvm_glob::Name;

/// A job that the arguments of the command line ask for.
#[derive(Clone, Copy)]
pub enum Job<'a> {
    /// `debug FILE`, which prints which type the factory makes at each probe of the script in `file`.
    Debug {
        file: &'a str,
    },
    /// `run FILE`, which runs the script in `file`. `trace` says whether each entry of the log is printed. `seed` is the seed of the random
    /// numbers. `test` replaces the script's own test if it is given.
    Run {
        trace: bool,
        seed: u64,
        test: Option<Name>,
        file: &'a str,
    },
}

/// The reason why the arguments of the command line name no job.
#[derive(Drop)]
pub enum JobFault {
    /// The text of the help that the arguments ask for.
    Help(String),
    /// The text of the version that the arguments ask for.
    Version(String),
    /// The error for arguments that the program does not accept. Its `Display` is the text for the user.
    Refused(clap::Error),
    /// A value of `--test` that is not a name.
    BadName,
    /// Out of memory.
    Memory,
}

impl From<AllocError> for JobFault {
    ghost from_gives = { λ _ fault. fault ≡ Memory };

    fn from(_error: AllocError) -> JobFault {
        JobFault::Memory
    }
}

// Returns the fault for an error of clap. Errors: out of memory.
pub(crate) fn fault_by(alloc: Global, error: clap::Error) -> Result<JobFault, AllocError>
    ensures { IfOk result (IsFaultBy error) }
{
    Ok(match error.kind() {
        ErrorKind::DisplayHelp => JobFault::Help(error.to_string(alloc)?),
        ErrorKind::DisplayVersion => JobFault::Version(error.to_string(alloc)?),
        ErrorKind::OutOfMemory => JobFault::Memory,
        _ => JobFault::Refused(error),
    })
}
