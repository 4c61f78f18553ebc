//! The verdicts on a job of the bus bench.
ghost use Rattle.std.specs.Prelude.{◌≡◌, OnOk};
ghost use Rattle.std.specs.Io.KnownBytes.{Appends, Keeps};
ghost use Rattle.bus_jobs.specs.Verdicts.{fault_line, status_of};

use bench_script::ScriptFault;
use script_input::Breakage;
use std::io;

/// The verdict on a job: how it ended, or why it failed.
#[derive(Clone, Copy, PartialEq, Eq)]
pub enum Verdict {
    /// A job that was done without an error.
    Clean,
    /// A run that did not finish, or in which an ERROR or a FATAL was counted.
    Faulty,
    /// A rejected script.
    Refused(ScriptFault),
    /// A job that the program could not do.
    Broken(Breakage),
}

/// Writes the error line of the verdict to `err`, if it has one, and returns the exit status: 0 if `Clean`, 1 if `Faulty`, 2 if `Refused`, 3
/// if `Broken`.
///
/// The status is the same if the line cannot be written.
pub fn tell<W: io::Write>(verdict: &Verdict, err: &mut W) -> u8
    ensures status { result ≡ status_of verdict.now }
    ensures clean { verdict.now ≡ Verdict.Clean → Keeps (W.contents err.old) (W.contents err.new) }
    ensures faulty { verdict.now ≡ Verdict.Faulty → Keeps (W.contents err.old) (W.contents err.new) }
{
    let _ = write_line(verdict, err);
    match verdict {
        Verdict::Clean => 0,
        Verdict::Faulty => 1,
        Verdict::Refused(_) => 2,
        Verdict::Broken(_) => 3,
    }
}

/// Writes the error line of the verdict to `err`; nothing if it has none.
///
/// Errors: the writer's, which may have taken a part of the line.
pub fn write_line<W: io::Write>(verdict: &Verdict, err: &mut W) -> io::Result<()>
    ensures clean { verdict.now ≡ Verdict.Clean → Keeps (W.contents err.old) (W.contents err.new) }
    ensures faulty { verdict.now ≡ Verdict.Faulty → Keeps (W.contents err.old) (W.contents err.new) }
    ensures line { OnOk result (Appends (W.contents err.old) (W.contents err.new) (fault_line verdict.now)) }
{
    match verdict {
        Verdict::Clean | Verdict::Faulty => Ok(()),
        Verdict::Refused(fault) => {
            let label = fault.label();
            writeln!(err, "bus_bench: {label}")
        }
        Verdict::Broken(breakage) => {
            let message = breakage.message();
            writeln!(err, "bus_bench: {message}")
        }
    }
}
