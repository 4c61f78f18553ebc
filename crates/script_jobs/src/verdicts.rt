//! The verdicts on a document.

ghost use Rattle.std.specs.Prelude.{◌≡◌, OnOk};
ghost use Rattle.std.specs.Io.KnownBytes.{Appends, Keeps};
ghost use Rattle.script_jobs.specs.Verdicts.{fault_line, status_of};

use bench_script::ScriptFault;
use script_input::Breakage;
use std::{fmt, io};
use uvm_glob::Name;

/// The verdict on a document: how its run ended, or why there is none.
#[derive(Drop)]
pub enum Verdict {
    /// A run that finished with no ERROR and no FATAL counted.
    Clean,
    /// A run with an ERROR or a FATAL counted, or that did not finish.
    Faulty,
    /// A rejected document.
    Refused(Refusal),
    /// A run that could not begin, or that stopped before its end.
    Broken(Breakage),
}

/// The reason why a document is rejected.
#[derive(Drop)]
pub enum Refusal {
    /// A document that, without `answers`, is not a script or has no test.
    Script(ScriptFault),
    /// The name of a test that is not a declared type.
    UnknownTest(Name),
    /// A value of `answers` that is not a table.
    NoTable,
    /// The name of a type that has answers but is not declared.
    UnknownType(Name),
    /// The name of a declared type that has neither answers nor a built-in object.
    NoObject(Name),
    /// The text of an error in an entry of `answers`: its place and its kind.
    Answers(String),
}

impl fmt::Display for Refusal {
    ghost use Rattle.std.specs.Prelude.{Some};
    ghost use Rattle.script_jobs.specs.Verdicts.{refusal_text};

    ghost output = { λ refusal. Some (refusal_text refusal) };

    fn fmt<W: fmt::Write>(&self, f: &mut fmt::Formatter<W>) -> fmt::Result {
        match self {
            Refusal::Script(fault) => f.write_str(fault.label()),
            Refusal::UnknownTest(name) => {
                let fault = ScriptFault::UnknownType.label();
                write!(f, "test {name} is not declared in 'type' ({fault})")
            }
            Refusal::NoTable => f.write_str("answers: not a table"),
            Refusal::UnknownType(name) => write!(f, "answers.{name}: not declared in 'type'"),
            Refusal::NoObject(name) => {
                write!(f, "type {name} has no [answers.{name}] and is not built in")
            }
            Refusal::Answers(text) => write!(f, "{text}"),
        }
    }
}

impl Verdict {
    /// Returns the exit status: 0 if `Clean`, 1 if `Faulty`, 2 if `Refused`, 3 if `Broken`.
    pub fn status(&self) -> u8
        ensures { result ≡ status_of self.now }
    {
        match self {
            Verdict::Clean => 0,
            Verdict::Faulty => 1,
            Verdict::Refused(_) => 2,
            Verdict::Broken(_) => 3,
        }
    }

    /// Writes the error line of the verdict on a file; nothing for `Clean` and `Faulty`. Errors: the writer's, which may have taken a part of
    /// the line.
    pub fn write_line<W: io::Write>(&self, file: &str, err: &mut W) -> io::Result<()>
        ensures clean { self.now ≡ Verdict.Clean → Keeps (W.contents err.old) (W.contents err.new) }
        ensures faulty { self.now ≡ Verdict.Faulty → Keeps (W.contents err.old) (W.contents err.new) }
        ensures line { OnOk result (Appends (W.contents err.old) (W.contents err.new) (fault_line file.now self.now)) }
    {
        match self {
            Verdict::Clean | Verdict::Faulty => Ok(()),
            Verdict::Refused(refusal) => writeln!(err, "script_bench: {file}: {refusal}"),
            Verdict::Broken(breakage) => {
                let message = breakage.message();
                writeln!(err, "script_bench: {file}: {message}")
            }
        }
    }
}
