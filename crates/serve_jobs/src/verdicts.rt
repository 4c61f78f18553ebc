//! The verdicts on the run of a document over a client.

ghost use Rattle.std.specs.Prelude.{◌≡◌, OnOk};
ghost use Rattle.serve_jobs.specs.Verdicts.{IsReported, status_of};

use script_jobs::Refusal;
use serve_dialogue::{AnswerError, ServeError};
use std::io;

/// The verdict on the run of a document over a client: how it ended, or why there is none.
#[derive(Drop)]
pub enum Verdict {
    /// A run that finished with no ERROR and no FATAL counted.
    Clean,
    /// A run with an ERROR or a FATAL counted, or that did not finish.
    Faulty,
    /// A rejected document.
    Refused(Refusal),
    /// A run that could not begin, or that stopped before its end.
    Broken(ServeError),
}

impl Verdict {
    /// Returns the exit status: 0 if `Clean`, 1 if `Faulty`, 2 if `Refused`, 3 if `Broken`.
    pub fn status(&self) -> u8
        ensures { result ≡ status_of self.now }
    {
        match self {
            Verdict::Clean => 0,
            Verdict::Faulty => 1,
            Verdict::Refused(_) => 2,
            Verdict::Broken(_) => 3,
        }
    }

    /// Writes the error line of the verdict on a file or on the client; nothing for `Clean` and `Faulty`. `line` is the last line of the
    /// client, which the error line shows if it is wrong. Errors: the writer's, which may have taken a part of the line.
    pub fn write_line<W: io::Write>(&self, file: &str, line: &[u8], err: &mut W) -> io::Result<()>
        ensures { OnOk result (IsReported file.now self.now (W.contents err.old) (W.contents err.new)) }
    {
        match self {
            Verdict::Clean => Ok(()),
            Verdict::Faulty => Ok(()),
            Verdict::Refused(refusal) => writeln!(err, "script_bench: {file}: {refusal}"),
            Verdict::Broken(ServeError::Output) => writeln!(err, "script_bench: output fault"),
            Verdict::Broken(ServeError::NoAnswer(error)) => write_blame(*error, file, line, err),
            Verdict::Broken(error) => writeln!(err, "script_bench: {file}: {error}"),
        }
    }
}

// Writes why the client does not answer. If a line of the client is wrong, writes its number and its first 80 bytes. Each byte that is not
// printable ASCII is shown as a question mark. Errors: the writer's.
fn write_blame<W: io::Write>(
    error: AnswerError,
    file: &str,
    line: &[u8],
    err: &mut W,
) -> io::Result<()> {
    let number = error.wrong_line();
    if number == 0 {
        return writeln!(err, "script_bench: {file}: {error}");
    }
    write!(
        err,
        "script_bench: {file}: line {number} of the client: {error}: "
    )?;
    for byte in line.iter().take(80) {
        err.write_all(&[shown_byte(*byte)])?;
    }
    err.write_all(b"\n")
}

fn shown_byte(byte: u8) -> u8 {
    if byte >= 0x20 && byte <= 0x7E {
        byte
    } else {
        b'?'
    }
}
