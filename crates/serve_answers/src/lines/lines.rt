//! Reads the lines of a client.

ghost use Rattle.std.specs.Prelude.{◌≡◌, ◌++◌, ◌∷◌, ◌≤◌, [], Err, IfErr, OnErr, OnOk, vec_capacity};
ghost use Rattle.std.specs.Io.KnownBytes.{Consumes};
ghost use Rattle.serve_answers.specs.Lines.{HasEnded, IsCutShort, IsLine};

use crate::lines::errors::LineError;
use crate::lines::parts::read_part;
use std::io;

/// The greatest number of bytes of a line, without its newline.
pub const MOST_BYTES: usize = 4096;

// The greatest number of reads for one line.
const MOST_READS: u32 = 1_048_576;

/// Reads a line and its newline, and nothing after the newline. Replaces `line` with the line, without its newline. Repeats a read that a
/// signal interrupts.
///
/// Errors: `Unreadable` if a read fails; `Ended` if the input ends before the newline; `TooLong` after 4,097 bytes without a newline;
/// `Unreadable` if 1,048,576 reads do not reach the newline; `Memory` if `line` cannot grow, which never happens if its capacity is over
/// `MOST_BYTES`. On an error, `line` holds exactly the bytes that were consumed.
pub fn read_line<R: io::BufRead>(reader: &mut R, line: &mut Vec<u8>) -> Result<(), LineError>
    ensures line { OnOk result (IsLine line.new.items) }
    ensures ok { OnOk result (Consumes (R.remaining reader.old) (R.remaining reader.new) (line.new.items ++ 10 ∷ [])) }
    ensures gone { OnErr result (Consumes (R.remaining reader.old) (R.remaining reader.new) line.new.items) }
    ensures err { IfErr result (λ error. IsCutShort error line.new.items (HasEnded (R.remaining reader.old) (R.remaining reader.new))) }
    ensures capacity { vec_capacity line.old ≤ vec_capacity line.new }
    ensures room { result ≡ Err LineError.Memory → vec_capacity line.old ≤ MOST_BYTES }
{
    line.clear();
    'reads: for _made in 0..MOST_READS {
        if read_part(reader, line)? {
            return Ok(());
        }
    }
    Err(LineError::Unreadable)
}
