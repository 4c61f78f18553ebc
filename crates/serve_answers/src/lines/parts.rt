//! Reads a line in the parts that a reader has buffered.

ghost use Rattle.std.specs.Prelude.{◌≡◌, ◌≤◌, ◌<◌, Err, IfErr, IfOk, IfNone, IfSome, OnErr, OnOk, length, take, slice_index, [], vec_capacity};
ghost use Rattle.serve_answers.specs.Lines.{Grows, HasEnded, HasNoNewline, IsCutAt, newline_if};

use crate::lines::errors::LineError;
use crate::lines::lines::MOST_BYTES;
use std::io;

/// Reads the next part of a line: the bytes that the reader has buffered, up to a newline. Returns whether the line has ended. An
/// interrupted read adds an empty part.
///
/// Errors: as in `read_line`.
pub(crate) fn read_part<R: io::BufRead>(
    reader: &mut R,
    line: &mut Vec<u8>,
) -> Result<bool, LineError>
    requires { length line.old.items ≤ MOST_BYTES }
    ensures ok { IfOk result (λ ended. Grows line.old.items line.new.items (R.remaining reader.old) (R.remaining reader.new) (newline_if ended)) }
    ensures gone { OnErr result (Grows line.old.items line.new.items (R.remaining reader.old) (R.remaining reader.new) []) }
    ensures bound { OnOk result (length line.new.items ≤ MOST_BYTES) }
    ensures err { IfErr result (λ error. IsCutAt error (length line.new.items) (HasEnded (R.remaining reader.old) (R.remaining reader.new))) }
    ensures capacity { vec_capacity line.old ≤ vec_capacity line.new }
    ensures room { result ≡ Err LineError.Memory → vec_capacity line.old ≤ MOST_BYTES }
{
    let room = MOST_BYTES + 1 - line.len();
    let buffered = match reader.fill_buf() {
        Ok(buffered) => buffered,
        Err(error) if error.kind() == io::ErrorKind::Interrupted => return Ok(false),
        Err(_) => return Err(LineError::Unreadable),
    };
    if buffered.is_empty() {
        return Err(LineError::Ended);
    }
    let count = buffered.len().min(room);
    let end = newline_in(&buffered[..count]);
    let length = end.unwrap_or(count);
    line.extend_from_slice(&buffered[..length])?;
    reader.consume(length + usize::from(end.is_some()));
    if line.len() > MOST_BYTES {
        return Err(LineError::TooLong);
    }
    Ok(end.is_some())
}

// Returns the place of the first newline.
fn newline_in(bytes: &[u8]) -> Option<usize>
    ensures bound { IfSome result (λ at. at < length bytes.now) }
    ensures before { IfSome result (λ at. HasNoNewline (take at bytes.now)) }
    ensures found { IfSome result (λ at. slice_index bytes.now at ≡ 10) }
    ensures none { IfNone result (HasNoNewline bytes.now) }
{
    bytes.iter().position(|byte| *byte == b'\n')
}
