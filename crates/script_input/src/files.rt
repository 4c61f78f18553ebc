//! The bytes of a file.
ghost use Rattle.std.specs.Prelude.{◌≡◌, ◌⊎◌, ◌<◌, ◌≤◌, ◌+◌, ◌++◌, ℕ, List, Err, IfErr, IfOk, IfSome, OnOk, false, length, take, true, vec_len};
ghost use Rattle.std.specs.Io.KnownBytes.{Consumes, IsAtEnd};
ghost use Rattle.script_input.specs.Files.{IsReadFault, IsUnread, most_file_bytes};

use crate::breakages::Breakage;
use crate::sources::Source;
use std::alloc::Global;
use std::io;

/// The greatest number of bytes that `read_file` returns: one more than a script may have.
pub const MOST_BYTES: usize = 1_048_577;

// The greatest number of reads of one file.
const MOST_READS: u32 = 2_097_152;

// The greatest number of bytes of one read.
const PIECE: usize = 8192;

/// Returns the bytes that a source has left, at most `MOST_BYTES`. Repeats a read that a signal interrupts.
///
/// Errors: `Unread` if a read fails, or if 2,097,152 reads do not reach the end; `Memory` (out of memory), only after a byte
/// was read. After an error the bytes that were read are lost.
pub fn read_file<S: Source>(alloc: Global, reader: &mut S) -> Result<Vec<u8>, Breakage>
    ensures bound { IfOk result (λ bytes. vec_len bytes ≤ most_file_bytes) }
    ensures bytes { IfOk result (λ bytes. IfSome (S.remaining reader.old)
        (λ all. bytes.items ≡ take most_file_bytes all)) }
    ensures left { IfOk result (λ bytes.
        Consumes (S.remaining reader.old) (S.remaining reader.new) bytes.items) }
    ensures fault { IfErr result (IsReadFault (S.remaining reader.old) (S.remaining reader.new)) }
    ensures err { IfErr result IsUnread }
    ensures failed { result ≡ Err Breakage.Unread → S.fails reader.old }
{
    let mut bytes = Vec::new(alloc);
    let mut piece = [0u8; PIECE];
    'reads: for _made in 0..MOST_READS {
        let room = (MOST_BYTES - bytes.len()).min(PIECE);
        if room == 0 {
            return Ok(bytes);
        }
        if read_piece(reader, &mut piece[..room], &mut bytes)? {
            return Ok(bytes);
        }
    }
    Err(Breakage::Unread)
}

// Reads once into `piece`, appends the bytes to `bytes`, and returns whether the end was reached. A read that a signal interrupts appends
// nothing. Errors: `Unread` if the read fails; `Memory` (out of memory).
fn read_piece<S: Source>(
    reader: &mut S,
    piece: &mut [u8],
    bytes: &mut Vec<u8>,
) -> Result<bool, Breakage>
    requires { 0 < length piece.old }
    ensures bound { OnOk result (vec_len bytes.new ≤ vec_len bytes.old + length piece.old) }
    ensures more { OnOk result ((more : List ℕ) × (bytes.new.items ≡ bytes.old.items ++ more)
        × Consumes (S.remaining reader.old) (S.remaining reader.new) more) }
    ensures end { IfOk result (λ ended. ended ≡ true → IsAtEnd (S.remaining reader.new)) }
    ensures fault { IfErr result (IsReadFault (S.remaining reader.old) (S.remaining reader.new)) }
    ensures err { IfErr result IsUnread }
    ensures failed { result ≡ Err Breakage.Unread → S.fails reader.old }
    ensures stalled { IfOk result (λ ended. ended ≡ false → (vec_len bytes.old < vec_len bytes.new) ⊎ S.fails reader.old) }
    ensures steady { S.fails reader.new → S.fails reader.old }
{
    match reader.read_some(piece) {
        Ok(0) => Ok(true),
        Ok(count) => {
            bytes.extend_from_slice(&piece[..count])?;
            Ok(false)
        }
        Err(error) if error.kind() == io::ErrorKind::Interrupted => Ok(false),
        Err(_) => Err(Breakage::Unread),
    }
}
