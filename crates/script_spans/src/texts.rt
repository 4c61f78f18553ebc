//! Places in a text: ranges of its bytes, lines and columns.

ghost use Rattle.std.specs.Prelude.{◌≡◌, ◌≤◌, ◌+◌, take};
ghost use Rattle.script_spans.specs.Texts.{characters_of_line, is_first, last_line, newlines_in};

/// A range of the bytes of a text.
#[derive(Clone, Copy, Debug, PartialEq, Eq)]
pub struct Span {
    /// The index of the first byte.
    pub start: usize,
    /// The index after the last byte.
    pub end: usize,
}

/// Returns the line of the byte at an index, counted from 1. An index beyond the text means its end.
pub fn line_at(bytes: &[u8], index: usize) -> usize
    ensures { result ≡ 1 + newlines_in (take index bytes.now) }
{
    let before = &bytes[..index.min(bytes.len())];
    1 + before.iter().filter(|byte| **byte == b'\n').count()
}

/// Returns the column of the byte at an index, counted from 1 in characters. An index beyond the text means its end.
pub fn column_at(bytes: &[u8], index: usize) -> usize
    ensures { result ≡ 1 + characters_of_line (take index bytes.now) }
{
    let before = &bytes[..index.min(bytes.len())];
    let line = last_line(before);
    1 + line.iter().filter(|byte| is_first(**byte)).count()
}

/// Returns what comes after the last line feed.
pub fn last_line(bytes: &[u8]) -> &[u8]
    ensures { result.now ≡ last_line bytes.now }
{
    let mut start = bytes.len();
    while start > 0 && bytes[start - 1] != b'\n' {
        start -= 1;
    }
    &bytes[start..]
}

/// Returns whether a byte of UTF-8 is the first of its character.
pub fn is_first(byte: u8) -> bool
    ensures { result ≡ is_first byte }
{
    byte < 128 || byte >= 192
}
