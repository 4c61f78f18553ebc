//! The lines of a text.

ghost use Rattle.std.specs.Prelude.{◌≡◌, ◌<◌, ◌++◌, IfSome, length};

/// Splits a text at its first newline: the line without its newline, and the text behind it. Without a newline, the whole text is the line.
pub fn split_line(text: &[u8]) -> (&[u8], &[u8])
    ensures { 0 < length text.now → length result.1.now < length text.now }
{
    match text.iter().position(|byte| *byte == b'\n') {
        Some(end) => (&text[..end], &text[end + 1..]),
        None => (text, &[]),
    }
}

/// Returns the number of the first line in which two texts differ, from 1, that line of the first text and that line of the second. The line
/// of a text that has ended is empty.
pub fn first_other<'a>(text: &'a [u8], other: &'a [u8]) -> (u64, &'a [u8], &'a [u8]) {
    let mut number = 1u64;
    let mut left = text;
    for line in other.split(|byte| *byte == b'\n') {
        let (said, rest) = split_line(left);
        if said != line {
            return (number, said, line);
        }
        left = rest;
        number = number.saturating_add(1);
    }
    (number, split_line(left).0, &[])
}

/// Returns the text behind another one, if it begins with that.
pub fn behind<'a>(text: &'a [u8], front: &[u8]) -> Option<&'a [u8]>
    ensures { IfSome result (λ rest. text.now ≡ front.now ++ rest.now) }
{
    text.strip_prefix(front)
}

/// Returns the number of lines that end in a text.
pub fn lines_of(text: &[u8]) -> u64 {
    text.iter().filter(|byte| **byte == b'\n').count() as u64
}
