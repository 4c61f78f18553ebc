//! The random numbers that a transcript shows.

ghost use Rattle.std.specs.Prelude.{◌≡◌, IfOk};
ghost use Rattle.std.specs.Char.{is_ascii_digit};
ghost use Rattle.std.specs.List.{list_all};
ghost use Rattle.script_legal.specs.ShownWords.{last_part, number_in, shown_words, word_in};

use std::alloc::{AllocError, Global};
use std::str::from_utf8;

/// Returns the random numbers that the grants of a transcript show, in their order. Errors: out of memory.
pub fn shown_words(alloc: Global, text: &[u8]) -> Result<Vec<u64>, AllocError>
    ensures { IfOk result (λ words. words.items ≡ shown_words text.now) }
{
    text.split(|byte| *byte == b'\n')
        .filter_map(|line| word_in(line))
        .collect(alloc)
}

// Returns the random number in the line of a grant, if it shows one.
pub(crate) fn word_in(line: &[u8]) -> Option<u64>
    ensures { result ≡ word_in line.now }
{
    if !line.starts_with(b"granted ") {
        return None;
    }
    number_in(last_part(line))
}

// Returns the part of a line behind its last blank, or the whole line if it has none.
pub(crate) fn last_part(line: &[u8]) -> &[u8]
    ensures { result.now ≡ last_part line.now }
{
    let parts = line.split(|byte| *byte == b' ');
    parts.last().unwrap_or(line)
}

// Returns the number of at most 64 bits that has these decimal digits.
pub(crate) fn number_in(text: &[u8]) -> Option<u64>
    ensures { result ≡ number_in text.now }
{
    if !are_digits(text) {
        return None;
    }
    match from_utf8(text) {
        Ok(digits) => digits.parse().ok(),
        Err(_) => None,
    }
}

fn are_digits(text: &[u8]) -> bool
    ensures { result ≡ list_all is_ascii_digit text.now }
{
    text.iter().all(|byte| byte.is_ascii_digit())
}
