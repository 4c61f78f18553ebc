//! Advice about a word that is not one of those allowed.

use std::alloc::{AllocError, Global};

// The greatest number of words that advice lists.
const MOST_LISTED: usize = 16;

// Returns the word that is nearest to `word`, by the number of characters that are inserted, deleted, replaced or swapped. Returns `None` if
// more than a third of the characters differ.
pub(crate) fn nearest<'a>(
    alloc: Global,
    word: &str,
    known: &[&'a str],
) -> Result<Option<&'a str>, AllocError> {
    let most = word.len().max(3) / 3;
    let mut best: Option<(usize, &str)> = None;
    for other in known {
        let distance = strsim::osa_distance(alloc, word, other)?;
        if distance <= most && best.is_none_or(|(least, _)| distance < least) {
            best = Some((distance, *other));
        }
    }
    Ok(best.map(|(_, other)| other))
}

// Returns advice: the word that is nearest to `word`, otherwise all of them if they are few, otherwise nothing.
pub(crate) fn advice(alloc: Global, word: &str, known: &[&str]) -> Result<String, AllocError> {
    if let Some(other) = nearest(alloc, word, known)? {
        return format!(in alloc; "the nearest is {other}");
    }
    let mut text = String::new(alloc);
    if known.is_empty() || known.len() > MOST_LISTED {
        return Ok(text);
    }
    text.push_str("allowed:")?;
    for (place, other) in known.iter().enumerate() {
        text.push_str(if place > 0 { ", " } else { " " })?;
        text.push_str(other)?;
    }
    Ok(text)
}
