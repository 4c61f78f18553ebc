//! The call that fills a log.

use script_facts::{Facts, Page};
use std::alloc::AllocError;
use std::collections::HashMap;
use uvm_lines::call_text;
use uvm_object::{Call, Entry, Who};

// The number of entries at the end of a full log among which calls are counted.
const LAST_ENTRIES: usize = 20_000;

// The share of these entries that a call must fill to be reported: one in so many.
const LEAST_SHARE: usize = 10;

// Appends the most frequent call among the last entries, if it fills a tenth of them.
pub(crate) fn push_repeated(facts: &Facts<'_>, page: &mut Page) {
    let log = facts.core.log();
    let first = log.len().saturating_sub(LAST_ENTRIES);
    let entries = log.len().min(LAST_ENTRIES);
    match most_frequent(facts, first) {
        Ok(Some((count, place))) if count.saturating_mul(LEAST_SHARE) >= entries => {
            push_most(facts, place, (count, entries), page);
            page.say(if is_still(facts, first) {
                " Time does not advance.\n"
            } else {
                "\n"
            });
        }
        Ok(_) => {}
        Err(_) => page.fail(),
    }
}

// Returns how often the most frequent call stands in the log from an entry on, and its last place. Errors: out of memory.
fn most_frequent(facts: &Facts<'_>, first: usize) -> Result<Option<(usize, usize)>, AllocError> {
    let mut counts: HashMap<Vec<u8>, usize> = HashMap::new(facts.alloc);
    let mut most: Option<(usize, usize)> = None;
    for (place, entry) in facts.core.log().iter().enumerate().skip(first) {
        if let Entry::Heard { who, call, .. } = entry {
            let count = counted(facts, &mut counts, who, &call.get())?;
            if most.is_none_or(|(greatest, _)| count >= greatest) {
                most = Some((count, place));
            }
        }
    }
    Ok(most)
}

// Returns how often a receiver has received a call, with this time. Errors: out of memory.
fn counted(
    facts: &Facts<'_>,
    counts: &mut HashMap<Vec<u8>, usize>,
    who: &Who,
    call: &Call,
) -> Result<usize, AllocError> {
    let mut key = facts.core.who_text(facts.alloc, who)?;
    key.push(b' ')?;
    key.extend_from_slice(call_text(facts.alloc, call)?.as_slice())?;
    let count = counts.get(&key).copied().unwrap_or(0).saturating_add(1);
    match counts.insert(key, count) {
        Ok(_) => Ok(count),
        Err(_) => Err(AllocError),
    }
}

// Returns whether time stays the same from an entry on.
fn is_still(facts: &Facts<'_>, first: usize) -> bool {
    facts
        .core
        .log()
        .iter()
        .skip(first)
        .all(|entry| !matches!(entry, Entry::Time(_)))
}

// Appends the most frequent call.
fn push_most(facts: &Facts<'_>, place: usize, (count, entries): (usize, usize), page: &mut Page) {
    let Some(Entry::Heard { who, call, .. }) = facts.core.log().get(place) else {
        return;
    };
    page.say("Of the last ");
    page.count(entries);
    page.say(" entries, ");
    page.count(count);
    page.say(" are the call ");
    facts.call(&call.get(), page);
    page.say(" of ");
    facts.who(who, page);
    page.say(".");
}
