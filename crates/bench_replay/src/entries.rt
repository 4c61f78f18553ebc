//! What an entry of a log says of the answers that were free when it was made.

ghost use Rattle.std.specs.Prelude.{◌≡◌, ◌∷◌, [], IfOk, IfSome};
ghost use Rattle.bench_core.specs.Cores.{word_in};
ghost use Rattle.bench_replay.specs.Entries.{acts_in, is_declined};

use std::alloc::{AllocError, Global};
use uvm_object::{Acts, Entry, Fatal, Outcome};

// Returns the random number of the entry; 0 if it has none.
pub(crate) fn word_of(entry: &Entry) -> u64
    ensures { IfSome (word_in (entry.now ∷ [])) (λ word. result ≡ word) }
{
    match entry {
        Entry::Granted { grant, .. } => grant.word.unwrap_or(0),
        _ => 0,
    }
}

// Returns whether the entry is an action whose object was declined.
pub(crate) fn is_declined(entry: &Entry) -> bool
    ensures { result ≡ is_declined entry.now }
{
    match entry {
        Entry::Did { outcome, .. } => match outcome.get() {
            Outcome::Refused(fatal) => fatal == Fatal::NoObject,
            _ => false,
        },
        _ => false,
    }
}

// Returns a copy of the answer, if the entry is a call, and otherwise no action. Errors: out of memory.
pub(crate) fn answer_in(alloc: Global, entry: &Entry) -> Result<Acts, AllocError>
    ensures { IfOk result (λ acts. acts ≡ acts_in entry.now) }
{
    match entry {
        Entry::Heard { acts, .. } => copy_of(alloc, acts),
        _ => Ok(Acts::new(alloc)),
    }
}

// Returns a copy of an answer. Errors: out of memory.
fn copy_of(alloc: Global, acts: &Acts) -> Result<Acts, AllocError>
    ensures { IfOk result (λ copy. copy ≡ acts.now) }
{
    let mut copy = Acts::new(alloc);
    for act in acts.iter() {
        copy.push(act.get().copy()?)?;
    }
    Ok(copy)
}
