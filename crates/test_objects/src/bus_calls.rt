//! Calls from texts, as in the lines of log entries.

use std::alloc::Global;
use uvm_glob::Name;
use uvm_object::Call;
use uvm_phase::Phase;
use uvm_sequences::Sequences;
use uvm_tlm::Item;
use uvm_tree::NodeId;

/// Returns the call with this text, or `None` if there is none.
pub fn call_of(alloc: Global, text: &str) -> Option<Call> {
    match text.split_once(' ') {
        Some((word, rest)) => call_with(alloc, word, rest),
        None => plain_call(text),
    }
}

fn plain_call(word: &str) -> Option<Call> {
    Some(match word {
        "pre_start" => Call::PreStart,
        "body" => Call::Body,
        "post_start" => Call::PostStart,
        "grant" => Call::Grant,
        "held" => Call::Held,
        _ => return phase_call(word),
    })
}

fn phase_call(word: &str) -> Option<Call> {
    for phase in [
        Phase::Build,
        Phase::Connect,
        Phase::Run,
        Phase::Extract,
        Phase::Report,
        Phase::Final,
    ] {
        if phase.name() == word {
            return Some(Call::Phase(phase));
        }
    }
    None
}

// Returns the call with this first word and the rest of its text.
fn call_with(alloc: Global, word: &str, rest: &str) -> Option<Call> {
    match word {
        "wake" => Some(Call::Wake {
            tag: rest.parse().ok()?,
        }),
        "stored" => Some(Call::Stored {
            port: name_of(rest)?,
        }),
        "item_done" => Some(Call::ItemDone {
            response: item_of(rest),
        }),
        "finished" => finished(alloc, name_of(rest)?),
        _ => named_call(word, rest),
    }
}

// Returns the call with this first word, whose rest is a name and one more value.
fn named_call(word: &str, rest: &str) -> Option<Call> {
    let (name, rest) = rest.split_once(' ')?;
    let name = name_of(name)?;
    match word {
        "config" => Some(Call::Config {
            field: name,
            value: rest.parse().ok(),
        }),
        "taken" => Some(Call::Taken {
            port: name,
            item: item_of(rest)?,
        }),
        "written" => Some(Call::Written {
            imp: name,
            item: item_of(rest)?,
        }),
        "next_item" => Some(Call::NextItem {
            port: name,
            item: item_of(rest),
        }),
        _ => None,
    }
}

fn name_of(text: &str) -> Option<Name> {
    Name::new(text.as_bytes()).ok()
}

// Returns the item with a text such as `[1,0,10,0]`, or `None` for other texts such as `none`.
fn item_of(text: &str) -> Option<Item> {
    let mut words = text.strip_prefix('[')?.strip_suffix(']')?.split(',');
    let mut item = [0; 4];
    for word in item.iter_mut() {
        *word = words.next()?.parse().ok()?;
    }
    Some(Item(item))
}

// Returns the call which reports that the first started sequence has finished.
fn finished(alloc: Global, name: Name) -> Option<Call> {
    let id = Sequences::new(alloc)
        .start(NodeId::TOP, None, name, 100)
        .ok()?;
    Some(Call::Finished { name, id })
}
