//! Reads calls from words.

ghost use Rattle.std.specs.Prelude.{◌≡◌, ℤ, Bool, Option, [], ◌∷◌, IfSome};
ghost use Rattle.script_answers.specs.Calls.{ReadsCalls, is_named, is_short, phase_of};
ghost use Rattle.uvm_lines.specs.Lines.{answer_text, some_item_text, value_text};
ghost use Rattle.script_answer_acts.specs.Sound.{IsItem, IsSigned};
ghost use Rattle.script_answers.specs.Words.{IsAny, ReadsWord};

use crate::faults::LineFault;
use crate::items::item_of;
use crate::words::{integer_of, name_of, tag_of};
use uvm_object::Call;
use uvm_phase::Phase;
use uvm_tlm::Item;

// Returns whether a name and one more word follow a keyword.
pub(crate) fn is_named(keyword: &str) -> bool
    ensures { result ≡ is_named keyword.now }
{
    matches!(
        keyword,
        "config" | "try_stored" | "taken" | "try_taken" | "peeked" | "written" | "next_item"
    )
}

// Returns whether exactly one word follows a keyword.
pub(crate) fn is_short(keyword: &str) -> bool
    ensures { result ≡ is_short keyword.now }
{
    matches!(keyword, "wake" | "stored" | "item_done")
}

// Returns the call of a keyword, a name and one more word. Errors: `NoAct` if `name` is not a name; `NoCall` if no such call has this
// keyword, or the word of `try_stored` is neither `yes` nor `no`; `NoAct` if another word is not valid.
pub(crate) fn named_call(keyword: &str, name: &str, word: &str) -> Result<Call, LineFault>
    ensures { ReadsCalls (keyword.now ∷ name.now ∷ word.now ∷ []) result }
{
    let port = name_of(name)?;
    match keyword {
        "config" => Ok(Call::Config {
            field: port,
            value: value_of(word)?,
        }),
        "try_stored" => Ok(Call::TryStored {
            port,
            stored: is_stored(word)?,
        }),
        "taken" => Ok(Call::Taken {
            port,
            item: item_of(word)?,
        }),
        "try_taken" => Ok(Call::TryTaken {
            port,
            item: some_item_of(word)?,
        }),
        "peeked" => Ok(Call::Peeked {
            port,
            item: item_of(word)?,
        }),
        "written" => Ok(Call::Written {
            imp: port,
            item: item_of(word)?,
        }),
        "next_item" => Ok(Call::NextItem {
            port,
            item: some_item_of(word)?,
        }),
        _ => Err(LineFault::NoCall),
    }
}

// Returns the call of a keyword and one more word. Errors: `NoCall` if no call has this keyword; `NoAct` if the word is not valid.
pub(crate) fn short_call(keyword: &str, word: &str) -> Result<Call, LineFault>
    ensures { ReadsCalls (keyword.now ∷ word.now ∷ []) result }
{
    match keyword {
        "wake" => Ok(Call::Wake { tag: tag_of(word)? }),
        "stored" => Ok(Call::Stored {
            port: name_of(word)?,
        }),
        "item_done" => Ok(Call::ItemDone {
            response: some_item_of(word)?,
        }),
        _ => Err(LineFault::NoCall),
    }
}

// Returns the call that is a keyword alone. Errors: `NoCall` if there is no such call.
pub(crate) fn plain_call(keyword: &str) -> Result<Call, LineFault>
    ensures { ReadsCalls (keyword.now ∷ []) result }
{
    match keyword {
        "pre_start" => Ok(Call::PreStart),
        "body" => Ok(Call::Body),
        "post_start" => Ok(Call::PostStart),
        "grant" => Ok(Call::Grant),
        "held" => Ok(Call::Held),
        keyword => Ok(Call::Phase(phase_of(keyword)?)),
    }
}

// Returns the phase with this name. Errors: `NoCall` if there is none.
fn phase_of(name: &str) -> Result<Phase, LineFault>
    ensures { result ≡ phase_of name.now }
{
    match name {
        "build" => Ok(Phase::Build),
        "connect" => Ok(Phase::Connect),
        "end_of_elaboration" => Ok(Phase::EndOfElaboration),
        "start_of_simulation" => Ok(Phase::StartOfSimulation),
        "run" => Ok(Phase::Run),
        "extract" => Ok(Phase::Extract),
        "check" => Ok(Phase::Check),
        "report" => Ok(Phase::Report),
        "final" => Ok(Phase::Final),
        "pre_reset" => Ok(Phase::PreReset),
        "reset" => Ok(Phase::Reset),
        "post_reset" => Ok(Phase::PostReset),
        "pre_configure" => Ok(Phase::PreConfigure),
        "configure" => Ok(Phase::Configure),
        "post_configure" => Ok(Phase::PostConfigure),
        "pre_main" => Ok(Phase::PreMain),
        "main" => Ok(Phase::Main),
        "post_main" => Ok(Phase::PostMain),
        "pre_shutdown" => Ok(Phase::PreShutdown),
        "shutdown" => Ok(Phase::Shutdown),
        "post_shutdown" => Ok(Phase::PostShutdown),
        _ => Err(LineFault::NoCall),
    }
}

// Returns the integer of a word, or `None` for `none`. Errors: `NoAct` if the word is neither.
fn value_of(word: &str) -> Result<Option<i64>, LineFault>
    ensures { ReadsWord value_text (λ value. IfSome value IsSigned) word.now result }
{
    match word {
        "none" => Ok(None),
        word => Ok(Some(integer_of(word)?)),
    }
}

// Returns whether an item is stored: `yes` or `no`. Errors: `NoCall` if the word is neither.
fn is_stored(word: &str) -> Result<bool, LineFault>
    ensures { ReadsWord answer_text IsAny word.now result }
{
    match word {
        "yes" => Ok(true),
        "no" => Ok(false),
        _ => Err(LineFault::NoCall),
    }
}

// Returns the item of a word, or `None` for `none`. Errors: `NoAct` if the word is neither.
fn some_item_of(word: &str) -> Result<Option<Item>, LineFault>
    ensures { ReadsWord some_item_text (λ item. IfSome item IsItem) word.now result }
{
    match word {
        "none" => Ok(None),
        word => Ok(Some(item_of(word)?)),
    }
}
