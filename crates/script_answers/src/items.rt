//! Reads items and the kinds of ports.

ghost use Rattle.uvm_lines.specs.Lines.{item_text, kind_text, some_item_text};
ghost use Rattle.std.specs.Prelude.{◌≡◌, ◌∷◌, ◌++◌, ℕ, ℤ, List, IfSome, MatchResult};
ghost use Rattle.std.specs.Fmt.{signed_decimal};
ghost use Rattle.script_answer_acts.specs.Sound.{IsItem, IsSigned};
ghost use Rattle.script_answers.specs.Words.{IsAny, Reads, ReadsWord, words_left};

use crate::faults::LineFault;
use crate::words::{Words, between, integer_of};
use uvm_tlm::{Item, PortKind};

// Returns the item of a word. Errors: `NoAct` if the word is not an item.
pub(crate) fn item_of(word: &str) -> Result<Item, LineFault>
    ensures { ReadsWord item_text IsItem word.now result }
{
    let words = between(word, '[', ']')?;
    let (first, words) = integer_before(words)?;
    let (second, words) = integer_before(words)?;
    let (third, fourth) = integer_before(words)?;
    Ok(Item([first, second, third, integer_of(fourth)?]))
}

// Returns the integer before the first comma of a text, and the text after the comma. Errors: `NoAct` if there is none.
fn integer_before(text: &str) -> Result<(i64, &str), LineFault>
    ensures { (first : ℤ) (others : List ℕ) → IsSigned first → text.now ≡ signed_decimal first ++ 44 ∷ others
        → MatchResult result (λ read. (read.0 ≡ first) × (read.1.now ≡ others)) (λ _. ⊥) }
{
    let (first, others) = text.split_once(',').ok_or(LineFault::NoAct)?;
    Ok((integer_of(first)?, others))
}

// Reads the next word as an item.
pub(crate) fn item(words: &mut Words<'_>) -> Result<Item, LineFault>
    ensures { Reads item_text IsItem (words_left words.old) (words_left words.new) result }
{
    item_of(words.word()?)
}

// Reads the next word as an item or `none`.
pub(crate) fn some_item(words: &mut Words<'_>) -> Result<Option<Item>, LineFault>
    ensures { Reads some_item_text (λ item. IfSome item IsItem) (words_left words.old) (words_left words.new) result }
{
    match words.word()? {
        "none" => Ok(None),
        word => Ok(Some(item_of(word)?)),
    }
}

// Reads the next word as the kind of a port.
pub(crate) fn port_kind(words: &mut Words<'_>) -> Result<PortKind, LineFault>
    ensures { Reads kind_text IsAny (words_left words.old) (words_left words.new) result }
{
    match words.word()? {
        "put" => Ok(PortKind::Put),
        "get" => Ok(PortKind::Get),
        "analysis" => Ok(PortKind::Analysis),
        "seq" => Ok(PortKind::Seq),
        _ => Err(LineFault::NoAct),
    }
}
