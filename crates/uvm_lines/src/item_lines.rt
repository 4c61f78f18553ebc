//! The texts of items, and of kinds of ports and FIFO transfers.

ghost use Rattle.std.specs.Prelude.{◌≡◌, ◌++◌, ◌∷◌, ◌<◌, OnOk};
ghost use Rattle.uvm_glob.specs.Printed.{IsPrinted};
ghost use Rattle.uvm_lines.specs.Lines.{answer_text, item_text, kind_text, move_text, some_item_text, word_text};

use crate::lines::push_integer;
use std::alloc::AllocError;
use uvm_glob::Name;
use uvm_tlm::{Item, MoveKind, PortKind};

// Appends a text and the name of a port or an imp.
pub(crate) fn push_named(word: &[u8], name: &Name, line: &mut Vec<u8>) -> Result<(), AllocError>
    ensures text { OnOk result (line.new.items ≡ line.old.items ++ (word.now ++ name.now)) }
    ensures printed { OnOk result (IsPrinted name.now) }
{
    line.extend_from_slice(word)?;
    line.extend_from_slice(name.as_bytes())
}

// Appends a text, the name of a port or an imp, a blank and an item.
#[tactic(auto, using(crate::proofs::Printed::printed))]
pub(crate) fn push_named_item(
    word: &[u8],
    name: &Name,
    item: &Item,
    line: &mut Vec<u8>,
) -> Result<(), AllocError>
    ensures text { OnOk result (line.new.items ≡ line.old.items ++ (word.now ++ name.now ++ 32 ∷ item_text item.now)) }
    ensures printed { OnOk result (IsPrinted (name.now ++ 32 ∷ item_text item.now)) }
{
    push_named(word, name, line)?;
    line.push(b' ')?;
    push_item(item, line)
}

// Appends an item, or `none` if there is none.
#[tactic(auto, using(crate::proofs::Printed::printed))]
pub(crate) fn push_some_item(item: &Option<Item>, line: &mut Vec<u8>) -> Result<(), AllocError>
    ensures text { OnOk result (line.new.items ≡ line.old.items ++ some_item_text item.now) }
    ensures printed { OnOk result (IsPrinted (some_item_text item.now)) }
{
    match item {
        Some(item) => push_item(item, line),
        None => line.extend_from_slice(b"none"),
    }
}

// Appends the four values of an item in brackets, with commas between them.
#[tactic(auto, using(crate::proofs::Printed::printed))]
pub(crate) fn push_item(item: &Item, line: &mut Vec<u8>) -> Result<(), AllocError>
    ensures text { OnOk result (line.new.items ≡ line.old.items ++ item_text item.now) }
    ensures printed { OnOk result (IsPrinted (item_text item.now)) }
{
    push_word(b'[', item, 0, line)?;
    push_word(b',', item, 1, line)?;
    push_word(b',', item, 2, line)?;
    push_word(b',', item, 3, line)?;
    line.push(b']')?;
    Ok(())
}

// Appends a byte, and the value of an item at a place in decimal. Requires a place below 4.
#[tactic(auto, using(crate::proofs::Printed::printed))]
fn push_word(byte: u8, item: &Item, place: usize, line: &mut Vec<u8>) -> Result<(), AllocError>
    requires { place < 4 }
    ensures text { OnOk result (line.new.items ≡ line.old.items ++ (byte ∷ word_text item.now place)) }
    ensures printed { OnOk result (IsPrinted (word_text item.now place)) }
{
    line.push(byte)?;
    push_integer(item.0[place], line)
}

pub(crate) fn answer_text(answer: bool) -> &'static str
    ensures { result.now ≡ answer_text answer }
{
    if answer { "yes" } else { "no" }
}

pub(crate) fn kind_text(kind: PortKind) -> &'static str
    ensures { result.now ≡ kind_text kind }
{
    match kind {
        PortKind::Put => "put",
        PortKind::Get => "get",
        PortKind::Analysis => "analysis",
        PortKind::Seq => "seq",
    }
}

pub(crate) fn move_text(kind: MoveKind) -> &'static str
    ensures { result.now ≡ move_text kind }
{
    match kind {
        MoveKind::Put => "put",
        MoveKind::Take => "take",
        MoveKind::Peek => "peek",
    }
}
