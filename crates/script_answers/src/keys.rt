//! The keys of answers, and the calls that each key matches.

ghost use Rattle.std.specs.Prelude.{◌≡◌, ◌⊎◌, false, true, IfErr, IfOk, length};
ghost use Rattle.script_answers.specs.Keys.{IsKeyOf, IsNoKey, LacksItem, fixed, has_whole_words, is_for, item_in, key_fault};

use crate::call_laws::calls_have_words;
use crate::examples::example_of;
use crate::faults::LineFault;
use std::alloc::Global;
use std::marker::Model;
use uvm_object::Call;
use uvm_tlm::Item;

/// A key of answers: the line of a call as in the transcript, or its first words followed by `*`. The `*` matches any rest of the line.
#[derive(Drop)]
pub struct Key {
    text: Vec<u8>,
}

impl Model for Key {
    ghost use Rattle.std.specs.Prelude.{List, ℕ};

    ghost Value = { List ℕ };

    ghost view = { λ key. key.text.items };
}

impl Key {
    /// Reads a key. Also returns whether a call that the key matches has an item. Errors: `NoCall` if the text is the key of no call;
    /// `Memory` if out of memory.
    pub fn read(alloc: Global, text: &str) -> Result<(Key, bool), LineFault>
        ensures text { IfOk result (λ read. read.0 ≡ text.now) }
        ensures calls { IfOk result (λ read. IsKeyOf text.now read.1) }
        ensures whole { IfOk result (λ read. has_whole_words text.now ≡ true) }
        ensures item { IfOk result (λ read. read.1 ≡ false → LacksItem text.now) }
        ensures err { IfErr result (λ fault. (fault ≡ LineFault.Memory) ⊎ ((fault ≡ LineFault.NoCall) × IsNoKey text.now)) }
    {
        if !has_whole_words(text) {
            return Err(LineFault::NoCall);
        }
        calls_have_words();
        let (line, has_item) = match example_of(alloc, text) {
            Ok(example) => example,
            Err(fault) => return Err(key_fault(fault)),
        };
        let key = Key {
            text: Vec::from_slice(alloc, text.as_bytes())?,
        };
        if key.is_for(line.as_slice()) {
            Ok((key, has_item))
        } else {
            Err(LineFault::NoCall)
        }
    }

    /// Returns the text of the key.
    pub fn as_bytes(&self) -> &[u8]
        ensures { result.now ≡ self.now }
    {
        self.text.as_slice()
    }

    /// Returns whether the key matches the call with this line: the line is the key. If the key ends in `*`, the line begins with the text
    /// before it.
    pub fn is_for(&self, line: &[u8]) -> bool
        ensures { result ≡ is_for self.now line.now }
    {
        match self.text.split_last() {
            Some((b'*', fixed)) => line.starts_with(fixed),
            _ => line == self.text.as_slice(),
        }
    }

    /// Returns the number of bytes of the key, without a `*` at its end. The lines of its calls begin with these bytes.
    pub fn fixed_len(&self) -> usize
        ensures { result ≡ length (fixed self.now) }
    {
        match self.text.split_last() {
            Some((b'*', fixed)) => fixed.len(),
            _ => self.text.len(),
        }
    }
}

// Returns the fault of a key whose call cannot be read: `Memory` stays, and any other fault becomes `NoCall`.
fn key_fault(fault: LineFault) -> LineFault
    ensures { result ≡ key_fault fault }
{
    match fault {
        LineFault::Memory => LineFault::Memory,
        _ => LineFault::NoCall,
    }
}

// Returns whether a key has whole words: a `*` at its end, if it has one, is a word of its own.
fn has_whole_words(key: &str) -> bool
    ensures { result ≡ has_whole_words key.now }
{
    match key.as_bytes().split_last() {
        Some((b'*', fixed)) => matches!(fixed.last(), None | Some(b' ')),
        _ => true,
    }
}

/// Returns the item of a call, if it has one.
pub fn item_in(call: &Call) -> Option<Item>
    ensures { result ≡ item_in call.now }
{
    match call {
        Call::Taken { item, .. } | Call::Peeked { item, .. } | Call::Written { item, .. } => {
            Some(*item)
        }
        Call::TryTaken { item, .. } | Call::NextItem { item, .. } => *item,
        Call::ItemDone { response } => *response,
        _ => None,
    }
}
