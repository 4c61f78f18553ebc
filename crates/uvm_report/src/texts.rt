//! The texts of reports.

ghost use Rattle.std.specs.Prelude.{◌≡◌, None, Some, IfSome, IfOk, IfErr, IsTrue};
ghost use Rattle.std.specs.List.{list_all};
ghost use Rattle.uvm_report.specs.Texts.{byte_shown, is_text, is_text_byte, lossy, text_fault, refusal};

use crate::faults::TextFault;
use std::alloc::{AllocError, Global};
use std::marker::Model;

/// The text of a report: at most 200 bytes, each from 0x20 to 0x7E. Contracts see its bytes.
#[derive(Drop)]
pub struct Text {
    bytes: Vec<u8>,
}

impl Model for Text {
    ghost use Rattle.std.specs.Prelude.{◌≡◌, List, ℕ, None};
    ghost use Rattle.uvm_report.specs.Texts.{text_fault};

    ghost Value = { List ℕ };

    ghost view = { λ t. t.bytes.items };

    ghost invariant = { λ t. text_fault t.bytes.items ≡ None };
}

impl Text {
    /// The largest number of bytes of a text.
    pub const MAX_LEN: usize = 200;

    /// Creates the text with these bytes. Errors, in this order: `TooLong`, `BadByte`; out of memory (`Memory`).
    pub fn new(alloc: Global, bytes: &[u8]) -> Result<Text, TextFault>
        ensures ok { IfOk result (λ text. (text_fault bytes.now ≡ None) × (text ≡ bytes.now)) }
        ensures err { IfErr result (λ fault. text_fault bytes.now ≡ refusal fault) }
    {
        match text_fault(bytes) {
            Some(fault) => Err(fault),
            None => Ok(Text {
                bytes: Vec::from_slice(alloc, bytes)?,
            }),
        }
    }

    /// Creates the text of a literal. The caller's proof shows that the literal is a valid text. Errors: out of memory.
    #[tactic(auto, using(crate::proofs::Literals::text_sound))]
    pub fn literal(alloc: Global, text: &str) -> Result<Text, AllocError>
        requires { IsTrue (is_text text.now) }
        ensures { IfOk result (λ literal. literal ≡ text.now) }
    {
        match Text::new(alloc, text.as_bytes()) {
            Ok(text) => Ok(text),
            Err(TextFault::Memory) => Err(AllocError),
            Err(TextFault::TooLong | TextFault::BadByte) => unreachable!("{text} is no text"),
        }
    }

    /// Creates the valid text nearest to `text`: its first `MAX_LEN` bytes, with a question mark for each byte that a text may not have.
    /// So it accepts everything that `format!` writes. Errors: out of memory.
    pub fn lossy(alloc: Global, text: &str) -> Result<Text, AllocError>
        ensures nearest { IfOk result (λ nearest. nearest ≡ lossy text.now) }
        ensures same { text_fault text.now ≡ None → IfOk result (λ nearest. nearest ≡ text.now) }
    {
        let bytes = bytes_shown(alloc, text.as_bytes())?;
        Ok(Text { bytes })
    }

    /// Returns the bytes of the text.
    pub fn as_bytes(&self) -> &[u8]
        ensures value { result.now ≡ self.now }
        ensures text { text_fault self.now ≡ None }
    {
        self.bytes.as_slice()
    }

    /// Creates an equal text. Errors: out of memory.
    pub fn copy(&self) -> Result<Text, AllocError>
        ensures { IfOk result (λ text. text ≡ self.now) }
    {
        Ok(Text {
            bytes: self.bytes.clone()?,
        })
    }
}

// Returns the first error of some bytes as a text, if there is one.
#[tactic(auto, unfolding(crate::specs::Texts::text_fault))]
fn text_fault(bytes: &[u8]) -> Option<TextFault>
    ensures fault { result ≡ text_fault bytes.now }
    ensures refusal { IfSome result (λ fault. refusal fault ≡ Some fault) }
{
    if bytes.len() > Text::MAX_LEN {
        Some(TextFault::TooLong)
    } else if !are_text_bytes(bytes) {
        Some(TextFault::BadByte)
    } else {
        None
    }
}

// Returns whether a text may have each of the bytes.
fn are_text_bytes(bytes: &[u8]) -> bool
    ensures { result ≡ list_all is_text_byte bytes.now }
{
    bytes.iter().all(|b| is_text_byte(*b))
}

// Returns the first `Text::MAX_LEN` bytes, each as `byte_shown` returns it. Errors: out of memory.
fn bytes_shown(alloc: Global, bytes: &[u8]) -> Result<Vec<u8>, AllocError>
    ensures { IfOk result (λ shown. shown.items ≡ lossy bytes.now) }
{
    let first = bytes.iter().take(Text::MAX_LEN);
    first.map(|b| byte_shown(*b)).collect(alloc)
}

// Returns the byte, or a question mark if a text may not have it.
fn byte_shown(b: u8) -> u8
    ensures { result ≡ byte_shown b }
{
    if is_text_byte(b) { b } else { b'?' }
}

// Returns whether a text may have the byte.
fn is_text_byte(b: u8) -> bool
    ensures { result ≡ is_text_byte b }
{
    matches!(b, 0x20..=0x7e)
}
