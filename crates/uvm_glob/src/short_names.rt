//! Short names, stored in few bytes.

ghost use Rattle.std.specs.Prelude.{◌≡◌, length, IfSome, is_some, nat_le};
ghost use Rattle.uvm_glob.specs.Limits.{most_short_bytes};

use crate::names::{Name, padded};
use std::marker::Model;

/// A name of at most `MAX_LEN` bytes, stored in one byte more than that. Contracts see its bytes.
#[derive(Drop)]
pub struct ShortName {
    len: u8,
    // The bytes of the name, followed by unused bytes.
    bytes: [u8; ShortName::MAX_LEN],
}

impl Model for ShortName {
    ghost use Rattle.std.specs.Prelude.{◌≡◌, ◌≤◌, List, ℕ, length, take, None};
    ghost use Rattle.uvm_glob.specs.Names.{name_fault};
    ghost use Rattle.uvm_glob.specs.Limits.{most_short_bytes};

    ghost Value = { List ℕ };

    ghost view = { λ n. take n.len n.bytes };

    ghost invariant = { λ n. (n.len ≤ most_short_bytes) × (length n.bytes ≡ most_short_bytes) × (name_fault (take n.len n.bytes) ≡ None) };
}

impl ShortName {
    /// The maximum number of bytes of a short name.
    pub const MAX_LEN: usize = 13;

    /// Creates the short form of a name. Returns `None` if the name has more than `MAX_LEN` bytes.
    pub fn new(name: &Name) -> Option<ShortName>
        ensures some { is_some result ≡ nat_le (length name.now) most_short_bytes }
        ensures name { IfSome result (λ short. short ≡ name.now) }
    {
        let bytes = name.as_bytes();
        if bytes.len() > ShortName::MAX_LEN {
            return None;
        }
        Some(ShortName {
            len: bytes.len() as u8,
            bytes: padded(bytes),
        })
    }

    /// Returns an equal short name. Does not allocate.
    pub fn copy(&self) -> ShortName
        ensures { result ≡ self.now }
    {
        ShortName {
            len: self.len,
            bytes: self.bytes,
        }
    }

    /// Returns the name.
    pub fn name(&self) -> Name
        ensures { result ≡ self.now }
    {
        Name::of_sound(&self.bytes[..usize::from(self.len)])
    }
}
