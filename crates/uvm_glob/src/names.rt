//! Names of components, types and fields.

ghost use Rattle.std.specs.Prelude.{◌≡◌, ◌≤◌, ◌-◌, ◌++◌, length, replicate, None, IfNone, IsTrue, nat_eq, refl};
ghost use Rattle.std.specs.List.{list_all};
ghost use Rattle.std.specs.Cmp.{partial_equiv_from_equiv};
ghost use Rattle.std.specs.Cmp.Lexicographic.{pointwise, slice_cmp, nat_list_eq_equiv, nat_list_cmp_total, texts_po, texts_ties};
ghost use Rattle.std.specs.Cmp.Rules.{hashing};
ghost use Rattle.std.specs.Hash.{slice, u8};
ghost use Rattle.std.specs.Ordering.{nat_cmp, as_partial_cmp};
ghost use Rattle.std.proofs.Common.{rules};
ghost use Rattle.uvm_glob.specs.Faults.{unless};
ghost use Rattle.uvm_glob.specs.Limits.{most_name_bytes};
ghost use Rattle.uvm_glob.specs.Names.{name_fault, is_name, is_name_byte};
ghost use Rattle.uvm_glob.specs.Printed.{IsPrinted};

use crate::faults::PathFault;
use crate::texts::as_text;
use std::cmp::Ordering;
use std::fmt;
use std::hash::{Hash, Hasher};
use std::marker::Model;

/// A name: 1 to `MAX_LEN` bytes from 0x21 to 0x7E, except `.`, `*`, `+`, `?` and `/`. It is stored inline. Contracts see its
/// bytes. Names are ordered byte by byte.
#[derive(Clone, Copy)]
pub struct Name {
    len: u8,
    // The bytes, followed by zeros.
    bytes: [u8; Name::MAX_LEN],
}

impl Model for Name {
    ghost use Rattle.std.specs.Prelude.{◌≡◌, ◌≤◌, ◌-◌, ◌++◌, List, ℕ, length, take, drop, replicate, None};
    ghost use Rattle.uvm_glob.specs.Limits.{most_name_bytes};
    ghost use Rattle.uvm_glob.specs.Names.{name_fault};

    ghost Value = { List ℕ };

    ghost view = { λ n. take n.len n.bytes };

    ghost invariant = { λ n. (n.len ≤ most_name_bytes) × (length n.bytes ≡ most_name_bytes) × (name_fault (take n.len n.bytes) ≡ None) × (drop n.len n.bytes ≡ replicate (most_name_bytes - n.len) 0) };

    ghost inverse = { λ text. record { len = length text; bytes = text ++ replicate (most_name_bytes - length text) 0 } };

    ghost use Rattle.uvm_glob.specs.Held.{within, held_len, held_bytes};

    ghost inverse_ok = { λ n holds i. record {
      len = held_len n.len n.bytes (within n.len n.bytes holds.0 holds.1) i;
      bytes = held_bytes n.len n.bytes (within n.len n.bytes holds.0 holds.1) holds.3 i;
    } };
}

impl Name {
    /// The maximum number of bytes of a name.
    pub const MAX_LEN: usize = 64;

    /// Creates the name with these bytes. Errors: `Empty` if there is no byte; `TooLong` if there are more than `MAX_LEN`;
    /// `BadByte` if a byte is not allowed in a name.
    pub fn new(bytes: &[u8]) -> Result<Name, PathFault>
        ensures { result ≡ unless (name_fault bytes.now) bytes.now }
    {
        match name_fault(bytes) {
            Some(fault) => Err(fault),
            None => Ok(Name::of_sound(bytes)),
        }
    }

    // Creates the name with these bytes, which must be valid; does not check them.
    pub(crate) fn of_sound(bytes: &[u8]) -> Name
        requires sound { name_fault bytes.now ≡ None }
        requires short { length bytes.now ≤ most_name_bytes }
        ensures { result ≡ bytes.now }
    {
        Name {
            len: bytes.len() as u8,
            bytes: padded(bytes),
        }
    }

    /// Creates the name that a literal spells. Requires a valid name: the caller proves it, so the call cannot fail at run time.
    #[tactic(auto, using(crate::proofs::Literals::name_sound))]
    pub fn literal(text: &str) -> Name
        requires { IsTrue (is_name text.now) }
        ensures { result ≡ text.now }
    {
        let Ok(name) = Name::new(text.as_bytes()) else {
            unreachable!("{text} is no name")
        };
        name
    }

    /// Returns the bytes of the name.
    #[tactic(auto, using(crate::proofs::Bytes::name_printed))]
    pub fn as_bytes(&self) -> &[u8]
        ensures value { result.now ≡ self.now }
        ensures name { name_fault self.now ≡ None }
        ensures printed { IsPrinted self.now }
    {
        &self.bytes[..usize::from(self.len)]
    }
}

impl PartialEq for Name {
    ghost eq = { pointwise nat_eq };

    ghost laws = { partial_equiv_from_equiv nat_list_eq_equiv };

    fn eq(&self, other: &Name) -> bool {
        self.as_bytes() == other.as_bytes()
    }
}

impl Eq for Name {
    ghost laws = { nat_list_eq_equiv };
}

impl PartialOrd for Name {
    ghost partial_cmp = { as_partial_cmp (slice_cmp nat_cmp) };

    ghost laws = { texts_po };

    fn partial_cmp(&self, other: &Name) -> Option<Ordering> {
        Some(self.cmp(other))
    }
}

impl Ord for Name {
    ghost cmp = { slice_cmp nat_cmp };

    ghost total = { nat_list_cmp_total };

    ghost matches_partial_cmp = { λ x y. refl };

    ghost matches_eq = { texts_ties };

    fn cmp(&self, other: &Name) -> Ordering {
        self.as_bytes().cmp(other.as_bytes())
    }
}

impl Hash for Name {
    ghost hash_input = { slice u8 };

    ghost respects_eq = { Prim.search (hashing, rules) };

    fn hash<H: Hasher>(&self, state: &mut H) {
        self.as_bytes().hash(state);
    }
}

/// Writes the bytes of the name.
impl fmt::Display for Name {
    ghost use Rattle.std.specs.Prelude.{Some};

    ghost output = { λ name. Some name };

    #[tactic(auto, using(crate::proofs::Bytes::name_bytes))]
    fn fmt<W: fmt::Write>(&self, f: &mut fmt::Formatter<W>) -> fmt::Result {
        f.write_str(as_text(self.as_bytes()))
    }
}

// Returns the bytes, followed by zeros.
pub(crate) fn padded<const N: usize>(bytes: &[u8]) -> [u8; N]
    requires { length bytes.now ≤ N }
    ensures { result ≡ bytes.now ++ replicate (N - length bytes.now) 0 }
{
    let mut held = [0; N];
    held[..bytes.len()].copy_from_slice(bytes);
    held
}

// Returns the first error of the bytes as a name, or `None` if they are a name.
#[tactic(auto, unfolding(crate::specs::Names::name_fault))]
fn name_fault(bytes: &[u8]) -> Option<PathFault>
    ensures fault { result ≡ name_fault bytes.now }
    ensures short { IfNone result (length bytes.now ≤ most_name_bytes) }
{
    if bytes.is_empty() {
        Some(PathFault::Empty)
    } else if bytes.len() > Name::MAX_LEN {
        Some(PathFault::TooLong)
    } else if !are_name_bytes(bytes) {
        Some(PathFault::BadByte)
    } else {
        None
    }
}

// Returns whether each of the bytes is allowed in a name.
pub(crate) fn are_name_bytes(bytes: &[u8]) -> bool
    ensures { result ≡ list_all is_name_byte bytes.now }
{
    bytes.iter().all(|b| is_name_byte(*b))
}

// Returns whether the byte is allowed in a name.
pub(crate) fn is_name_byte(b: u8) -> bool
    ensures { result ≡ is_name_byte b }
{
    matches!(b, 0x21..=0x7e) && !matches!(b, b'*' | b'+' | b'.' | b'/' | b'?')
}
