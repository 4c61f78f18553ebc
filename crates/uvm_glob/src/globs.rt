//! Globs, and the paths that they match.

ghost use Rattle.std.specs.Prelude.{◌≡◌, ◌↔◌, IsTrue, IfOk, IfErr, None, nat_eq, true};
ghost use Rattle.std.specs.List.{list_all};
ghost use Rattle.std.specs.Cmp.{partial_equiv_from_equiv};
ghost use Rattle.std.specs.Cmp.Lexicographic.{pointwise, nat_list_eq_equiv};
ghost use Rattle.std.specs.Cmp.Rules.{hashing};
ghost use Rattle.std.specs.Hash.{slice, u8};
ghost use Rattle.std.proofs.Common.{rules};
ghost use Rattle.uvm_glob.specs.Faults.{refusal};
ghost use Rattle.uvm_glob.specs.Globs.{Matches, matches, glob_fault, is_glob, is_glob_byte};
ghost use Rattle.uvm_glob.specs.Paths.{dotted, path_text};
ghost use Rattle.uvm_glob.specs.Printed.{IsPrinted};

use crate::faults::PathFault;
use crate::matching::matches_text;
use crate::paths::{Path, dotted};
use crate::texts::as_text;
use std::alloc::{AllocError, Global};
use std::fmt;
use std::hash::{Hash, Hasher};
use std::marker::Model;

/// A glob: bytes from 0x21 to 0x7E, except `/`. `*` stands for zero or more characters, `+` for one or more, and `?` for exactly
/// one. Every other character stands for itself, including `.` and `[`. Contracts see its bytes.
#[derive(Drop)]
pub struct Glob {
    text: Vec<u8>,
}

impl Model for Glob {
    ghost use Rattle.std.specs.Prelude.{◌≡◌, List, ℕ, true};
    ghost use Rattle.std.specs.List.{list_all};
    ghost use Rattle.uvm_glob.specs.Globs.{is_glob_byte};

    ghost Value = { List ℕ };

    ghost view = { λ g. g.text.items };

    ghost invariant = { λ g. list_all is_glob_byte g.text.items ≡ true };
}

impl Glob {
    /// The maximum number of bytes of a glob that `new` accepts. A glob that `under` returns may have more.
    pub const MAX_LEN: usize = Path::MAX_LEN;

    /// Creates the glob with this text, which may be empty. Errors: `TooLong` if the text has more than `MAX_LEN` bytes;
    /// `BadByte` if a byte is not allowed in a glob; out of memory (`Memory`).
    pub fn new(alloc: Global, text: &[u8]) -> Result<Glob, PathFault>
        ensures ok { IfOk result (λ glob. (glob_fault text.now ≡ None) × (glob ≡ text.now)) }
        ensures err { IfErr result (λ fault. glob_fault text.now ≡ refusal fault) }
    {
        match glob_fault(text) {
            Some(fault) => Err(fault),
            None => Ok(Glob {
                text: Vec::from_slice(alloc, text)?,
            }),
        }
    }

    /// Creates the glob that a literal spells. Requires a valid glob: the caller proves it. Errors: out of memory.
    #[tactic(auto, using(crate::proofs::Literals::glob_sound))]
    pub fn literal(alloc: Global, text: &str) -> Result<Glob, AllocError>
        requires { IsTrue (is_glob text.now) }
        ensures { IfOk result (λ glob. glob ≡ text.now) }
    {
        match Glob::new(alloc, text.as_bytes()) {
            Ok(glob) => Ok(glob),
            Err(PathFault::Memory) => Err(AllocError),
            Err(PathFault::Empty | PathFault::TooLong | PathFault::BadByte | PathFault::TooDeep) =>
                { unreachable!("{text} is no glob") }
        }
    }

    /// Creates the glob for what is below a path: the path, a dot and the glob. It is the path alone if the glob is empty, and
    /// the glob alone if the path is the top's. It has at most 2,049 bytes if `new` created the given glob; otherwise it has no
    /// limit of its own. Errors: out of memory.
    pub fn under(alloc: Global, path: &Path, glob: &Glob) -> Result<Glob, AllocError>
        ensures { IfOk result (λ under. under ≡ dotted (path_text path.now) glob.now) }
    {
        Ok(Glob {
            text: dotted(alloc, path.text(), glob.text.as_slice())?,
        })
    }

    /// Returns whether the glob matches the whole text of the path. Does not allocate.
    pub fn matches(&self, path: &Path) -> bool
        ensures value { result ≡ matches self.now (path_text path.now) }
        ensures meaning { IsTrue result ↔ Matches self.now (path_text path.now) }
    {
        matches_text(self.text.as_slice(), path.text())
    }

    /// Returns the text of the glob.
    #[tactic(auto, using(crate::proofs::Bytes::bytes_printed))]
    pub fn as_bytes(&self) -> &[u8]
        ensures value { result.now ≡ self.now }
        ensures glob { list_all is_glob_byte self.now ≡ true }
        ensures printed { IsPrinted self.now }
    {
        self.text.as_slice()
    }

    /// Returns an equal glob. Errors: out of memory.
    pub fn copy(&self) -> Result<Glob, AllocError>
        ensures { IfOk result (λ glob. glob ≡ self.now) }
    {
        Ok(Glob {
            text: self.text.clone()?,
        })
    }
}

/// Compares the texts of the globs byte by byte. Globs with different texts may match the same paths.
impl PartialEq for Glob {
    ghost eq = { pointwise nat_eq };

    ghost laws = { partial_equiv_from_equiv nat_list_eq_equiv };

    fn eq(&self, other: &Glob) -> bool {
        self.as_bytes() == other.as_bytes()
    }
}

impl Eq for Glob {
    ghost laws = { nat_list_eq_equiv };
}

impl Hash for Glob {
    ghost hash_input = { slice u8 };

    ghost respects_eq = { Prim.search (hashing, rules) };

    fn hash<H: Hasher>(&self, state: &mut H) {
        self.as_bytes().hash(state);
    }
}

/// Writes the text of the glob.
impl fmt::Display for Glob {
    ghost use Rattle.std.specs.Prelude.{Some};

    ghost output = { λ glob. Some glob };

    fn fmt<W: fmt::Write>(&self, f: &mut fmt::Formatter<W>) -> fmt::Result {
        f.write_str(as_text(self.text.as_slice()))
    }
}

// Returns the first error of the text as a glob, or `None` if it is a glob.
#[tactic(auto, unfolding(crate::specs::Globs::glob_fault))]
fn glob_fault(text: &[u8]) -> Option<PathFault>
    ensures { result ≡ glob_fault text.now }
{
    if text.len() > Glob::MAX_LEN {
        Some(PathFault::TooLong)
    } else if !are_glob_bytes(text) {
        Some(PathFault::BadByte)
    } else {
        None
    }
}

// Returns whether each of the bytes is allowed in a glob.
fn are_glob_bytes(bytes: &[u8]) -> bool
    ensures { result ≡ list_all is_glob_byte bytes.now }
{
    bytes.iter().all(|b| is_glob_byte(*b))
}

// Returns whether the byte is allowed in a glob.
fn is_glob_byte(b: u8) -> bool
    ensures { result ≡ is_glob_byte b }
{
    matches!(b, 0x21..=0x7e) && b != b'/'
}
