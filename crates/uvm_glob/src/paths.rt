//! Paths: the lists of names that lead from the top of a testbench to its components.

ghost use Rattle.std.specs.Prelude.{count_by, ◌≡◌, ◌+◌, ◌≤◌, [], ◌∷◌, ◌++◌, length, None, IfOk, IfErr, OnOk, OnErr, nat_lt, nat_eq, ◌==◌, refl, true, IsTrue};
ghost use Rattle.std.specs.Cmp.{partial_equiv_from_equiv, po};
ghost use Rattle.std.specs.Cmp.Lexicographic.{pointwise, slice_cmp, lists_equiv, lists_total, lists_ties, nat_list_eq_equiv, nat_list_cmp_total, texts_ties};
ghost use Rattle.std.specs.List.{list_any, list_all};
ghost use Rattle.std.specs.Ordering.{nat_cmp, as_partial_cmp};
ghost use Rattle.uvm_glob.specs.Faults.{refusal};
ghost use Rattle.uvm_glob.specs.Globs.{is_glob_byte};
ghost use Rattle.uvm_glob.specs.Limits.{most_name_bytes, most_names, most_text_bytes};
ghost use Rattle.uvm_glob.specs.Names.{is_name_byte};
ghost use Rattle.uvm_glob.specs.Orders.{down_cmp, up_cmp, order_of};
ghost use Rattle.uvm_glob.specs.Paths.{path_text, path_fault, is_path, between_dots, names_of, dotted, size_fault};
ghost use Rattle.uvm_glob.specs.Printed.{IsPrinted};

use crate::faults::PathFault;
use crate::names::{Name, are_name_bytes};
use crate::orders::{Direction, down_cmp, up_cmp};
use crate::texts::as_text;
use std::alloc::{AllocError, Global};
use std::cmp::Ordering;
use std::fmt;
use std::marker::Model;

/// A path: the names from below the top down to a component. It has at most `MAX_NAMES` names. Its text is the names with a dot
/// between each two, at most `MAX_LEN` bytes. The path of the top has no name. Contracts see the list of the names.
///
/// Paths are ordered by `Direction::Down`: name by name in byte order, and a parent before its children. `cmp_in` compares in
/// either direction.
#[derive(Drop)]
pub struct Path {
    pub(crate) text: Vec<u8>,
}

impl Model for Path {
    ghost use Rattle.std.specs.Prelude.{◌≡◌, List, ℕ, None};
    ghost use Rattle.uvm_glob.specs.Paths.{names_of, path_fault};

    ghost Value = { List (List ℕ) };

    ghost view = { λ p. names_of p.text.items };

    ghost invariant = { λ p. path_fault (names_of p.text.items) ≡ None };
}

impl Path {
    /// The maximum number of names of a path.
    pub const MAX_NAMES: usize = 32;

    /// The maximum number of bytes of the text of a path.
    pub const MAX_LEN: usize = 1024;

    /// Creates the path of the top.
    #[tactic(auto, unfolding(crate::specs::Paths::path_fault))]
    pub fn top(alloc: Global) -> Path
        ensures { result ≡ [] }
    {
        Path {
            text: Vec::new(alloc),
        }
    }

    /// Creates the path with this text, which cannot be the path of the top. Errors: `Empty` if a name or the whole text is
    /// empty; `TooLong` if a name has more than `Name::MAX_LEN` bytes or the text more than `MAX_LEN`; `BadByte` if a byte is not
    /// allowed in a name; `TooDeep` if there are more than `MAX_NAMES` names; out of memory (`Memory`).
    pub fn parse(alloc: Global, text: &[u8]) -> Result<Path, PathFault>
        ensures ok { IfOk result (λ path. (path_fault (between_dots text.now) ≡ None) × (path ≡ between_dots text.now)) }
        ensures err { IfErr result (λ fault. path_fault (between_dots text.now) ≡ refusal fault) }
    {
        match text_fault(text) {
            Some(fault) => Err(fault),
            None => Ok(Path {
                text: Vec::from_slice(alloc, text)?,
            }),
        }
    }

    /// Creates the path that a literal spells; an empty literal is the path of the top. Requires a valid path: the caller proves
    /// it. Errors: out of memory.
    #[tactic(auto, using(crate::proofs::Literals::path_sound))]
    pub fn literal(alloc: Global, text: &str) -> Result<Path, AllocError>
        requires { IsTrue (is_path text.now) }
        ensures { IfOk result (λ path. path ≡ names_of text.now) }
    {
        if text.is_empty() {
            return Ok(Path::top(alloc));
        }
        match Path::parse(alloc, text.as_bytes()) {
            Ok(path) => Ok(path),
            Err(PathFault::Memory) => Err(AllocError),
            Err(PathFault::Empty | PathFault::TooLong | PathFault::BadByte | PathFault::TooDeep) =>
                { unreachable!("{text} is no path") }
        }
    }

    /// Returns the path of the child with this name. Errors: `TooLong` if its text would have more than `MAX_LEN` bytes;
    /// `TooDeep` if it would have more than `MAX_NAMES` names; out of memory (`Memory`).
    pub fn child(&self, name: &Name) -> Result<Path, PathFault>
        ensures ok { IfOk result (λ path. (path_fault (self.now ++ name.now ∷ []) ≡ None) × (path ≡ self.now ++ name.now ∷ [])) }
        ensures err { IfErr result (λ fault. path_fault (self.now ++ name.now ∷ []) ≡ refusal fault) }
    {
        self.extended(name.as_bytes())
    }

    /// Appends a name to a path that has `depth` names. The names are not counted, so the time does not grow with the length of
    /// the path unless the text is reallocated. Errors: `TooLong`, then `TooDeep`, each if `child` would return it; out of memory
    /// (`Memory`). An error changes nothing.
    pub fn push_at(&mut self, depth: usize, name: &Name) -> Result<(), PathFault>
        requires { depth ≡ length self.old }
        ensures ok { OnOk result (self.new ≡ self.old ++ name.now ∷ []) }
        ensures fits { OnOk result (path_fault (self.old ++ name.now ∷ []) ≡ None) }
        ensures fault { IfErr result (λ fault. path_fault (self.old ++ name.now ∷ []) ≡ refusal fault) }
        ensures err { OnErr result (self.new ≡ self.old) }
    {
        self.extend(depth, name.as_bytes())
    }

    /// Returns why the path of the child with this name does not exist: `TooLong`, then `TooDeep`; `None` if it exists. Does not
    /// allocate.
    pub fn child_fault(&self, name: &Name) -> Option<PathFault>
        ensures { result ≡ path_fault (self.now ++ name.now ∷ []) }
    {
        size_fault(self.text.as_slice(), name.as_bytes())
    }

    /// Returns the path with the names of this path followed by those of `other`. Errors: `TooLong` if its text would have more
    /// than `MAX_LEN` bytes; `TooDeep` if it would have more than `MAX_NAMES` names; out of memory (`Memory`).
    pub fn join(&self, other: &Path) -> Result<Path, PathFault>
        ensures ok { IfOk result (λ path. (path_fault (self.now ++ other.now) ≡ None) × (path ≡ self.now ++ other.now)) }
        ensures err { IfErr result (λ fault. path_fault (self.now ++ other.now) ≡ refusal fault) }
    {
        self.extended(other.text.as_slice())
    }

    /// Returns the number of names, 0 for the top and at most `MAX_NAMES`.
    pub fn depth(&self) -> usize
        ensures count { result ≡ length self.now }
        ensures limit { result ≤ most_names }
    {
        count_names(self.text.as_slice())
    }

    /// Appends the text of the path to `out`. Errors: out of memory. An error changes nothing.
    pub fn write(&self, out: &mut Vec<u8>) -> Result<(), AllocError>
        ensures ok { OnOk result (out.new.items ≡ out.old.items ++ path_text self.now) }
        ensures err { OnErr result (out.new.items ≡ out.old.items) }
    {
        out.extend_from_slice(self.text())
    }

    /// Compares the path with another in the order of `direction`. Does not allocate.
    pub fn cmp_in(&self, direction: Direction, other: &Path) -> Ordering
        ensures { result ≡ order_of direction self.now other.now }
    {
        match direction {
            Direction::Down => self.cmp(other),
            Direction::Up => self.up_cmp(other),
        }
    }

    /// Compares the path with another in the order `Up`, in which children precede their parent. Does not allocate.
    pub fn up_cmp(&self, other: &Path) -> Ordering
        ensures { result ≡ up_cmp self.now other.now }
    {
        up_cmp(self.text.as_slice(), other.text.as_slice())
    }

    /// Returns an equal path. Errors: out of memory.
    pub fn copy(&self) -> Result<Path, AllocError>
        ensures { IfOk result (λ path. path ≡ self.now) }
    {
        Ok(Path {
            text: self.text.clone()?,
        })
    }

    /// Returns the bytes of the text of the path: its names with a dot between each two, and no byte for the top. Does not
    /// allocate.
    #[tactic(auto, using(crate::proofs::Bytes::bytes_printed))]
    pub fn as_bytes(&self) -> &[u8]
        ensures text { result.now ≡ path_text self.now }
        ensures names { names_of result.now ≡ self.now }
        ensures path { path_fault self.now ≡ None }
        ensures printed { IsPrinted (path_text self.now) }
    {
        self.text()
    }

    // Returns the text of the path.
    pub(crate) fn text(&self) -> &[u8]
        ensures text { result.now ≡ path_text self.now }
        ensures names { names_of result.now ≡ self.now }
        ensures path { path_fault self.now ≡ None }
        ensures bytes { list_all is_glob_byte result.now ≡ true }
    {
        self.text.as_slice()
    }

    // Appends the names of the text `back` to a path that has `depth` names. Errors: `TooLong`; `TooDeep`; out of memory
    // (`Memory`). An error changes nothing.
    fn extend(&mut self, depth: usize, back: &[u8]) -> Result<(), PathFault>
        requires depth { depth ≡ length self.old }
        requires back { path_fault (names_of back.now) ≡ None }
        ensures ok { OnOk result (self.new ≡ self.old ++ names_of back.now) }
        ensures fits { OnOk result (path_fault (self.old ++ names_of back.now) ≡ None) }
        ensures fault { IfErr result (λ fault. path_fault (self.old ++ names_of back.now) ≡ refusal fault) }
        ensures err { OnErr result (self.new ≡ self.old) }
    {
        if let Some(fault) = size_fault_at(self.text.as_slice(), depth, back) {
            return Err(fault);
        }
        go_on(&mut self.text, back)?;
        Ok(())
    }

    // Returns the path followed by the names of the text `back`. Errors: `TooLong`; `TooDeep`; out of memory (`Memory`).
    fn extended(&self, back: &[u8]) -> Result<Path, PathFault>
        requires { path_fault (names_of back.now) ≡ None }
        ensures ok { IfOk result (λ path. (path_fault (self.now ++ names_of back.now) ≡ None) × (path ≡ self.now ++ names_of back.now)) }
        ensures err { IfErr result (λ fault. path_fault (self.now ++ names_of back.now) ≡ refusal fault) }
    {
        let front = self.text.as_slice();
        match size_fault(front, back) {
            Some(fault) => Err(fault),
            None => Ok(Path {
                text: dotted(*self.text.allocator(), front, back)?,
            }),
        }
    }
}

/// Writes the text of the path as `write` does; the text of the top is empty.
impl fmt::Display for Path {
    ghost use Rattle.std.specs.Prelude.{Some};

    ghost output = { λ path. Some (path_text path) };

    fn fmt<W: fmt::Write>(&self, f: &mut fmt::Formatter<W>) -> fmt::Result {
        f.write_str(as_text(self.text()))
    }
}

impl PartialEq for Path {
    ghost eq = { pointwise (pointwise nat_eq) };

    ghost laws = { partial_equiv_from_equiv (lists_equiv nat_list_eq_equiv) };

    #[tactic(auto, using(crate::proofs::TextOrders::orders))]
    fn eq(&self, other: &Path) -> bool {
        self.text.as_slice() == other.text.as_slice()
    }
}

impl Eq for Path {
    ghost laws = { lists_equiv nat_list_eq_equiv };
}

impl PartialOrd for Path {
    ghost partial_cmp = { as_partial_cmp down_cmp };

    ghost laws = { po (lists_total nat_list_cmp_total) (lists_ties (slice_cmp nat_cmp) texts_ties) };

    fn partial_cmp(&self, other: &Path) -> Option<Ordering> {
        Some(self.cmp(other))
    }
}

impl Ord for Path {
    ghost cmp = { down_cmp };

    ghost total = { lists_total nat_list_cmp_total };

    ghost matches_partial_cmp = { λ x y. refl };

    ghost matches_eq = { lists_ties (slice_cmp nat_cmp) texts_ties };

    fn cmp(&self, other: &Path) -> Ordering {
        down_cmp(self.text.as_slice(), other.text.as_slice())
    }
}

// Returns the two texts with a dot between them, or without the dot if one of them is empty. Errors: out of memory.
pub(crate) fn dotted(alloc: Global, front: &[u8], back: &[u8]) -> Result<Vec<u8>, AllocError>
    ensures { IfOk result (λ text. text.items ≡ dotted front.now back.now) }
{
    let mut text = Vec::from_slice(alloc, front)?;
    if !front.is_empty() && !back.is_empty() {
        text.push(b'.')?;
    }
    text.extend_from_slice(back)?;
    Ok(text)
}

// Appends a dot and the text `back`; omits the dot if one of the two texts is empty. Errors: out of memory. An error changes
// nothing.
fn go_on(text: &mut Vec<u8>, back: &[u8]) -> Result<(), AllocError>
    ensures ok { OnOk result (text.new.items ≡ dotted text.old.items back.now) }
    ensures err { OnErr result (text.new.items ≡ text.old.items) }
{
    let before = text.len();
    if !text.is_empty() && !back.is_empty() {
        text.push(b'.')?;
    }
    let extended = text.extend_from_slice(back);
    if extended.is_err() {
        text.truncate(before);
    }
    extended
}

// Returns the size error of the path that the texts of two paths make together: `TooLong`, then `TooDeep`; `None` if it has none.
pub(crate) fn size_fault(front: &[u8], back: &[u8]) -> Option<PathFault>
    requires front_short { length front.now ≤ most_text_bytes }
    requires back_short { length back.now ≤ most_text_bytes }
    ensures { result ≡ size_fault (length (dotted front.now back.now)) (length (names_of front.now) + length (names_of back.now)) }
{
    size_fault_at(front, count_names(front), back)
}

// Returns what `size_fault` returns, for a first path that has `depth` names; these are not counted.
fn size_fault_at(front: &[u8], depth: usize, back: &[u8]) -> Option<PathFault>
    requires depth { depth ≡ length (names_of front.now) }
    requires few { depth ≤ most_text_bytes + 1 }
    requires front_short { length front.now ≤ most_text_bytes }
    requires back_short { length back.now ≤ most_text_bytes }
    ensures { result ≡ size_fault (length (dotted front.now back.now)) (length (names_of front.now) + length (names_of back.now)) }
{
    let dot = usize::from(!front.is_empty() && !back.is_empty());
    if front.len() + dot + back.len() > Path::MAX_LEN {
        Some(PathFault::TooLong)
    } else if depth + count_names(back) > Path::MAX_NAMES {
        Some(PathFault::TooDeep)
    } else {
        None
    }
}

// Returns the first error of a text as that of a path, or `None` if it is valid. The empty text is not valid here.
#[tactic(auto, using(crate::proofs::PathTexts::texts), unfolding(crate::specs::Paths::path_fault))]
fn text_fault(text: &[u8]) -> Option<PathFault>
    ensures { result ≡ path_fault (between_dots text.now) }
{
    if has_empty_name(text) {
        Some(PathFault::Empty)
    } else if has_long_name(text) || text.len() > Path::MAX_LEN {
        Some(PathFault::TooLong)
    } else if !have_name_bytes(text) {
        Some(PathFault::BadByte)
    } else if count_dots(text) + 1 > Path::MAX_NAMES {
        Some(PathFault::TooDeep)
    } else {
        None
    }
}

fn has_empty_name(text: &[u8]) -> bool
    ensures { result ≡ list_any (λ name. length name == 0) (between_dots text.now) }
{
    text.split(|b| *b == b'.').any(|name| name.is_empty())
}

fn has_long_name(text: &[u8]) -> bool
    ensures { result ≡ list_any (λ name. nat_lt most_name_bytes (length name)) (between_dots text.now) }
{
    text.split(|b| *b == b'.')
        .any(|name| name.len() > Name::MAX_LEN)
}

fn have_name_bytes(text: &[u8]) -> bool
    ensures { result ≡ list_all (list_all is_name_byte) (between_dots text.now) }
{
    text.split(|b| *b == b'.').all(are_name_bytes)
}

// Returns the number of names in the text of a path, 0 if it is empty.
fn count_names(text: &[u8]) -> usize
    ensures count { result ≡ length (names_of text.now) }
    ensures limit { result ≤ length text.now + 1 }
{
    if text.is_empty() {
        0
    } else {
        count_dots(text) + 1
    }
}

fn count_dots(text: &[u8]) -> usize
    ensures count { result ≡ count_by (λ b. b == 46) text.now }
    ensures limit { result ≤ length text.now }
{
    let mut count = 0;
    for b in text {
        if *b == b'.' {
            count += 1;
        }
    }
    count
}
