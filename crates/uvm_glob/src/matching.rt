//! Matches globs against texts, part by part; the parts of a glob are between its stars (`*` and `+`). It does not allocate.
//! Cost: O(n·m) for a glob of n bytes and a text of m bytes, and O(n + m) if the glob has one star.

ghost use Rattle.std.specs.Prelude.{◌≡◌, ◌≤◌, ◌↔◌, ◌-◌, ◌++◌, IsTrue, IsFalse, length, drop, option_copied};
ghost use Rattle.std.specs.List.{list_any};
ghost use Rattle.uvm_glob.specs.Globs.{Matches, matches};
ghost use Rattle.uvm_glob.specs.Parts.{is_star, begins_with_star, fits, fits_at_end, after_first_fit, after_least};

// Returns whether the glob matches the text. It compares the last part of the glob first, since most texts that do not match
// differ there.
pub(crate) fn matches_text(glob: &[u8], text: &[u8]) -> bool
    ensures value { result ≡ matches glob.now text.now }
    ensures meaning { IsTrue result ↔ Matches glob.now text.now }
{
    fits_at_end(last_part(glob), text) && matches_parts(glob, text)
}

// Returns whether the glob matches the text. The part before the first star must fit at the beginning of the text.
fn matches_parts(glob: &[u8], text: &[u8]) -> bool
    ensures { result ≡ matches glob.now text.now }
{
    let (part, rest) = split_at_star(glob);
    fits(part, text) && matches_from_star(rest, &text[part.len()..])
}

// Returns whether a glob with no part before its first star matches the text. The last part must fit at the end of the text. Each
// other part takes the first place where it fits, since that leaves the longest rest.
fn matches_from_star(mut glob: &[u8], mut text: &[u8]) -> bool
    requires { IsTrue (begins_with_star glob.now) }
    ensures { result ≡ matches glob.now text.now }
{
    while let Some((star, after_star)) = glob.split_first() {
        let Some(left) = after_least(*star, text) else {
            return false;
        };
        let (part, rest) = split_at_star(after_star);
        if rest.is_empty() {
            return fits_at_end(part, left);
        }
        let Some(left) = after_first_fit(part, left) else {
            return false;
        };
        glob = rest;
        text = left;
    }
    text.is_empty()
}

// Returns whether the byte is a star: `*` or `+`.
fn is_star(byte: u8) -> bool
    ensures { result ≡ is_star byte }
{
    byte == b'*' || byte == b'+'
}

// Returns the rest of the text after the fewest bytes that the star takes: one for `+`, none for `*`. Returns `None` if the text
// is too short.
fn after_least(star: u8, text: &[u8]) -> Option<&[u8]>
    ensures { option_copied result ≡ after_least star text.now }
{
    if star == b'+' {
        text.get(1..)
    } else {
        Some(text)
    }
}

// Returns the part of the glob after its last star, or the whole glob if it has no star.
fn last_part(glob: &[u8]) -> &[u8]
    ensures part { IsFalse (list_any is_star result.now) }
    ensures end { drop (length glob.now - length result.now) glob.now ≡ result.now }
{
    for i in (0..glob.len()).rev() {
        if is_star(glob[i]) {
            return &glob[i + 1..];
        }
    }
    glob
}

// Returns the part of the glob before its first star, and the rest.
#[tactic(auto, using(crate::proofs::Parts::star_here))]
fn split_at_star(glob: &[u8]) -> (&[u8], &[u8])
    ensures whole { result.0.now ++ result.1.now ≡ glob.now }
    ensures part { IsFalse (list_any is_star result.0.now) }
    ensures rest { IsTrue (begins_with_star result.1.now) }
{
    for (i, byte) in glob.iter().enumerate() {
        if is_star(*byte) {
            return glob.split_at(i);
        }
    }
    glob.split_at(glob.len())
}

// Returns whether the text begins with the part, in which `?` stands for any byte.
#[tactic(auto, using(crate::proofs::Parts::fits_short, crate::proofs::Parts::fits_from))]
fn fits(part: &[u8], text: &[u8]) -> bool
    ensures value { result ≡ fits part.now text.now }
    ensures within { IsTrue result → length part.now ≤ length text.now }
{
    if text.len() < part.len() {
        return false;
    }
    for (i, byte) in part.iter().enumerate() {
        if *byte != b'?' && *byte != text[i] {
            return false;
        }
    }
    true
}

// Returns whether the text ends with the part, in which `?` stands for any byte.
fn fits_at_end(part: &[u8], text: &[u8]) -> bool
    ensures { result ≡ fits_at_end part.now text.now }
{
    part.len() <= text.len() && fits(part, &text[text.len() - part.len()..])
}

// Returns the rest of the text after the first place where the part fits, or `None` if it fits nowhere.
#[tactic(auto, using(crate::proofs::Parts::first_place))]
fn after_first_fit<'a>(part: &[u8], text: &'a [u8]) -> Option<&'a [u8]>
    ensures { option_copied result ≡ after_first_fit part.now text.now }
{
    if text.len() < part.len() {
        return None;
    }
    for place in 0..=text.len() - part.len() {
        let rest = &text[place..];
        if fits(part, rest) {
            return Some(&rest[part.len()..]);
        }
    }
    None
}
