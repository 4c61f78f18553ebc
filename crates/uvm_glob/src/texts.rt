//! The conversion of bytes to text.

ghost use Rattle.std.specs.Prelude.{◌≡◌, true};
ghost use Rattle.std.specs.List.{list_all};
ghost use Rattle.uvm_glob.specs.Globs.{is_glob_byte};

use std::str::from_utf8;

// Returns the bytes of a name, path or glob as text.
#[tactic(auto, using(crate::proofs::Bytes::bytes_as_text))]
pub(crate) fn as_text(bytes: &[u8]) -> &str
    requires { list_all is_glob_byte bytes.now ≡ true }
    ensures { result.now ≡ bytes.now }
{
    let Ok(text) = from_utf8(bytes) else {
        unreachable!()
    };
    text
}
