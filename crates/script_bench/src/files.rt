//! The bytes of files.

use script_input::{Breakage, read_file};
use std::fs::File;
use std::io::Write;
use std::rt::Files;
use std::{fs, io};

/// The exit status if the command line or a file is rejected.
pub const REFUSED: u8 = 2;

/// The exit status if the program or a run stops before its end.
pub const BROKEN: u8 = 3;

/// The reason why a file is not read.
#[derive(Clone, Copy)]
pub enum Unread {
    /// There is no such file.
    Missing,
    /// The file is a directory.
    Directory,
    /// The file could not be opened, or could not be read to its end.
    Unreadable,
    /// Memory ran out.
    Memory,
}

impl Unread {
    // Returns the message about the file.
    fn message(self) -> &'static str {
        match self {
            Unread::Missing => "no such file",
            Unread::Directory => "is a directory",
            Unread::Unreadable => "cannot read the file",
            Unread::Memory => "memory",
        }
    }
}

/// Writes why a file was not read to `err`, and returns the exit status, which is 3.
pub fn report_unread<E: Write>(file: &str, why: Unread, err: &mut E) -> u8 {
    let message = why.message();
    let _ = writeln!(err, "script_bench: {file}: {message}");
    BROKEN
}

/// Returns the bytes of a file, at most one more than a document may have. Errors: why the file was not read.
pub fn bytes_of<R: Files + AllocGlobal>(rt: &R, file: &str) -> Result<Vec<u8>, Unread> {
    let mut opened = match File::open(rt, file) {
        Ok(opened) => opened,
        Err(error) if error.kind() == io::ErrorKind::NotFound => return Err(Unread::Missing),
        Err(_) => return Err(Unread::Unreadable),
    };
    match read_file(rt.alloc(), &mut opened) {
        Ok(bytes) => Ok(bytes),
        Err(Breakage::Memory) => Err(Unread::Memory),
        Err(_) if is_directory(rt, file) => Err(Unread::Directory),
        Err(_) => Err(Unread::Unreadable),
    }
}

fn is_directory<R: Files>(rt: &R, file: &str) -> bool {
    match fs::metadata(rt, file) {
        Ok(data) => data.is_dir(),
        Err(_) => false,
    }
}
