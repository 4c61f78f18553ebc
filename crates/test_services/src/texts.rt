//! The check that a value is printed as a text.

use std::alloc::Global;
use std::fmt::Display;
use std::test::Fail;

/// Returns whether the value is printed as `text`. Errors: out of memory.
pub fn is_printed<T: Display>(alloc: Global, value: &T, text: &str) -> Result<bool, Fail> {
    let printed = format!(in alloc; "{value}")?;
    Ok(printed.as_str() == text)
}
