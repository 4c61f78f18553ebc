//! Texts that are joined from parts.

use std::alloc::{AllocError, Global};

/// Returns the parts of a text joined in order. Errors: out of memory.
pub fn joined(alloc: Global, parts: &[&str]) -> Result<String, AllocError> {
    let mut text = String::new(alloc);
    push_all(parts, &mut text)?;
    Ok(text)
}

fn push_all(parts: &[&str], text: &mut String) -> Result<(), AllocError> {
    for part in parts {
        text.push_str(part)?;
    }
    Ok(())
}
