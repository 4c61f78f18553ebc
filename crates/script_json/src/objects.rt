//! An object of JSON that is built member by member.

use serde_json::{Map, Value};
use std::alloc::{AllocError, Global};
use std::str::from_utf8;

/// An object of JSON.
#[derive(Drop)]
pub(crate) struct Object {
    alloc: Global,
    members: Map<String, Value>,
}

impl Object {
    // Begins without members.
    pub(crate) fn new(alloc: Global) -> Object {
        Object {
            alloc,
            members: Map::new(alloc),
        }
    }

    // Adds a member, or replaces it. Errors: out of memory.
    fn add(&mut self, key: &str, value: Value) -> Result<(), AllocError> {
        let key = String::from_str(self.alloc, key)?;
        match self.members.insert(key, value) {
            Ok(_) => Ok(()),
            Err(_) => Err(AllocError),
        }
    }

    // Adds a text. Bytes that are no text are left out. Errors: out of memory.
    pub(crate) fn text(&mut self, key: &str, text: &[u8]) -> Result<(), AllocError> {
        let value = text_of(self.alloc, text)?;
        self.add(key, value)
    }

    // Adds a number. Errors: out of memory.
    pub(crate) fn number(&mut self, key: &str, number: u64) -> Result<(), AllocError> {
        self.add(key, Value::from(number))
    }

    // Adds a list of texts. Errors: out of memory.
    pub(crate) fn texts(&mut self, key: &str, texts: &[Vec<u8>]) -> Result<(), AllocError> {
        let mut values = Vec::new(self.alloc);
        for text in texts {
            values.push(text_of(self.alloc, text.as_slice())?)?;
        }
        self.add(key, Value::Array(values))
    }

    // Returns the object as a line, with a newline. Errors: out of memory.
    pub(crate) fn line(self) -> Result<String, AllocError> {
        let Object { alloc, members } = self;
        let mut line = Value::Object(members).to_string(alloc)?;
        line.push('\n')?;
        Ok(line)
    }
}

// Returns a text as a value; an empty one for bytes that are no text. Errors: out of memory.
fn text_of(alloc: Global, text: &[u8]) -> Result<Value, AllocError> {
    let text = from_utf8(text).unwrap_or("");
    Ok(Value::String(String::from_str(alloc, text)?))
}
