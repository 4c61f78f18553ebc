//! Reads the lines of a client. A line has at most 4,096 bytes and a newline.

mod errors;
mod lines;
mod parts;

pub use errors::LineError;
pub use lines::{MOST_BYTES, read_line};
