//! Places in the text of a document: where a path of keys leads, and lines and columns.
#![tactic(auto)]

mod texts;
mod walks;

pub use texts::{Span, column_at, is_first, last_line, line_at};
pub use walks::{Step, locate};
