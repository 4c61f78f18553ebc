//! The values of a script: what a value means at a key, and the reasons and the places of errors.
#![tactic(auto)]

mod cells;
pub mod faults;
pub mod keys;
mod places;
mod reasons;
pub mod values;

pub use cells::{glob_at, path_at};
pub use faults::ScriptFault;
pub use places::{Column, Place, RootKey, TableArray};
pub use reasons::{FaultyRow, FaultyScript, Reason, at_place, in_column, in_row};
