//! Scripts: TOML documents that give the types, overrides, settings, report settings, drain times and probes of a testbench.
#![tactic(auto)]

mod copying;
mod factories;
mod heads;
mod reading;
mod scripts;

pub use factories::factory_of;
pub use heads::root_keys;
pub use reading::{read, read_document, read_placed, read_table};
pub use script_tables::{ActionSetting, Probe, Setting, SeverityChange, VerbositySetting};
pub use script_values::{Column, FaultyScript, Place, Reason, RootKey, ScriptFault, TableArray};
pub use scripts::Script;
