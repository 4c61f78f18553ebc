//! The arrays of tables of a script: what each row holds, and how the rows are read.
#![tactic(auto)]

mod drains;
mod report_settings;
mod report_tables;
mod rows;
mod tables;
mod type_tables;

pub use drains::{Drain, read_drains};
pub use report_settings::{ActionSetting, SeverityChange, VerbositySetting};
pub use report_tables::{read_actions, read_severities, read_verbosities};
pub use rows::{Probe, Setting};
pub use tables::{read_overrides, read_probes, read_settings, read_types};
pub use type_tables::{TypeTable, type_among};
