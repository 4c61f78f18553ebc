//! The configuration database: the value that a field has at a path (IEEE 1800.2-2020, Annex C, uvm_config_db).
#![tactic(auto)]

mod database;
mod faults;
mod fields;
pub mod laws;
mod resources;

pub use database::Settings;
pub use faults::ConfigFault;
