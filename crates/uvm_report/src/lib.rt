//! The report server: how each report is handled, and how many reports were issued (IEEE 1800.2-2020, Clause 6).
#![tactic(auto)]

mod faults;
pub mod laws;
mod lines;
mod messages;
mod reports;
mod settings;
mod severities;
mod tallies;
mod texts;

pub use faults::TextFault;
pub use messages::{Fate, Report};
pub use reports::Reports;
pub use settings::Which;
pub use severities::{Actions, Severity, verbosity};
pub use texts::Text;
