//! The factory: it decides which type to create when a type is requested at a path (IEEE 1800.2-2020, Clause 8).
#![tactic(auto)]

mod factories;
mod faults;
pub mod laws;
mod overrides;
mod standing;
mod types;

pub use factories::Factory;
pub use faults::{FactoryFault, Unmade};
pub use overrides::{Override, OverrideStep};
pub use types::{Kind, TypeId};
