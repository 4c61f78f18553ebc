//! Names, paths of names, and globs that match paths.
#![tactic(auto)]

mod faults;
mod globs;
pub mod laws;
mod matching;
mod names;
mod orders;
mod paths;
mod rooms;
mod short_names;
mod texts;

pub use faults::PathFault;
pub use globs::Glob;
pub use names::Name;
pub use orders::Direction;
pub use paths::Path;
pub use rooms::ChildRoom;
pub use short_names::ShortName;
