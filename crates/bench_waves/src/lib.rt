//! Waves of a run that has ended, as a value change dump (IEEE 1800-2017, 21.7), for a viewer such as GTKWave.
#![tactic(auto)]

mod changes;
mod headers;
mod saves;
mod scopes;
mod signals;
mod touches;
mod values;
mod waves;

pub use saves::write_save;
pub use waves::write_waves;
