//! Tests of ports, reports and sequencers by their public calls. This is a separate crate because a crate with tests is proved twice.
#![tactic(auto)]

#[cfg(test)]
mod nodes;
#[cfg(test)]
mod ports;
#[cfg(test)]
mod reports;
#[cfg(test)]
mod sequencers;
