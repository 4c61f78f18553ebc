//! Tests of actions, calls, log entries and their lines, of printed texts, and of the objects of the bus bench, by their public calls.
//! This is a separate crate because a crate with tests is proved twice.
#![tactic(auto)]

#[cfg(test)]
mod bus_answers;
#[cfg(test)]
mod bus_calls;
#[cfg(test)]
mod objects;
#[cfg(test)]
mod printed;
