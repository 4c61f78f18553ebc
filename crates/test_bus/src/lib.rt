//! Tests of the command line and the jobs of the bus bench by their public functions. Also tests of scripts that are not texts of a few
//! lines. The tests are a crate of their own, since a crate with tests is proved twice.
#![tactic(auto)]

#[cfg(test)]
mod bus_rows;
#[cfg(test)]
mod bus_runs;
#[cfg(test)]
mod commands;
#[cfg(test)]
mod debugging;
#[cfg(test)]
mod example;
#[cfg(test)]
mod files;
#[cfg(test)]
mod hostile;
#[cfg(test)]
mod runs;
#[cfg(test)]
mod scripts;
#[cfg(test)]
mod texts;
#[cfg(test)]
mod verdicts;
#[cfg(test)]
mod writers;
