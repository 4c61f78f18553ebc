//! Tests of globs, the factory, settings, trees, objections and the agenda by their public calls; proofs/ has rows of examples of their
//! definitions. This is a separate crate because a crate with tests is proved twice.
#![tactic(auto)]

#[cfg(test)]
mod factories;
#[cfg(test)]
mod globs;
#[cfg(test)]
mod objections;
#[cfg(test)]
mod phases;
#[cfg(test)]
mod settings;
#[cfg(test)]
mod texts;
#[cfg(test)]
mod trees;
