//! Test support: runs benches that are meant to break the kernel, and checks each run from outside. The objects count how many of them are
//! created and dropped.
//!
//! `files`: runs of benches in files, over counted objects.
//!
//! `random`: random benches, whose objects answer with allowed and not allowed actions, and the checks of their runs.
#![tactic(auto)]

pub mod files;
pub mod random;
