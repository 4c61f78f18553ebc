//! The error of a drop.

use std::error::Error;
use std::fmt;

/// The error that a drop exceeds the count raised at its node. It changes nothing.
#[derive(Clone, Copy, Debug, PartialEq, Eq)]
pub struct BelowZero;

impl fmt::Display for BelowZero {
    ghost use Rattle.std.specs.Prelude.{Some};
    ghost use Rattle.uvm_objection.specs.Faults.{fault_text};

    ghost output = { λ _. Some fault_text };

    fn fmt<W: fmt::Write>(&self, f: &mut fmt::Formatter<W>) -> fmt::Result {
        f.write_str("objection dropped below zero")
    }
}

impl Error for BelowZero {}
