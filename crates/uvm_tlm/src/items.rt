//! The items that pass through ports and FIFOs.

/// An item: a transaction of four 64-bit signed integers.
#[derive(Clone, Copy, PartialEq, Eq)]
pub struct Item(pub [i64; 4]);
