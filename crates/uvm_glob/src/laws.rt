//! Laws of the definitions. These functions have no run-time effect: call one where a proof needs its `ensures`.

ghost use Rattle.std.specs.Cmp.{IsTotalOrder};
ghost use Rattle.uvm_glob.specs.declared.orders.Direction.{Direction};
ghost use Rattle.uvm_glob.specs.Orders.{order_of};
ghost use Rattle.uvm_glob.specs.Printed.{NumbersArePrinted};

/// States that the order of each direction is total.
#[tactic(auto, using(crate::proofs::Totals::orders_are_total))]
pub fn orders_are_total()
    ensures { (direction : Direction) → IsTotalOrder (order_of direction) }
{}

/// States that the decimal text of a 64-bit number or integer consists of bytes from 0x20 to 0x7E.
#[tactic(auto, using(crate::proofs::Numbers::numbers_are_printed))]
pub fn numbers_are_printed()
    ensures { NumbersArePrinted }
{}
