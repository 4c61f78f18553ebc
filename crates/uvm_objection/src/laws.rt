//! Laws of the definitions. These functions have no run-time effect; their contracts are the laws.

ghost use Rattle.uvm_objection.specs.Laws.{BegunDrainsAreHeld, NodesGrow, PlacesStay, PositiveTotalHoldsNothing, SettledGoByTotals, TotalIsSum};

/// The law that the total of a node is its source, and the total and the delayed count of each of its children.
#[tactic(auto, using(crate::proofs::Summing::total_is_sum))]
pub fn total_is_sum()
    ensures { TotalIsSum }
{}

/// The law that a node with a positive total has no delayed count.
pub fn positive_total_holds_nothing()
    ensures { PositiveTotalHoldsNothing }
{}

/// The law that settling changes each node by its totals before and after. If the new total is positive, the node has no delayed count. If
/// the total fell to zero and the drain time is not 0, all of it becomes the delayed count, due after the drain time. Otherwise the
/// delayed count stays. The source and the drain time stay.
pub fn settled_go_by_totals()
    ensures { SettledGoByTotals }
{}

/// The law that each drain that began is due at its node at the reported time, and that the node has a delayed count. So `drained` can be
/// called for it then.
pub fn begun_drains_are_held()
    ensures { BegunDrainsAreHeld }
{}

/// The law that no call moves a node: the nodes stay in their order, and `add` appends one. So no other call changes which nodes are
/// known.
#[tactic(auto, using(crate::proofs::Staying::places_stay))]
pub fn places_stay()
    ensures { PlacesStay }
{}

/// The law that the root alone satisfies `AreNodes`, and that each call keeps this. A raise increases the root's total by at most its
/// count, and no other call increases it. So the sum of all raises bounds the root's total.
pub fn nodes_grow()
    ensures { NodesGrow }
{}
