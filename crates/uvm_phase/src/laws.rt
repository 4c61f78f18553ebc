//! Laws of the definitions. These functions have no run-time effect; their contracts are the laws.

ghost use Rattle.std.specs.Prelude.{List};
ghost use Rattle.uvm_phase.specs.declared.agendas.Due.{Due};
ghost use Rattle.uvm_phase.specs.Dues.{IsOrderOf};
ghost use Rattle.uvm_phase.specs.Laws.{OrderKeepsAll, OrderKeepsFilters, OrderLosesFirst};

/// The law that the order in which calls come due has each call of the list once. No call comes due before one that precedes it.
pub fn in_order_is_in_order<O, N>()
    ensures { (dues : List (Due O N)) → IsOrderOf dues }
{}

/// The law that the order has the same calls as the list, each as often. So what holds for each call of a list holds for each call of its
/// order.
#[tactic(auto, using(crate::proofs::Ordered::order_keeps_all))]
pub fn order_keeps_all<O, N>()
    ensures { OrderKeepsAll O N }
{}

/// The law that filtering the order of a list gives the order of the filtered list.
#[tactic(auto, using(crate::proofs::Ordered::order_keeps_filters))]
pub fn order_keeps_filters<O, N>()
    ensures { OrderKeepsFilters O N }
{}

/// The law of the order without its first call, if no two calls have the same cause: it is the order of the list without the call of that
/// cause.
#[tactic(auto, using(crate::proofs::Ordered::order_loses_first))]
pub fn order_loses_first<O, N>()
    ensures { OrderLosesFirst O N }
{}
