//! Laws of connections and FIFOs. These functions do nothing at run time; their contracts are the laws.

ghost use Rattle.uvm_tlm.specs.Laws.{EachMoveEndsAWait, OneDriverIsSound, ReachesByRoutes, TargetsAcceptTheKind, TargetsAreReached, UnboundedTakesAll};

/// States that a node reaches another if and only if a route of connections leads from the first to the second.
pub fn reaches_by_routes()
    ensures { ReachesByRoutes }
{}

/// States that the targets of a node in a closed wiring are exactly those to which routes lead from it, each once.
pub fn targets_are_reached()
    ensures { TargetsAreReached }
{}

/// States that each target of a port accepts its kind. An analysis port reaches only imps and unbounded FIFOs, a put or get port
/// only FIFOs, a seq port only sequencers.
pub fn targets_accept_the_kind()
    ensures { TargetsAcceptTheKind }
{}

/// States that exactly one of the ports that drive a sequencer is correctly connected, if any port drives it.
pub fn one_driver_is_sound()
    ensures { OneDriverIsSound }
{}

/// States that an unbounded FIFO that has no next move accepts every item immediately, so that it never rejects a write.
#[tactic(auto, unfolding(crate::specs::Fifos::can_put, crate::specs::Fifos::next_move))]
pub fn unbounded_takes_all<O>()
    ensures { UnboundedTakesAll O }
{}

/// States that each move of a FIFO ends exactly one wait, so that there are never more moves than waits.
#[tactic(auto, unfolding(crate::specs::Fifos::next_move))]
pub fn each_move_ends_a_wait<O>()
    ensures { EachMoveEndsAWait O }
{}
