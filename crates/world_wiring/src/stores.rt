//! Items that are written into FIFOs immediately, and the FIFOs that may then have a transfer to complete (IEEE 1800.2-2020, Clause 12).

ghost use Rattle.std.specs.Prelude.{◌≡◌, ◌++◌, [], ◌∷◌, OnOk, nat_eq};
ghost use Rattle.std.specs.List.{IsDistinct};
ghost use Rattle.world_wiring.specs.FifoStates.{StoresAll};

use crate::fifo_states::{FifoStates, put_at_once};
use std::alloc::AllocError;
use uvm_tlm::Item;
use uvm_tree::NodeId;

/// Records that this FIFO alone may have a transfer to complete. Errors: out of memory.
pub fn set_fifo_to_settle(fifos_to_settle: &mut Vec<NodeId>, fifo: NodeId) -> Result<(), AllocError>
    ensures { OnOk result (fifos_to_settle.new.items ≡ fifo ∷ []) }
{
    fifos_to_settle.clear();
    fifos_to_settle.push(fifo)?;
    Ok(())
}

/// Puts an item into each FIFO among `targets` that can take it immediately. Errors: out of memory.
pub fn store_all(
    fifo_states: &mut FifoStates,
    targets: &[NodeId],
    item: Item,
) -> Result<(), AllocError>
    requires { IsDistinct nat_eq targets.now }
    ensures { OnOk result (StoresAll item targets.now fifo_states.old fifo_states.new) }
{
    for target in targets {
        let _ = put_at_once(fifo_states, *target, item)?;
    }
    Ok(())
}

/// Records that the FIFOs among these nodes alone may have a transfer to complete. Errors: out of memory.
pub fn set_fifos_to_settle(
    fifos_to_settle: &mut Vec<NodeId>,
    targets: &[NodeId],
) -> Result<(), AllocError>
    ensures { OnOk result (fifos_to_settle.new.items ≡ targets.now) }
{
    fifos_to_settle.clear();
    fifos_to_settle.extend_from_slice(targets)?;
    Ok(())
}
