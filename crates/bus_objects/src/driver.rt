//! The behavior that the drivers of the bus share.

ghost use Rattle.std.specs.Prelude.{◌≡◌, ◌∷◌, [], IfOk};
ghost use Rattle.bus_objects.specs.Driver.{driver_acts, put_act};

use std::alloc::{AllocError, Global};
use uvm_object::{Acts, Call};
use uvm_phase::Phase;
use uvm_tlm::{Item, PortKind};

// Returns the answer that both drivers share: it adds ports, requests items, and writes and returns results, but puts no items. Errors: out
// of memory.
pub(crate) fn driver_acts(alloc: Global, call: &Call) -> Result<Acts, AllocError>
    ensures { IfOk result (λ acts. acts ≡ driver_acts call.now) }
{
    let mut acts = Acts::new(alloc);
    match call {
        Call::Phase(Phase::Build) => {
            acts.port("sqp", PortKind::Seq)?;
            acts.port("req", PortKind::Put)?;
            acts.port("rsp", PortKind::Get)?;
            acts.port("ap", PortKind::Analysis)?;
        }
        Call::Phase(Phase::Run) => acts.get_next_item("sqp")?,
        Call::Stored { .. } => acts.take("rsp")?,
        Call::Taken { item, .. } => {
            acts.write("ap", *item)?;
            acts.item_done("sqp", Some(*item))?;
            acts.get_next_item("sqp")?;
        }
        _ => (),
    }
    Ok(acts)
}

// Returns the answer that puts an item through `req`. Errors: out of memory.
pub(crate) fn put_item(alloc: Global, item: Item) -> Result<Acts, AllocError>
    ensures { IfOk result (λ acts. acts ≡ put_act item ∷ []) }
{
    let mut acts = Acts::new(alloc);
    acts.put("req", item)?;
    Ok(acts)
}
