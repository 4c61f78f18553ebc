//! Compact storage of actions with an item through a port.

ghost use Rattle.std.specs.Prelude.{◌≡◌, IfSome};
ghost use Rattle.uvm_acts.specs.PortActs.{act_at};

use crate::acts::Act;
use std::marker::Model;
use uvm_glob::{Name, ShortName};
use uvm_tlm::Item;

/// The kind of an action with an item through a port.
#[derive(Clone, Copy)]
pub(crate) enum StoredPortAct {
    /// `Act::Put`.
    Put,
    /// `Act::TryPut`.
    TryPut,
    /// `Act::Write`.
    Write,
    /// `Act::ItemDone` with a response.
    Respond,
}

/// An action with an item through a port with a short name. In contracts it is the action.
#[derive(Drop)]
pub(crate) struct PortAct {
    port: ShortName,
    stored_act: StoredPortAct,
    item: Item,
}

impl Model for PortAct {
    ghost use Rattle.uvm_acts.specs.declared.acts.Act.{Act};
    ghost use Rattle.uvm_acts.specs.PortActs.{act_at};

    ghost Value = { Act };

    ghost view = { λ p. act_at p.port p.stored_act p.item };
}

impl PortAct {
    /// Creates the compact form of an action; `None` if it is not an action with an item through a port with a short name.
    pub(crate) fn new(act: &Act) -> Option<PortAct>
        ensures { IfSome result (λ held. held ≡ act.now) }
    {
        let (port, stored_act, item) = parts(act)?;
        Some(PortAct {
            port: ShortName::new(port)?,
            stored_act,
            item,
        })
    }

    /// Returns the action.
    pub(crate) fn act(&self) -> Act
        ensures { result ≡ self.now }
    {
        let (port, item) = (self.port.name(), self.item);
        match self.stored_act {
            StoredPortAct::Put => Act::Put { port, item },
            StoredPortAct::TryPut => Act::TryPut { port, item },
            StoredPortAct::Write => Act::Write { port, item },
            StoredPortAct::Respond => Act::ItemDone {
                port,
                response: Some(item),
            },
        }
    }
}

// Returns the port, the kind and the item of an action with an item through a port; `None` for other actions.
fn parts(act: &Act) -> Option<(&Name, StoredPortAct, Item)>
    ensures { IfSome result (λ parts. act_at parts.0.now parts.1 parts.2 ≡ act.now) }
{
    match act {
        Act::Put { port, item } => Some((port, StoredPortAct::Put, *item)),
        Act::TryPut { port, item } => Some((port, StoredPortAct::TryPut, *item)),
        Act::Write { port, item } => Some((port, StoredPortAct::Write, *item)),
        Act::ItemDone {
            port,
            response: Some(item),
        } => Some((port, StoredPortAct::Respond, *item)),
        _ => None,
    }
}
