//! Compact storage of the start of a child sequence.

ghost use Rattle.std.specs.Prelude.{◌≡◌, IfSome};

use crate::acts::Act;
use std::alloc::Global;
use std::marker::Model;
use uvm_glob::{Path, ShortName};

/// The start of a child sequence, that is one at the empty path, whose type and name are short names. In contracts it is the action.
#[derive(Drop)]
pub(crate) struct ChildStart {
    alloc: Global,
    type_name: ShortName,
    name: ShortName,
    priority: Option<u16>,
}

impl Model for ChildStart {
    ghost use Rattle.std.specs.Prelude.{[]};
    ghost use Rattle.uvm_acts.specs.declared.acts.Act.{Act};
    ghost use Rattle.uvm_acts.specs.declared.acts.Act.TheVariants.{Start};

    ghost Value = { Act };

    ghost view = { λ s. Start s.type_name s.name [] s.priority };
}

impl ChildStart {
    /// Creates the compact form of an action; `None` if it does not start a child, or if a name is not short.
    pub(crate) fn new(alloc: Global, act: &Act) -> Option<ChildStart>
        ensures { IfSome result (λ held. held ≡ act.now) }
    {
        let Act::Start {
            type_name,
            name,
            on,
            priority,
        } = act
        else {
            return None;
        };
        if on.depth() > 0 {
            return None;
        }
        Some(ChildStart {
            alloc,
            type_name: ShortName::new(type_name)?,
            name: ShortName::new(name)?,
            priority: *priority,
        })
    }

    /// Returns the action. Allocates no memory.
    pub(crate) fn act(&self) -> Act
        ensures { result ≡ self.now }
    {
        Act::Start {
            type_name: self.type_name.name(),
            name: self.name.name(),
            on: Path::top(self.alloc),
            priority: self.priority,
        }
    }
}
