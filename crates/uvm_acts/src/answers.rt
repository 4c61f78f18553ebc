//! Functions that build an answer: one for each action that objects often answer with.

ghost use Rattle.std.specs.Prelude.{◌≡◌, ◌++◌, ◌∷◌, [], IsTrue, OnOk, OnErr};
ghost use Rattle.uvm_glob.specs.Names.{is_name};
ghost use Rattle.uvm_glob.specs.Globs.{is_glob};
ghost use Rattle.uvm_glob.specs.Paths.{is_path};
ghost use Rattle.uvm_acts.specs.Answers.{connecting, reporting, starting};

use crate::acts::{Act, What};
use crate::stored_acts::Acts;
use std::alloc::AllocError;
use uvm_glob::{Glob, Name, Path};
use uvm_report::{Report, Severity, Text, verbosity};
use uvm_sequencer::{How, Mode};
use uvm_tlm::{Item, PortKind};

/// Each of these functions appends one action to the answer. Names, paths and globs are literals, which the caller proves to be valid.
/// Errors: out of memory. An error changes nothing.
impl Acts {
    /// Appends `Act::Create`: creates a component as a child of the performer, by the factory (IEEE 1800.2-2020, Clause 8).
    pub fn create(&mut self, type_name: &str, name: &str) -> Result<(), AllocError>
        requires type_named { IsTrue (is_name type_name.now) }
        requires named { IsTrue (is_name name.now) }
        ensures ok { OnOk result (self.new ≡ self.old ++ Act.Create type_name.now name.now ∷ []) }
        ensures err { OnErr result (self.new ≡ self.old) }
    {
        self.push(Act::Create {
            type_name: Name::literal(type_name),
            name: Name::literal(name),
        })
    }

    /// Appends `Act::Add` of a sequencer with this arbitration mode (Clause 15).
    pub fn sequencer(&mut self, name: &str, mode: Mode) -> Result<(), AllocError>
        requires { IsTrue (is_name name.now) }
        ensures ok { OnOk result (self.new ≡ self.old ++ Act.Add name.now (What.Sequencer mode) ∷ []) }
        ensures err { OnErr result (self.new ≡ self.old) }
    {
        self.push(Act::Add {
            name: Name::literal(name),
            what: What::Sequencer { mode },
        })
    }

    /// Appends `Act::Add` of a FIFO that holds at most `size` items; 0 is no limit (Clause 12).
    pub fn fifo(&mut self, name: &str, size: u16) -> Result<(), AllocError>
        requires { IsTrue (is_name name.now) }
        ensures ok { OnOk result (self.new ≡ self.old ++ Act.Add name.now (What.Fifo size) ∷ []) }
        ensures err { OnErr result (self.new ≡ self.old) }
    {
        self.push(Act::Add {
            name: Name::literal(name),
            what: What::Fifo { size },
        })
    }

    /// Appends `Act::Add` of a port of this kind (Clause 12).
    pub fn port(&mut self, name: &str, kind: PortKind) -> Result<(), AllocError>
        requires { IsTrue (is_name name.now) }
        ensures ok { OnOk result (self.new ≡ self.old ++ Act.Add name.now (What.Port kind) ∷ []) }
        ensures err { OnErr result (self.new ≡ self.old) }
    {
        self.push(Act::Add {
            name: Name::literal(name),
            what: What::Port { kind },
        })
    }

    /// Appends `Act::Add` of an export of this kind (Clause 12).
    pub fn export(&mut self, name: &str, kind: PortKind) -> Result<(), AllocError>
        requires { IsTrue (is_name name.now) }
        ensures ok { OnOk result (self.new ≡ self.old ++ Act.Add name.now (What.Export kind) ∷ []) }
        ensures err { OnErr result (self.new ≡ self.old) }
    {
        self.push(Act::Add {
            name: Name::literal(name),
            what: What::Export { kind },
        })
    }

    /// Appends `Act::Add` of an imp, to which analysis ports write (Clause 12).
    pub fn imp(&mut self, name: &str) -> Result<(), AllocError>
        requires { IsTrue (is_name name.now) }
        ensures ok { OnOk result (self.new ≡ self.old ++ Act.Add name.now What.Imp ∷ []) }
        ensures err { OnErr result (self.new ≡ self.old) }
    {
        self.push(Act::Add {
            name: Name::literal(name),
            what: What::Imp,
        })
    }

    /// Appends `Act::Set`: sets a configuration field at the paths below the performer's that a glob matches (Annex C,
    /// `uvm_config_db::set`).
    pub fn set_config(&mut self, glob: &str, field: &str, value: i64) -> Result<(), AllocError>
        requires glob { IsTrue (is_glob glob.now) }
        requires named { IsTrue (is_name field.now) }
        ensures ok { OnOk result (self.new ≡ self.old ++ Act.Set glob.now field.now value ∷ []) }
        ensures err { OnErr result (self.new ≡ self.old) }
    {
        let glob = Glob::literal(self.alloc, glob)?;
        let field = Name::literal(field);
        self.push(Act::Set { glob, field, value })
    }

    /// Appends `Act::Get`: looks up a configuration field at the performer's path (Annex C, `uvm_config_db::get`). `Call::Config`
    /// follows with the value, or with none.
    pub fn get_config(&mut self, field: &str) -> Result<(), AllocError>
        requires { IsTrue (is_name field.now) }
        ensures ok { OnOk result (self.new ≡ self.old ++ Act.Get field.now ∷ []) }
        ensures err { OnErr result (self.new ≡ self.old) }
    {
        self.push(Act::Get {
            field: Name::literal(field),
        })
    }

    /// Appends `Act::OverrideType`: overrides a type at every path (Clause 8). Without `replace`, an earlier override of the type
    /// stays in force.
    pub fn override_type(
        &mut self,
        original: &str,
        new: &str,
        replace: bool,
    ) -> Result<(), AllocError>
        requires original { IsTrue (is_name original.now) }
        requires new { IsTrue (is_name new.now) }
        ensures ok { OnOk result (self.new ≡ self.old ++ Act.OverrideType original.now new.now replace ∷ []) }
        ensures err { OnErr result (self.new ≡ self.old) }
    {
        self.push(Act::OverrideType {
            original: Name::literal(original),
            new: Name::literal(new),
            replace,
        })
    }

    /// Appends `Act::OverrideInst`: overrides a type at the paths below the performer's that a glob matches (Clause 8).
    pub fn override_instance(
        &mut self,
        original: &str,
        new: &str,
        glob: &str,
    ) -> Result<(), AllocError>
        requires original { IsTrue (is_name original.now) }
        requires new { IsTrue (is_name new.now) }
        requires glob { IsTrue (is_glob glob.now) }
        ensures ok { OnOk result (self.new ≡ self.old ++ Act.OverrideInst original.now new.now glob.now ∷ []) }
        ensures err { OnErr result (self.new ≡ self.old) }
    {
        let glob = Glob::literal(self.alloc, glob)?;
        self.push(Act::OverrideInst {
            original: Name::literal(original),
            new: Name::literal(new),
            glob,
        })
    }

    /// Appends `Act::Connect`: connects a port or an export to another end, by their paths below the performer's (Clause 12).
    pub fn connect(&mut self, from: &str, to: &str) -> Result<(), AllocError>
        requires from { IsTrue (is_path from.now) }
        requires to { IsTrue (is_path to.now) }
        ensures ok { OnOk result (self.new ≡ self.old ++ connecting from.now to.now ∷ []) }
        ensures err { OnErr result (self.new ≡ self.old) }
    {
        let from = Path::literal(self.alloc, from)?;
        let to = Path::literal(self.alloc, to)?;
        self.push(Act::Connect { from, to })
    }

    /// Appends `Act::Put`: puts an item through a put port, once the FIFO has capacity (Clause 12, `put`). `Call::Stored` follows
    /// when the item is in the FIFO.
    pub fn put(&mut self, port: &str, item: Item) -> Result<(), AllocError>
        requires { IsTrue (is_name port.now) }
        ensures ok { OnOk result (self.new ≡ self.old ++ Act.Put port.now item ∷ []) }
        ensures err { OnErr result (self.new ≡ self.old) }
    {
        self.push(Act::Put {
            port: Name::literal(port),
            item,
        })
    }

    /// Appends `Act::TryPut`: puts an item through a put port immediately, if this is possible (Clause 12, `try_put`).
    /// `Call::TryStored` follows and says whether the item is in the FIFO.
    pub fn try_put(&mut self, port: &str, item: Item) -> Result<(), AllocError>
        requires { IsTrue (is_name port.now) }
        ensures ok { OnOk result (self.new ≡ self.old ++ Act.TryPut port.now item ∷ []) }
        ensures err { OnErr result (self.new ≡ self.old) }
    {
        self.push(Act::TryPut {
            port: Name::literal(port),
            item,
        })
    }

    /// Appends `Act::Take`: takes an item through a get port, once the FIFO has one (Clause 12, `get`). `Call::Taken` follows with
    /// the item.
    pub fn take(&mut self, port: &str) -> Result<(), AllocError>
        requires { IsTrue (is_name port.now) }
        ensures ok { OnOk result (self.new ≡ self.old ++ Act.Take port.now ∷ []) }
        ensures err { OnErr result (self.new ≡ self.old) }
    {
        self.push(Act::Take {
            port: Name::literal(port),
        })
    }

    /// Appends `Act::TryTake`: takes an item through a get port immediately, if this is possible (Clause 12, `try_get`).
    /// `Call::TryTaken` follows with the item, or with none.
    pub fn try_take(&mut self, port: &str) -> Result<(), AllocError>
        requires { IsTrue (is_name port.now) }
        ensures ok { OnOk result (self.new ≡ self.old ++ Act.TryTake port.now ∷ []) }
        ensures err { OnErr result (self.new ≡ self.old) }
    {
        self.push(Act::TryTake {
            port: Name::literal(port),
        })
    }

    /// Appends `Act::Peek`: reads the first item through a get port, once the FIFO has one, and leaves it there (Clause 12, `peek`).
    /// `Call::Peeked` follows with the item.
    pub fn peek(&mut self, port: &str) -> Result<(), AllocError>
        requires { IsTrue (is_name port.now) }
        ensures ok { OnOk result (self.new ≡ self.old ++ Act.Peek port.now ∷ []) }
        ensures err { OnErr result (self.new ≡ self.old) }
    {
        self.push(Act::Peek {
            port: Name::literal(port),
        })
    }

    /// Appends `Act::Write`: writes an item through an analysis port (Clause 12, `write`). `Call::Written` follows at the component
    /// of each imp that the port reaches.
    pub fn write(&mut self, port: &str, item: Item) -> Result<(), AllocError>
        requires { IsTrue (is_name port.now) }
        ensures ok { OnOk result (self.new ≡ self.old ++ Act.Write port.now item ∷ []) }
        ensures err { OnErr result (self.new ≡ self.old) }
    {
        self.push(Act::Write {
            port: Name::literal(port),
            item,
        })
    }

    /// Appends `Act::Ask`: asks for an item through a seq port and waits (Clause 15, `get_next_item`). `Call::NextItem` follows with
    /// the item.
    pub fn get_next_item(&mut self, port: &str) -> Result<(), AllocError>
        requires { IsTrue (is_name port.now) }
        ensures ok { OnOk result (self.new ≡ self.old ++ Act.Ask port.now How.Next ∷ []) }
        ensures err { OnErr result (self.new ≡ self.old) }
    {
        self.push(Act::Ask {
            port: Name::literal(port),
            how: How::Next,
        })
    }

    /// Appends `Act::Ask`: asks for an item through a seq port, if one is available (Clause 15, `try_next_item`). `Call::NextItem`
    /// follows with the item, or with none.
    pub fn try_next_item(&mut self, port: &str) -> Result<(), AllocError>
        requires { IsTrue (is_name port.now) }
        ensures ok { OnOk result (self.new ≡ self.old ++ Act.Ask port.now How.Try ∷ []) }
        ensures err { OnErr result (self.new ≡ self.old) }
    {
        self.push(Act::Ask {
            port: Name::literal(port),
            how: How::Try,
        })
    }

    /// Appends `Act::Ask`: asks for an item through a seq port and waits (Clause 15, `get`). `Call::NextItem` follows with the item,
    /// which then counts as done.
    pub fn get_item(&mut self, port: &str) -> Result<(), AllocError>
        requires { IsTrue (is_name port.now) }
        ensures ok { OnOk result (self.new ≡ self.old ++ Act.Ask port.now How.Get ∷ []) }
        ensures err { OnErr result (self.new ≡ self.old) }
    {
        self.push(Act::Ask {
            port: Name::literal(port),
            how: How::Get,
        })
    }

    /// Appends `Act::ItemDone`: completes the item that came through a seq port (Clause 15, `item_done`). `Call::ItemDone` follows at
    /// the sequence that sent it.
    pub fn item_done(&mut self, port: &str, response: Option<Item>) -> Result<(), AllocError>
        requires { IsTrue (is_name port.now) }
        ensures ok { OnOk result (self.new ≡ self.old ++ Act.ItemDone port.now response ∷ []) }
        ensures err { OnErr result (self.new ≡ self.old) }
    {
        self.push(Act::ItemDone {
            port: Name::literal(port),
            response,
        })
    }

    /// Appends `Act::Start`: starts a sequence on the sequencer at a path below the performer's (Clause 14, `start`). With the empty
    /// path, a sequence starts its child on its own sequencer. The priority is by default that of the parent sequence, or 100 without
    /// a parent. `Call::Finished` follows when the sequence has finished.
    pub fn start(
        &mut self,
        type_name: &str,
        name: &str,
        on: &str,
        priority: Option<u16>,
    ) -> Result<(), AllocError>
        requires type_named { IsTrue (is_name type_name.now) }
        requires named { IsTrue (is_name name.now) }
        requires on { IsTrue (is_path on.now) }
        ensures ok { OnOk result (self.new ≡ self.old ++ starting type_name.now name.now on.now priority ∷ []) }
        ensures err { OnErr result (self.new ≡ self.old) }
    {
        let on = Path::literal(self.alloc, on)?;
        self.push(Act::Start {
            type_name: Name::literal(type_name),
            name: Name::literal(name),
            on,
            priority,
        })
    }

    /// Appends `Act::Request`: requests to send an item of the sequence (Clause 15, `wait_for_grant`). `Call::Grant` follows when the
    /// sequencer grants it.
    pub fn request(&mut self, priority: Option<u16>) -> Result<(), AllocError>
        ensures ok { OnOk result (self.new ≡ self.old ++ Act.Request priority ∷ []) }
        ensures err { OnErr result (self.new ≡ self.old) }
    {
        self.push(Act::Request { priority })
    }

    /// Appends `Act::Send`: sends an item of the granted sequence to the driver (Clause 15, `send_request`).
    pub fn send(&mut self, item: Item) -> Result<(), AllocError>
        ensures ok { OnOk result (self.new ≡ self.old ++ Act.Send item ∷ []) }
        ensures err { OnErr result (self.new ≡ self.old) }
    {
        self.push(Act::Send { item })
    }

    /// Appends `Act::EndStep`: ends the current step of the sequence (Clause 14).
    pub fn end_step(&mut self) -> Result<(), AllocError>
        ensures ok { OnOk result (self.new ≡ self.old ++ Act.EndStep ∷ []) }
        ensures err { OnErr result (self.new ≡ self.old) }
    {
        self.push(Act::EndStep)
    }

    /// Appends `Act::RaiseObjection`: raises `count` objections (Clause 10.5).
    pub fn raise_objection(&mut self, count: u16) -> Result<(), AllocError>
        ensures ok { OnOk result (self.new ≡ self.old ++ Act.RaiseObjection count ∷ []) }
        ensures err { OnErr result (self.new ≡ self.old) }
    {
        self.push(Act::RaiseObjection { count })
    }

    /// Appends `Act::DropObjection`: drops `count` raised objections (Clause 10.5).
    pub fn drop_objection(&mut self, count: u16) -> Result<(), AllocError>
        ensures ok { OnOk result (self.new ≡ self.old ++ Act.DropObjection count ∷ []) }
        ensures err { OnErr result (self.new ≡ self.old) }
    {
        self.push(Act::DropObjection { count })
    }

    /// Appends `Act::SetDrain`: sets the drain time, in ticks (Clause 10.5).
    pub fn set_drain(&mut self, ticks: u64) -> Result<(), AllocError>
        ensures ok { OnOk result (self.new ≡ self.old ++ Act.SetDrain ticks ∷ []) }
        ensures err { OnErr result (self.new ≡ self.old) }
    {
        self.push(Act::SetDrain { ticks })
    }

    /// Appends `Act::Wait`: `Call::Wake` follows with the tag after this number of ticks.
    pub fn wait(&mut self, ticks: u64, tag: u32) -> Result<(), AllocError>
        ensures ok { OnOk result (self.new ≡ self.old ++ Act.Wait ticks tag ∷ []) }
        ensures err { OnErr result (self.new ≡ self.old) }
    {
        self.push(Act::Wait { ticks, tag })
    }

    /// Appends `Act::Report` of an INFO, which is dropped if the verbosity level is below its verbosity (Clause 6).
    pub fn info(&mut self, id: &str, text: Text, verbosity: u16) -> Result<(), AllocError>
        requires { IsTrue (is_name id.now) }
        ensures ok { OnOk result (self.new ≡ self.old ++ reporting Severity.Info id.now text verbosity ∷ []) }
        ensures err { OnErr result (self.new ≡ self.old) }
    {
        self.push(Act::Report {
            report: Report {
                severity: Severity::Info,
                id: Name::literal(id),
                text,
                verbosity,
            },
        })
    }

    /// Appends `Act::Report` of a WARNING (Clause 6).
    pub fn warning(&mut self, id: &str, text: Text) -> Result<(), AllocError>
        requires { IsTrue (is_name id.now) }
        ensures ok { OnOk result (self.new ≡ self.old ++ reporting Severity.Warning id.now text 0 ∷ []) }
        ensures err { OnErr result (self.new ≡ self.old) }
    {
        self.push(Act::Report {
            report: Report {
                severity: Severity::Warning,
                id: Name::literal(id),
                text,
                verbosity: verbosity::NONE,
            },
        })
    }

    /// Appends `Act::Report` of an ERROR (Clause 6).
    pub fn error(&mut self, id: &str, text: Text) -> Result<(), AllocError>
        requires { IsTrue (is_name id.now) }
        ensures ok { OnOk result (self.new ≡ self.old ++ reporting Severity.Error id.now text 0 ∷ []) }
        ensures err { OnErr result (self.new ≡ self.old) }
    {
        self.push(Act::Report {
            report: Report {
                severity: Severity::Error,
                id: Name::literal(id),
                text,
                verbosity: verbosity::NONE,
            },
        })
    }

    /// Appends `Act::Report` of a FATAL (Clause 6).
    pub fn fatal(&mut self, id: &str, text: Text) -> Result<(), AllocError>
        requires { IsTrue (is_name id.now) }
        ensures ok { OnOk result (self.new ≡ self.old ++ reporting Severity.Fatal id.now text 0 ∷ []) }
        ensures err { OnErr result (self.new ≡ self.old) }
    {
        self.push(Act::Report {
            report: Report {
                severity: Severity::Fatal,
                id: Name::literal(id),
                text,
                verbosity: verbosity::NONE,
            },
        })
    }
}
