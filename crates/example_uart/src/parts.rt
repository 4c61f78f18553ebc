//! The parts of the testbench about which nothing is proved, except that their answers are recorded.

use std::alloc::{AllocError, Global};
use uvm_object::{Acts, Answers, Call};
use uvm_phase::Phase;
use uvm_report::{Text, verbosity};
use uvm_sequencer::Mode;
use uvm_tlm::{Item, PortKind};

// The bytes of the sequence.
const BYTES: [i64; 3] = [85, 16, 255];

/// The test. It creates the environment, and in the run phase starts the sequence under an objection. A drain time of 30 ticks lets the
/// last byte arrive.
#[derive(Drop)]
pub(crate) struct Test;

impl Answers for Test {
    fn answer(&mut self, alloc: Global, call: &Call) -> Result<Acts, AllocError> {
        let mut acts = Acts::new(alloc);
        match call {
            Call::Phase(Phase::Build) => acts.create("uart_env", "env")?,
            Call::Phase(Phase::Run) => {
                acts.set_drain(30)?;
                acts.raise_objection(1)?;
                acts.start("uart_sequence", "seq", "env.sqr", None)?;
            }
            Call::Finished { .. } => acts.drop_objection(1)?,
            _ => (),
        }
        Ok(acts)
    }
}

/// The environment: the parts, and their connections.
#[derive(Drop)]
pub(crate) struct Env;

impl Answers for Env {
    fn answer(&mut self, alloc: Global, call: &Call) -> Result<Acts, AllocError> {
        let mut acts = Acts::new(alloc);
        match call {
            Call::Phase(Phase::Build) => {
                acts.sequencer("sqr", Mode::Fifo)?;
                acts.create("uart_driver", "drv")?;
                acts.create("uart_model", "dut")?;
                acts.create("uart_monitor", "mon")?;
                acts.create("uart_scoreboard", "sb")?;
                acts.fifo("line", 1)?;
            }
            Call::Phase(Phase::Connect) => {
                acts.connect("drv.sqp", "sqr")?;
                acts.connect("drv.tx", "line")?;
                acts.connect("dut.rx", "line")?;
                acts.connect("dut.out", "mon.bytes")?;
                acts.connect("drv.ap", "sb.sent")?;
                acts.connect("mon.ap", "sb.seen")?;
            }
            _ => (),
        }
        Ok(acts)
    }
}

/// The driver. It requests items, and puts each on the line.
#[derive(Drop)]
pub(crate) struct Driver;

impl Answers for Driver {
    fn answer(&mut self, alloc: Global, call: &Call) -> Result<Acts, AllocError> {
        let mut acts = Acts::new(alloc);
        match call {
            Call::Phase(Phase::Build) => {
                acts.port("sqp", PortKind::Seq)?;
                acts.port("tx", PortKind::Put)?;
                acts.port("ap", PortKind::Analysis)?;
            }
            Call::Phase(Phase::Run) => acts.get_next_item("sqp")?,
            Call::NextItem {
                item: Some(item),
                ..
            } => {
                acts.write("ap", *item)?;
                acts.put("tx", *item)?;
            }
            Call::Stored { .. } => {
                acts.item_done("sqp", None)?;
                acts.get_next_item("sqp")?;
            }
            _ => (),
        }
        Ok(acts)
    }
}

/// The model under test. It writes each byte from the line 10 ticks after it took it, with the bits of the field `flip` flipped.
#[derive(Drop)]
pub(crate) struct Model {
    flip: i64,
    // The byte that it writes next: the last that it took, with its bits flipped.
    byte: i64,
}

impl Model {
    /// Creates a model that has taken nothing.
    pub(crate) fn new() -> Model {
        Model { flip: 0, byte: 0 }
    }
}

impl Answers for Model {
    fn answer(&mut self, alloc: Global, call: &Call) -> Result<Acts, AllocError> {
        let mut acts = Acts::new(alloc);
        match call {
            Call::Phase(Phase::Build) => {
                acts.port("rx", PortKind::Get)?;
                acts.port("out", PortKind::Analysis)?;
                acts.get_config("flip")?;
            }
            Call::Config { value, .. } => self.flip = value.unwrap_or(0),
            Call::Phase(Phase::Run) => acts.take("rx")?,
            Call::Taken { item, .. } => {
                self.byte = item.0[0] ^ self.flip;
                acts.wait(10, 0)?;
            }
            Call::Wake { .. } => {
                acts.write("out", Item([self.byte, 0, 0, 0]))?;
                acts.take("rx")?;
            }
            _ => (),
        }
        Ok(acts)
    }
}

/// The monitor. It reports each byte that the model writes, and writes it to its own analysis port.
#[derive(Drop)]
pub(crate) struct Monitor;

impl Answers for Monitor {
    fn answer(&mut self, alloc: Global, call: &Call) -> Result<Acts, AllocError> {
        let mut acts = Acts::new(alloc);
        match call {
            Call::Phase(Phase::Build) => {
                acts.imp("bytes")?;
                acts.port("ap", PortKind::Analysis)?;
            }
            Call::Written { item, .. } => {
                let byte = item.0[0];
                let text = format!(in alloc; "byte {byte}")?;
                acts.info("MON", Text::lossy(alloc, text.as_str())?, verbosity::LOW)?;
                acts.write("ap", *item)?;
            }
            _ => (),
        }
        Ok(acts)
    }
}

/// The sequence. It sends `BYTES`, one after the other.
#[derive(Drop)]
pub(crate) struct Sequence {
    // The number of bytes that it has sent.
    sent: usize,
}

impl Sequence {
    /// Creates a sequence that has sent nothing.
    pub(crate) fn new() -> Sequence {
        Sequence { sent: 0 }
    }
}

impl Answers for Sequence {
    fn answer(&mut self, alloc: Global, call: &Call) -> Result<Acts, AllocError> {
        let mut acts = Acts::new(alloc);
        match call {
            Call::PreStart | Call::PostStart => acts.end_step()?,
            Call::Body => acts.request(None)?,
            Call::Grant => {
                if let Some(byte) = BYTES.get(self.sent) {
                    acts.send(Item([*byte, 0, 0, 0]))?;
                    self.sent += 1;
                }
            }
            Call::ItemDone { .. } if self.sent < BYTES.len() => acts.request(None)?,
            Call::ItemDone { .. } => acts.end_step()?,
            _ => (),
        }
        Ok(acts)
    }
}
