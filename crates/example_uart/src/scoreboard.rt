//! The scoreboard. A proof shows that its answers satisfy the relation of `specs/Scoreboard.antt`.

ghost use Rattle.std.specs.Prelude.{◌≡◌, IfOk};
ghost use Rattle.example_uart.specs.Scoreboard.{IsError, byte_of};

use std::alloc::{AllocError, Global};
use uvm_object::{Acts, Answers, Call};
use uvm_phase::Phase;
use uvm_report::Text;
use uvm_tlm::Item;

/// The scoreboard. It compares the seen bytes with the sent ones, in order, and reports an ERROR for each that differs or that was not
/// sent. In the check phase it reports one ERROR if bytes are missing. Its view is the number of bytes that it has compared, then the bytes
/// that were sent.
#[derive(Drop)]
pub(crate) struct Scoreboard {
    sent: Vec<u64>,
    seen: usize,
}

impl Answers for Scoreboard {
    ghost use Rattle.std.specs.Prelude.{◌∷◌};
    ghost use Rattle.example_uart.specs.Scoreboard.{ScoreboardSays};

    ghost view = { λ scoreboard. scoreboard.seen ∷ scoreboard.sent.items };

    ghost says = { λ _. ScoreboardSays };

    fn answer(&mut self, alloc: Global, call: &Call) -> Result<Acts, AllocError> {
        let acts = self.acts(alloc, call)?;
        self.take_in(call)?;
        Ok(acts)
    }
}

impl Scoreboard {
    ghost use Rattle.std.specs.Prelude.{◌≡◌, ◌∷◌, [], IfOk, OnOk, slice_get};
    ghost use Rattle.example_uart.specs.Scoreboard.{IsAnswer, IsJudged, view_after};

    /// Creates a scoreboard that has seen nothing. Allocates no memory.
    pub(crate) fn new(alloc: Global) -> Scoreboard
        ensures { (result.seen ≡ 0) × (result.sent.items ≡ []) }
    {
        Scoreboard {
            sent: Vec::new(alloc),
            seen: 0,
        }
    }

    // Returns the actions that answer a call. Errors: out of memory.
    fn acts(&self, alloc: Global, call: &Call) -> Result<Acts, AllocError>
        ensures { IfOk result (λ acts. IsAnswer self.now.seen self.now.sent.items call.now acts) }
    {
        match call {
            Call::Phase(Phase::Build) => {
                let mut acts = Acts::new(alloc);
                acts.imp("sent")?;
                acts.imp("seen")?;
                Ok(acts)
            }
            Call::Phase(Phase::Check) if self.seen != self.sent.len() => {
                error(alloc, Text::literal(alloc, "bytes are missing")?)
            }
            Call::Written { imp, item } if imp.as_bytes() != b"sent".as_slice() => {
                self.judge(alloc, byte_of(item))
            }
            _ => Ok(Acts::new(alloc)),
        }
    }

    // Returns the answer to a byte that is seen. Errors: out of memory.
    fn judge(&self, alloc: Global, byte: u64) -> Result<Acts, AllocError>
        ensures { IfOk result (λ acts. IsJudged (slice_get self.now.sent.items self.now.seen) byte acts) }
    {
        match self.sent.get(self.seen) {
            Some(wanted) if *wanted == byte => Ok(Acts::new(alloc)),
            Some(wanted) => {
                let text = format!(in alloc; "got {byte} not {wanted}")?;
                error(alloc, Text::lossy(alloc, text.as_str())?)
            }
            None => error(alloc, Text::literal(alloc, "byte out of nothing")?),
        }
    }

    // Records a call: a sent byte, or one more compared byte. Errors: out of memory.
    fn take_in(&mut self, call: &Call) -> Result<(), AllocError>
        ensures { OnOk result (self.new.seen ∷ self.new.sent.items ≡ view_after self.old.seen self.old.sent.items call.now) }
    {
        if let Call::Written { imp, item } = call {
            if imp.as_bytes() == b"sent".as_slice() {
                self.sent.push(byte_of(item))?;
            } else if self.seen < self.sent.len() {
                self.seen += 1;
            }
        }
        Ok(())
    }
}

// Returns an answer of one ERROR of the scoreboard. Errors: out of memory.
fn error(alloc: Global, text: Text) -> Result<Acts, AllocError>
    ensures { IfOk result (λ acts. IsError acts) }
{
    let mut acts = Acts::new(alloc);
    acts.error("SB", text)?;
    Ok(acts)
}

// Returns the byte of an item.
fn byte_of(item: &Item) -> u64
    ensures { result ≡ byte_of item.now }
{
    item.0[0].unsigned_abs()
}
