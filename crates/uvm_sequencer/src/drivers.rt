//! The state of the driver of a sequencer.

ghost use Rattle.std.specs.Prelude.{◌≡◌};
ghost use Rattle.uvm_sequencer.specs.Drivers.{is_idle, is_try, wait_of, grant_of, hand_of, left_by, lost_grant};
ghost use Rattle.uvm_sequencer.specs.Sequencers.{is_live_at};

use uvm_sequences::{SeqId, Sequences};

/// The way in which a driver requests an item.
#[derive(Clone, Copy, PartialEq, Eq)]
pub enum How {
    /// A request that waits for an item (the standard's `get_next_item`).
    Next,
    /// A request that is answered immediately if there is no candidate (`try_next_item`).
    Try,
    /// A request that waits for an item, which is done as soon as it is sent (`get`).
    Get,
}

/// The result of a request of the driver.
#[derive(Clone, Copy, PartialEq, Eq)]
pub enum Asked {
    /// No candidate for a `Try`, whose request is then answered.
    Nothing,
    /// The driver waits for an item.
    Waits,
}

/// The state of the driver of a sequencer.
#[derive(Drop)]
pub enum Driver {
    /// No open request, and no item that the driver holds.
    Idle,
    /// A request in this way, for which no sequence is granted yet.
    Waiting(How),
    /// A request in this way, for which this sequence is granted and has not sent its item.
    Granted(SeqId, How),
    /// An item of this sequence, which the driver holds.
    InHand(SeqId),
}

impl Driver {
    // Returns whether the driver may request an item.
    pub(crate) fn is_idle(&self) -> bool
        ensures { result ≡ is_idle self.now }
    {
        match self {
            Driver::Idle => true,
            _ => false,
        }
    }

    // Returns how the driver requested an item, if no sequence is granted yet.
    pub(crate) fn wait(&self) -> Option<How>
        ensures { result ≡ wait_of self.now }
    {
        match self {
            Driver::Waiting(how) => Some(*how),
            _ => None,
        }
    }

    // Returns how the driver requested an item, if `seq` is granted and has not sent.
    pub(crate) fn grant(&self, seq: SeqId) -> Option<How>
        ensures { result ≡ grant_of seq self.now }
    {
        match self {
            Driver::Granted(granted, how) if *granted == seq => Some(*how),
            _ => None,
        }
    }

    // Returns how the driver requested an item, if the granted sequence has not sent and has ended.
    pub(crate) fn lost(&self, sequences: &Sequences) -> Option<How>
        ensures { result ≡ lost_grant (is_live_at sequences.now.steps) self.now }
    {
        match self {
            Driver::Granted(granted, how) if !sequences.is_live(*granted) => Some(*how),
            _ => None,
        }
    }

    // Withdraws the grant for a request that was made with `how`, if there is one. A `Try` is then answered; for any other
    // request the driver waits again. Returns whether it was the grant of a `Try`.
    pub(crate) fn lapse(&mut self, how: Option<How>) -> bool
        ensures value { result ≡ is_try how }
        ensures after { self.new ≡ left_by how self.old }
    {
        match how {
            Some(How::Try) => {
                *self = Driver::Idle;
                true
            }
            Some(how) => {
                *self = Driver::Waiting(how);
                false
            }
            None => false,
        }
    }

    // Returns the sequence whose item the driver holds, if it holds one.
    pub(crate) fn hand(&self) -> Option<SeqId>
        ensures { result ≡ hand_of self.now }
    {
        match self {
            Driver::InHand(seq) => Some(*seq),
            _ => None,
        }
    }
}
