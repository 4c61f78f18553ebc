//! The arbitration modes of a sequencer.

ghost use Rattle.std.specs.Prelude.{◌≡◌};
ghost use Rattle.uvm_sequencer.specs.Choices.{is_strict, is_random};

/// The way in which a sequencer chooses among the candidates (the standard's arbitration modes). A priority is at least 1, and a
/// greater priority goes first. A random mode needs a random number if there are at least two candidates to choose from.
#[derive(Clone, Copy, PartialEq, Eq)]
pub enum Mode {
    /// The first candidate of the queue, whatever its priority.
    Fifo,
    /// A random candidate, with a chance in proportion to its priority.
    Weighted,
    /// A random candidate, whatever the priorities.
    Random,
    /// The first candidate of the greatest priority.
    StrictFifo,
    /// A random candidate of the greatest priority.
    StrictRandom,
}

impl Mode {
    // Returns whether only candidates of the greatest priority can be granted.
    pub(crate) fn is_strict(self) -> bool
        ensures { result ≡ is_strict self }
    {
        match self {
            Mode::StrictFifo | Mode::StrictRandom => true,
            Mode::Fifo | Mode::Weighted | Mode::Random => false,
        }
    }

    // Returns whether the mode uses random numbers.
    pub(crate) fn is_random(self) -> bool
        ensures { result ≡ is_random self }
    {
        match self {
            Mode::Weighted | Mode::Random | Mode::StrictRandom => true,
            Mode::Fifo | Mode::StrictFifo => false,
        }
    }
}
