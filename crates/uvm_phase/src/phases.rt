//! The phases and their order.

ghost use Rattle.std.specs.Prelude.{◌≡◌, Some};
ghost use Rattle.uvm_phase.specs.Phases.{phase_number, phase_after, is_top_down, is_runtime, is_task, phase_name};

/// A phase (IEEE 1800.2-2020, Clause 9). The nine common phases come first, in the order in which they run, and then the twelve run-time
/// phases. The run-time phases run one after another, in parallel with `Run`. `Run` and the run-time phases take simulated time.
#[derive(Clone, Copy, PartialEq, Eq, Hash)]
pub enum Phase {
    /// Components are created and configured.
    Build,
    /// Ports are connected.
    Connect,
    /// The finished hierarchy is inspected and adjusted.
    EndOfElaboration,
    /// The last phase before simulated time advances.
    StartOfSimulation,
    /// Stimulus is applied, and simulated time advances.
    Run,
    /// Results of the run phase are collected.
    Extract,
    /// The collected results are checked.
    Check,
    /// The result of the run is reported.
    Report,
    /// Open resources are closed.
    Final,
    /// The phase before the reset of the design.
    PreReset,
    /// The design is reset.
    Reset,
    /// The phase after the reset of the design.
    PostReset,
    /// The phase before the configuration of the design.
    PreConfigure,
    /// The design is configured.
    Configure,
    /// The phase after the configuration of the design.
    PostConfigure,
    /// The phase before the main stimulus.
    PreMain,
    /// The main stimulus is applied.
    Main,
    /// The phase after the main stimulus.
    PostMain,
    /// The phase before the shutdown, in which the design is drained.
    PreShutdown,
    /// Data that is still in the design is drained.
    Shutdown,
    /// The phase after the shutdown.
    PostShutdown,
}

impl Phase {
    /// Returns the number of the phase, from 0: the common phases in their order, then the run-time phases in theirs.
    pub fn number(self) -> u8
        ensures { result ≡ phase_number self }
    {
        self as u8
    }

    /// Returns the name of the phase, for example `end_of_elaboration`.
    pub fn name(self) -> &'static str
        ensures { result.now ≡ phase_name self }
    {
        match self {
            Phase::Build => "build",
            Phase::Connect => "connect",
            Phase::EndOfElaboration => "end_of_elaboration",
            Phase::StartOfSimulation => "start_of_simulation",
            Phase::Run => "run",
            Phase::Extract => "extract",
            Phase::Check => "check",
            Phase::Report => "report",
            Phase::Final => "final",
            Phase::PreReset => "pre_reset",
            Phase::Reset => "reset",
            Phase::PostReset => "post_reset",
            Phase::PreConfigure => "pre_configure",
            Phase::Configure => "configure",
            Phase::PostConfigure => "post_configure",
            Phase::PreMain => "pre_main",
            Phase::Main => "main",
            Phase::PostMain => "post_main",
            Phase::PreShutdown => "pre_shutdown",
            Phase::Shutdown => "shutdown",
            Phase::PostShutdown => "post_shutdown",
        }
    }

    /// Returns whether the phase is top-down: parents receive their calls before their children. Build and final are top-down; the others
    /// are bottom-up (IEEE 1800.2-2020, Clause 9). That run is started bottom-up is a choice of this project.
    pub fn is_top_down(self) -> bool
        ensures { result ≡ is_top_down self }
    {
        matches!(self, Phase::Build | Phase::Final)
    }

    /// Returns whether the phase is one of the twelve run-time phases, pre_reset to post_shutdown (Clause 9).
    pub fn is_runtime(self) -> bool
        ensures { result ≡ is_runtime self }
    {
        self.number() > Phase::Final.number()
    }

    /// Returns whether the phase is a task phase, which takes simulated time (Clause 9): run, or a run-time phase.
    pub fn is_task(self) -> bool
        ensures { result ≡ is_task self }
    {
        self == Phase::Run || self.is_runtime()
    }
}

/// The order of the phases (IEEE 1800.2-2020, Clause 9): the common phases from build to final, and the run-time phases from pre_reset to
/// post_shutdown. Extract follows both run and post_shutdown.
#[derive(Clone, Copy)]
pub struct Schedule;

impl Schedule {
    /// Returns the phase after `phase`, or `None` after final.
    pub fn next(phase: Phase) -> Option<Phase>
        ensures { result ≡ phase_after phase }
    {
        match phase {
            Phase::Build => Some(Phase::Connect),
            Phase::Connect => Some(Phase::EndOfElaboration),
            Phase::EndOfElaboration => Some(Phase::StartOfSimulation),
            Phase::StartOfSimulation => Some(Phase::Run),
            Phase::Run => Some(Phase::Extract),
            Phase::Extract => Some(Phase::Check),
            Phase::Check => Some(Phase::Report),
            Phase::Report => Some(Phase::Final),
            Phase::Final => None,
            Phase::PreReset => Some(Phase::Reset),
            Phase::Reset => Some(Phase::PostReset),
            Phase::PostReset => Some(Phase::PreConfigure),
            Phase::PreConfigure => Some(Phase::Configure),
            Phase::Configure => Some(Phase::PostConfigure),
            Phase::PostConfigure => Some(Phase::PreMain),
            Phase::PreMain => Some(Phase::Main),
            Phase::Main => Some(Phase::PostMain),
            Phase::PostMain => Some(Phase::PreShutdown),
            Phase::PreShutdown => Some(Phase::Shutdown),
            Phase::Shutdown => Some(Phase::PostShutdown),
            Phase::PostShutdown => Some(Phase::Extract),
        }
    }
}
