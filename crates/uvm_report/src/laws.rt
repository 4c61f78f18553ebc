//! Laws of the definitions. These functions have no run-time effect; their contracts are the laws.

ghost use Rattle.uvm_report.specs.Settings.{ChoicePrevails, NoChoiceWhereNoneApplies};
ghost use Rattle.uvm_report.specs.Laws.{NewGivesNothing, CommandsAreGiven, FatesAreGiven, CommandsAreCounted, ReachedLimitEndsRuns};

/// The law that a new report server agrees with the empty list of commands.
pub fn new_gives_nothing()
    ensures { NewGivesNothing }
{}

/// The law that, if a report server agrees with some commands, it agrees with them and one more after that command. So the definitions
/// over the list of commands change as the contracts of the calls state.
pub fn commands_are_given()
    ensures { CommandsAreGiven }
{}

/// The law that a report server which agrees with some commands handles each report as these commands determine.
#[tactic(auto, using(crate::proofs::Commanded::fates_are_given))]
pub fn fates_are_given()
    ensures { FatesAreGiven }
{}

/// The law that the counts by severity and the counts by id have the same sum. It is at most the number of `Issue` commands, and the quit
/// count is at most this sum.
pub fn commands_are_counted()
    ensures { CommandsAreCounted }
{}

/// The law that, once the quit count has reached the limit, each issued report asks for the end of the run.
#[tactic(auto, using(crate::proofs::Commanded::reached_limit_ends_runs))]
pub fn reached_limit_ends_runs()
    ensures { ReachedLimitEndsRuns }
{}

/// The laws of choices: a choice is that of a setting of the list which applies and takes precedence over all others. There is a choice
/// exactly if a setting applies.
#[tactic(auto, using(crate::proofs::Chosen::choice_prevails, crate::proofs::Chosen::no_choice_where_none_applies))]
pub fn choice_prevails<T>()
    ensures prevails { ChoicePrevails T }
    ensures none { NoChoiceWhereNoneApplies T }
{}
