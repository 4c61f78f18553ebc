//! Laws of the definitions. These functions have no run-time effect: call one where a proof needs its `ensures`.

ghost use Rattle.uvm_config.specs.Answers.{NoneSetNoAnswer, AnswersAreGiven, AnswerIsStrongest, NoneWhereNoneAnswers};

/// States that no setting applies if none is given.
#[tactic(auto, using(crate::proofs::Given::none_set_no_answer))]
pub fn none_set_no_answer()
    ensures { NoneSetNoAnswer }
{}

/// States how one more setting changes the setting that applies: as `Settings::set` ensures.
#[tactic(auto, using(crate::proofs::Given::answers_are_given))]
pub fn answers_are_given()
    ensures { AnswersAreGiven }
{}

/// States that the setting that applies is one of the list that matches, and that no other takes precedence over it. States also
/// that a setting applies wherever one matches.
#[tactic(auto, using(crate::proofs::Strongest::answer_is_strongest, crate::proofs::Strongest::none_where_none_answers))]
pub fn answer_is_strongest()
    ensures strongest { AnswerIsStrongest }
    ensures none { NoneWhereNoneAnswers }
{}
