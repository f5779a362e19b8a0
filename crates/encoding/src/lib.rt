//! How calls and answers are written as bytes and read again. Each function stands for one law, which is its contract.
#![tactic(auto)]

ghost use Rattle.encoding.specs.Laws.{CallsReadBack, CallOrPlace, CallsToldApart, AnswersReadBack, AnswerOrPlace, AnswersToldApart};

/// A call that is written is read back as itself.
#[tactic(auto, using(crate::proofs::CallLaws::calls_read_back))]
pub fn calls_read_back()
    ensures { CallsReadBack }
{}

/// Every row of bytes is the one writing of the call that it is read as, or ceases to be one at the place that is told.
#[tactic(auto, using(crate::proofs::CallLaws::call_or_place))]
pub fn call_or_place()
    ensures { CallOrPlace }
{}

/// Two calls are never written as the same bytes.
#[tactic(auto, using(crate::proofs::CallLaws::calls_told_apart))]
pub fn calls_told_apart()
    ensures { CallsToldApart }
{}

/// An answer that is written is read back as itself.
#[tactic(auto, using(crate::proofs::AnswerLaws::answers_read_back))]
pub fn answers_read_back()
    ensures { AnswersReadBack }
{}

/// Every row of bytes is the one writing of the answer that it is read as, or ceases to be one at the place that is told.
#[tactic(auto, using(crate::proofs::AnswerLaws::answer_or_place))]
pub fn answer_or_place()
    ensures { AnswerOrPlace }
{}

/// Two answers are never written as the same bytes.
pub fn answers_told_apart()
    ensures { AnswersToldApart }
{}
