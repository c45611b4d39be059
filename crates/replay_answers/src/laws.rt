// The law stands in the contract of a function that does nothing.
ghost use Rattle.replay_answers.specs.Laws.{AnswersSaySame};

/// All results that are the answer to one log say the same: the same refusal, or the same verdict, cost and
/// output and the same rows in any order.
pub fn answers_say_same()
    ensures law { AnswersSaySame }
{}
