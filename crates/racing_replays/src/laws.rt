ghost use Rattle.racing_replays.specs.Laws.{Confluence, FreshReplaysHaveWalks, FreshStepsSuffice, ReplayMany, ReplaysOfFreshWalksAreFresh, ReplaysAreLegal, ReplaysDecide, SameMeetings};
ghost use Rattle.racing_replays.specs.Answering.{ReplaysAgreeOrClash, ReplaysAreFreshOrClash, ReplaysTellAnswers, ReplaysTellAnswersOrClash};
ghost use Rattle.racing_replays.specs.RacingLaws.{RacesAreFresh, RacesAreFreshOrClash, RacesAreReplays, RacesTellAnswers, RacesTellAnswersOrClash};
ghost use Rattle.racing_replays.specs.Possible.{FittingStepsAreDone, OtherTriesAreIdle};
ghost use Rattle.racing_replays.specs.Counted.{RepeatsAreCounted, TurnsAreNextUses, UsesAreCounted};

/// A walk is a replay that can't go on, and every replay that can't go on does the same steps and ends with the same rows, under fresh digests.
pub fn confluence()
    ensures law { Confluence }
{}

/// The steps that a replay does are a legal list in the order in which it does them.
pub fn replays_are_legal()
    ensures law { ReplaysAreLegal }
{}

/// A replay that can't go on does all steps of a legal list, and of another one all up to the first step that is not legal, which it never does, under fresh digests.
pub fn replay_many()
    ensures law { ReplayMany }
{}

/// And back: what such a replay did tells whether the log's steps are a legal list, and else at which step they stop being legal, under fresh digests.
pub fn replays_decide()
    ensures law { ReplaysDecide }
{}

/// Any events of a replay by workers are a replay of the steps that are done, and once nothing is to arrive or to be tried it can't go on, under fresh digests.
pub fn races_are_replays()
    ensures law { RacesAreReplays }
{}

/// What events did is fresh where the digests of a walk are.
pub fn races_are_fresh()
    ensures law { RacesAreFresh }
{}

/// What events did is fresh, or the digests of some replay of the log clash.
pub fn races_are_fresh_or_clash()
    ensures law { RacesAreFreshOrClash }
{}

/// Once nothing is to arrive or to be tried, what events did tells the log's answer, under fresh digests.
pub fn races_tell_answers()
    ensures law { RacesTellAnswers }
{}

/// Once nothing is to arrive or to be tried, what events did tells the log's answer, or the digests of some replay of the log clash.
pub fn races_tell_answers_or_clash()
    ensures law { RacesTellAnswersOrClash }
{}

/// It is the turn of each of a step's rows exactly where as many done steps name the row as steps before it in the log, under fresh digests.
pub fn uses_are_counted()
    ensures law { UsesAreCounted }
{}

/// So a step is the next use of each of its rows, at the place that is the number of done steps which name the row, under fresh digests.
pub fn turns_are_next_uses()
    ensures law { TurnsAreNextUses }
{}

/// A step whose turn it is was made as often as it stands before itself in the log, under fresh digests.
pub fn repeats_are_counted()
    ensures law { RepeatsAreCounted }
{}

/// A step whose turn it is and that rows fit is done, under fresh digests.
pub fn fitting_steps_are_done()
    ensures law { FittingStepsAreDone }
{}

/// A try is idle where it is not its step's turn or no rows fit, under fresh digests.
pub fn other_tries_are_idle()
    ensures law { OtherTriesAreIdle }
{}

/// Where a replay that can't go on made fresh digests there is a walk, and its digests are fresh.
pub fn fresh_replays_have_walks()
    ensures law { FreshReplaysHaveWalks }
{}

/// Where a walk's digests are fresh, so are those of every replay.
pub fn replays_of_fresh_walks_are_fresh()
    ensures law { ReplaysOfFreshWalksAreFresh }
{}

/// A walk's digests are fresh where those of its steps are, as a list of steps.
pub fn fresh_steps_suffice()
    ensures law { FreshStepsSuffice }
{}

/// A step that may be done in a replay binds what it binds in the legal list of the steps before it, under fresh digests.
pub fn same_meetings()
    ensures law { SameMeetings }
{}

/// A replay of a log under a right header that can't go on tells the log's answer, under fresh digests.
pub fn replays_tell_answers()
    ensures law { ReplaysTellAnswers }
{}

/// A replay that can't go on has a walk whose digests are fresh, or its digests clash.
pub fn replays_are_fresh_or_clash()
    ensures law { ReplaysAreFreshOrClash }
{}

/// Any two replays of a log that can't go on agree, or the digests of the one clash.
pub fn replays_agree_or_clash()
    ensures law { ReplaysAgreeOrClash }
{}

/// A replay of a log under a right header that can't go on tells the log's answer, or its digests clash.
pub fn replays_tell_answers_or_clash()
    ensures law { ReplaysTellAnswersOrClash }
{}
