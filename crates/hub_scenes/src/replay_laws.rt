// Each law stands in the contract of one function, which does nothing.

ghost use Rattle.hub_scenes.specs.ReplayLaws.{DecidedLogsAreAnswered, HubsDecideOrClash, ReplayIsLawful};

/// The scene of a replay keeps the four laws of a scene, whatever the deploy and the log.
pub fn replay_is_lawful()
    ensures law { ReplayIsLawful }
{}

/// Once nothing is left and nothing in hand, what the entries of a hub did and its closed shards decide the log, whatever
/// its workers did, or the digests of some replay of the log clash.
pub fn hubs_decide_or_clash()
    ensures law { HubsDecideOrClash }
{}

/// What decides a log tells the answer to it: the first step that is not done, a step that is still allowed, or the outcome.
pub fn decided_logs_are_answered()
    ensures law { DecidedLogsAreAnswered }
{}
