// Each law stands in the contract of one function, which does nothing.

ghost use Rattle.replay_hub.specs.Drawing.{DrawsAreTold, DrawsCarry, IdleTriesAreShown};

use crate::terms::ReplayTerms;

/// What a worker shows of an entry, with the shards that it has in hand, is what a draw asks for.
pub fn draws_are_told<J: ReplayTerms>()
    ensures law { DrawsAreTold J.deploy J.steps J.row_of J.channel_of J.part_of }
{}

/// What it shows of a try that may not be done is what `end_idle` asks for.
pub fn idle_tries_are_shown<J: ReplayTerms>()
    ensures law { IdleTriesAreShown J.deploy J.steps J.row_of J.channel_of J.part_of }
{}

/// Shards in hand that an entry changed are carried over it.
pub fn draws_carry<J: ReplayTerms>()
    ensures law { DrawsCarry J.deploy J.steps J.row_of J.channel_of J.part_of }
{}
