// Each law stands in the contract of one function, which does nothing.

ghost use Rattle.play_hub.specs.Drawing.{DrawsAreTold, DrawsCarry};
ghost use Rattle.play_hub.specs.Endings.{CausesEndHubs, HubsComeToPlays};

use shard_tables::ShardTables;

/// The entries of a hub that ran over the scene come to a legal list, which is a run once the hub has ended, or an id of the
/// checkpoint is shown, or texts collide. From the empty state no id is shown.
pub fn hubs_come_to_plays<T: ShardTables>()
    ensures law { HubsComeToPlays T.rows }
{}

/// A fault among the entries, or prices above the limit, end the hub.
pub fn causes_end_hubs<T: ShardTables>()
    ensures law { CausesEndHubs T.rows }
{}

/// What a worker shows of an entry, with the rows that it has in hand, is what a draw asks for.
pub fn draws_are_told<T: ShardTables>()
    ensures law { DrawsAreTold T.rows }
{}

/// Shards in hand that an entry changed are carried over it.
pub fn draws_carry<T: ShardTables>()
    ensures law { DrawsCarry T.rows }
{}
