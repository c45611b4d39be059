// Each law stands in the contract of one function, which does nothing.

ghost use Rattle.events.specs.ShardLaws.{CongruentChannelsShareAShard, HeldShardsTellEntries, HeldShardsTellExactly, IdsTellStoredRows, MetRowsAreInHand, NothingInHandIsNothingStored, ProjectionsAreHeld, ProjectionsFollow, RowsStandInShards, ShardsFollow, ShownShardsCoverEntries, StepsInHandAreSteps, UntouchedShardsStay};

/// Congruent channels have one shard.
pub fn congruent_channels_share_a_shard()
    ensures law { CongruentChannelsShareAShard }
{}

/// There are 64 shards.
pub fn rows_stand_in_shards()
    ensures law { RowsStandInShards }
{}

/// An entry changes no shard that it does not touch.
pub fn untouched_shards_stay()
    ensures law { UntouchedShardsStay }
{}

/// What an entry makes of a shard is determined by that shard and the entry.
pub fn shards_follow()
    ensures law { ShardsFollow }
{}

/// What a table makes of a projection by an entry is the projection after it.
pub fn projections_follow()
    ensures law { ProjectionsFollow }
{}

/// Projections of a store are shards that are held.
pub fn projections_are_held()
    ensures law { ProjectionsAreHeld }
{}

/// Where all shards are held that the rows in hand show for an operation, all rows that it meets are in hand.
pub fn met_rows_are_in_hand()
    ensures law { MetRowsAreInHand }
{}

/// There it meets nothing in hand exactly where it meets nothing stored.
pub fn nothing_in_hand_is_nothing_stored()
    ensures law { NothingInHandIsNothingStored }
{}

/// There it makes a step with rows in hand exactly where it makes that step with stored rows.
pub fn steps_in_hand_are_steps()
    ensures law { StepsInHandAreSteps }
{}

/// The shards that the rows in hand show for an operation are all that its entry changes.
pub fn shown_shards_cover_entries()
    ensures law { ShownShardsCoverEntries }
{}

/// Ids tell stored rows, under fresh digests.
pub fn ids_tell_stored_rows()
    ensures law { IdsTellStoredRows }
{}

/// The shards in hand, with the operation and its own entries, tell that an entry is allowed.
pub fn held_shards_tell_entries()
    ensures law { HeldShardsTellEntries }
{}

/// Under fresh digests they tell exactly what the whole store and all steps do.
pub fn held_shards_tell_exactly()
    ensures law { HeldShardsTellExactly }
{}
