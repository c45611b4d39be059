// Each law stands in the contract of one function, which does nothing.

ghost use Rattle.hub_scenes.specs.ClosedRows.{ShardsHaveAllRows};
ghost use Rattle.hub_scenes.specs.PlayLaws.{HubsDrawPlays, HubsPlayOrCollide, HubsPlayOrShowAnId, PlayIsLawful, PlaysAreAllowed};

/// The scene of a play keeps the laws of a scene.
pub fn play_is_lawful()
    ensures law { PlayIsLawful }
{}

/// Entries that might be drawn one after another are allowed entries.
pub fn plays_are_allowed()
    ensures law { PlaysAreAllowed }
{}

/// The entries of a hub that ran might be drawn one after another, and cost what their steps do.
pub fn hubs_draw_plays()
    ensures law { HubsDrawPlays }
{}

/// From the empty state, the entries of a hub that ran come to a legal list, which is a run once the hub has ended, or texts
/// collide.
pub fn hubs_play_or_collide()
    ensures law { HubsPlayOrCollide }
{}

/// From a checkpoint they do so too, or a row's id is a built-in receiver's or made again, or texts collide.
pub fn hubs_play_or_show_an_id()
    ensures law { HubsPlayOrShowAnId }
{}

/// From all 64 projections of a store its rows are gathered, each once: from each shard those whose first channel has it.
pub fn shards_have_all_rows()
    ensures law { ShardsHaveAllRows }
{}
