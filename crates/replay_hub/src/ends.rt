//! The end of a replay's hub.
ghost use Rattle.std.specs.Prelude.{◌≡◌, ◌<◌, ◌⊎◌, true, [], None, IfOk, length, map};
ghost use Rattle.std.specs.List.{All};
ghost use Rattle.calculus.specs.Unfolding.{Unfolds};
ghost use Rattle.calculus.specs.Steps.{differ};
ghost use Rattle.calculus.specs.Runs.{source_seed, Work};
ghost use Rattle.events.specs.Premises.{FitsInTexts};
ghost use Rattle.hub_rule.specs.Counts.{all_of};
ghost use Rattle.group_locks.specs.Seats.{AtRest, hand_of, seat_count, spent_of};
ghost use Rattle.racing_replays.specs.Answering.{SomeClash};
ghost use Rattle.hub_scenes.specs.Entries.{did_by};
ghost use Rattle.hub_scenes.specs.Closing.{DecideLog};
ghost use Rattle.replay_hub.specs.Values.{entry_of};
ghost use Rattle.replay_hub.specs.Ends.{FoundAnEnd};

use crate::scene::ReplayScene;
use crate::terms::ReplayTerms;
use group_locks::{Closed, Hub, Pool, Seat};

/// Ends a replay's hub. Once nothing is left and nothing in hand, what its entries did and its shards decide the log, or
/// the digests of some replay of the log clash. That is so where each seat found an end and the hub was not stopped, since no
/// entry costs anything.
pub fn close_replay<J: ReplayTerms + Sync>(
    hub: Hub<ReplayScene<J>>,
    seats: Vec<Seat<ReplayScene<J>>>,
) -> Result<Closed<ReplayScene<J>>, Pool<ReplayScene<J>>>
    requires seats { All (λ s. AtRest hub.table.shared.table_id s.state) seats.items }
    requires count { length seats.items ≡ seat_count hub.table.shared.key }
    ensures decides { IfOk result (λ r. (w : Work) → Unfolds J.deploy.prices J.deploy.limit J.deploy.process
        (source_seed J.deploy) w → FitsInTexts J.deploy J.steps → differ (map (λ q. q.id) J.deploy.rows) ≡ true →
        r.left.items ≡ [] → all_of (λ s. hand_of s.state) seats.items ≡ [] →
        DecideLog J.deploy w J.steps (did_by (map (entry_of J.row_of J.channel_of) r.entries.items))
        (map J.part_of r.shards.items) ⊎ SomeClash J.deploy w J.steps) }
    ensures ended { 0 < length seats.items → spent_of hub.table.shared.key ≡ 0 → All (λ s. FoundAnEnd s.state) seats.items
        → IfOk result (λ r. r.stop ≡ None → (r.left.items ≡ []) × (all_of (λ s. hand_of s.state) seats.items ≡ [])) }
{
    hub.close(seats)
}
