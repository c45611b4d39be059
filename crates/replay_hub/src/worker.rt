//! What a worker draws.
ghost use Rattle.std.specs.Prelude.{◌≡◌, ℕ, ◌<◌, ◌^◌, true, Option, List, [], ◌∷◌, length};
ghost use Rattle.hub_rule.specs.Counts.{count, things_of};
ghost use Rattle.hub_rule.specs.Rule.{Carries};
ghost use Rattle.group_locks.specs.Seats.{home_of, held_by, since_of, due_of, drawn_by, taken_by, offered_by, HasLeave, HasRoom};
ghost use Rattle.replay_hub.specs.declared.deed.Task.TheVariants.{Index};
ghost use Rattle.replay_hub.specs.Values.{has_bit, offers_of, takes_of, values, AreShownIdle};
ghost use Rattle.replay_hub.specs.Drawing.{IsChangedBy, ShowsEntry};

use crate::deed::{Did, Entry, Task, Try};
use crate::scene::ReplayScene;
use crate::terms::ReplayTerms;
use group_locks::{Hub, Seat};
use std::snapshot::Snapshot;

/// Ends a try as idle, where the shards in hand show that its step may not be done.
pub fn end_idle<J: ReplayTerms + Sync>(
    hub: &Hub<ReplayScene<J>>,
    seat: &mut Seat<ReplayScene<J>>,
    held: &J::Held,
    tried: Try<J::Channel>,
)
    requires hub { home_of seat.old.state ≡ hub.now.table.shared.table_id }
    requires leave { HasLeave seat.old.state × HasRoom seat.old.state }
    requires charged { due_of seat.old.state ≡ [] }
    requires work { (index : ℕ) × (taken_by seat.old.state ≡ (index, Index tried) ∷ []) × (offered_by seat.old.state ≡ []) }
    requires carries { Carries (values J.deploy J.steps J.row_of J.channel_of J.part_of) (since_of seat.old.state)
        (held_by seat.old.state) (J.in_hand held.now) }
    requires idle { AreShownIdle J.steps J.channel_of J.part_of (J.in_hand held.now) (held_by seat.old.state) tried }
    ensures hub { home_of seat.new.state ≡ home_of seat.old.state }
    ensures carries { Carries (values J.deploy J.steps J.row_of J.channel_of J.part_of) (since_of seat.new.state)
        (held_by seat.new.state) (J.in_hand held.now) }
    ensures drawn { (taken_by seat.new.state ≡ []) × (due_of seat.new.state ≡ []) }
    ensures offered { offered_by seat.new.state ≡ [] }
{
    let entry = Entry {
        did: Did::Idle(Snapshot::of(&tried)),
        shards: 0,
    };
    seat.commit(hub, held, entry, u64::MAX);
    seat.charge(hub, 0);
}

/// Draws an entry that the shards in hand showed before they were changed by it. `offers` are the jobs that it offers.
pub fn draw_entry<J: ReplayTerms + Sync>(
    hub: &Hub<ReplayScene<J>>,
    seat: &mut Seat<ReplayScene<J>>,
    held: &J::Held,
    entry: Entry<J::Row, J::Channel>,
    offers: &Vec<Task<J::Row, J::Channel>>,
)
    requires hub { home_of seat.old.state ≡ hub.now.table.shared.table_id }
    requires leave { HasLeave seat.old.state × HasRoom seat.old.state }
    requires charged { due_of seat.old.state ≡ [] }
    requires work { (index : ℕ) × (taken_by seat.old.state ≡ (index, takes_of entry.did) ∷ []) × (offered_by seat.old.state ≡ []) }
    requires within { (k : ℕ) → has_bit entry.shards k ≡ true → 0 < count k (held_by seat.old.state) }
    requires offers { offers.now.items ≡ offers_of entry.did }
    requires few { length offers.now.items < 2 ^ 57 }
    requires shown { (old : ℕ → Option J.Shard) × Carries (values J.deploy J.steps J.row_of J.channel_of J.part_of)
        (since_of seat.old.state) (held_by seat.old.state) old ×
        ShowsEntry J.deploy J.steps J.row_of J.channel_of J.part_of old entry ×
        IsChangedBy J.deploy J.steps J.row_of J.channel_of J.part_of entry old (J.in_hand held.now) }
    ensures hub { home_of seat.new.state ≡ home_of seat.old.state }
    ensures carries { Carries (values J.deploy J.steps J.row_of J.channel_of J.part_of) (since_of seat.new.state)
        (held_by seat.new.state) (J.in_hand held.now) }
    ensures ended { (taken_by seat.new.state ≡ []) × (due_of seat.new.state ≡ []) }
    ensures offered { things_of (offered_by seat.new.state) ≡ offers.now.items }
{
    let count = (offers.len() as u64).wrapping_sub(1);
    seat.commit(hub, held, entry, count);
    seat.charge(hub, 0);
}
