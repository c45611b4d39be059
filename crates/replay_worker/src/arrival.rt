// A row arrives.
ghost use Rattle.std.specs.Prelude.{◌≡◌, ℕ, None, IfSome};
ghost use Rattle.replay_hub.specs.declared.deed.Task.TheVariants.{Arrive};
ghost use Rattle.replay_hub.specs.Values.{values};
ghost use Rattle.replay_worker.specs.Looking.{IsArriving};
ghost use Rattle.replay_worker.specs.Seats.{CanDraw, HasDrawn, HasEnded, HasInHand, IsReady};

use crate::ends::{give_up, go_home};
use crate::site::Site;
use crate::tables::{Arriving, ReplayTables};
use group_locks::{Hub, Seat};
use replay_hub::worker::draw_entry;
use replay_hub::{Arrived, Coming, Did, Entry, ReplayScene, Task};
use rho_outside::{Gate, Moment};
use std::alloc::Global;
use std::snapshot::Snapshot;
use std::sync::Wait;

// A row that is to arrive, with what is known before.
#[derive(Drop)]
struct Arrival<R, C> {
    coming: Coming<R>,
    known: Arriving<R, C>,
}

// Brings a row into the shards in hand, which are those that it stands in, and draws its arrival. It answers the jobs that
// this offers, or None where memory was wanting; then nothing is changed.
fn draw_arrival<J: ReplayTables + Sync>(
    alloc: Global,
    tables: &J,
    hub: &Hub<ReplayScene<J>>,
    seat: &mut Seat<ReplayScene<J>>,
    held: &mut J::Held,
    arrival: Arrival<J::Row, J::Channel>,
) -> Option<Vec<Task<J::Row, J::Channel>>>
    requires draws { CanDraw (values J.deploy J.steps J.row_of J.channel_of J.part_of) hub.now.table.shared.table_id
        (Arrive arrival.coming) arrival.known.shards seat.old.state (J.in_hand held.old) }
    requires arriving { IsArriving J.steps J.row_of J.channel_of arrival.coming arrival.known }
    ensures holds { HasInHand (values J.deploy J.steps J.row_of J.channel_of J.part_of) hub.now.table.shared.table_id
        seat.new.state (J.in_hand held.new) }
    ensures drawn { IfSome result (λ tasks. HasDrawn tasks.items seat.new.state) }
{
    let Arrival { coming, known } = arrival;
    let Arriving {
        shards,
        next,
        tasks,
    } = known;
    let seen = Snapshot::of(&coming);
    let Ok(()) = tables.arrive(alloc, held, coming, shards) else {
        return None;
    };
    let did = Did::Arrived(Arrived { coming: seen, next });
    draw_entry(hub, seat, held, Entry { did, shards }, &tasks);
    Some(tasks)
}

/// Brings a row in, and leaves the try of its first use. The gate is passed as soon as the row's shards are in hand, and again when
/// they are home. False where memory was wanting; the hub is then stopped.
pub(crate) fn bring_in<J: ReplayTables + Sync, R: Wait, G: Gate>(
    site: &Site<R, G>,
    tables: &J,
    hub: &Hub<ReplayScene<J>>,
    seat: &mut Seat<ReplayScene<J>>,
    held: &mut J::Held,
    coming: Coming<J::Row>,
) -> bool
    requires knows { J.knows tables.now }
    requires ready { IsReady hub.now.table.shared.table_id (Arrive coming) seat.old.state (J.in_hand held.old) }
    ensures ended { HasEnded hub.now.table.shared.table_id result seat.new.state }
    ensures empty { (k : ℕ) → J.in_hand held.new k ≡ None }
{
    let Ok(known) = tables.prepare(site.alloc, &coming) else {
        return give_up(hub, seat);
    };
    let shards = known.shards;
    seat.take_group(site.rt, hub, held, shards);
    site.pass(Moment::Held { shards });
    let arrival = Arrival { coming, known };
    let drawn = draw_arrival(site.alloc, tables, hub, seat, held, arrival);
    go_home(site, hub, seat, held, shards, drawn)
}
