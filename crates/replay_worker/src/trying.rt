// A step of the log is tried.
ghost use Rattle.std.specs.Prelude.{◌≡◌, ℕ, true, None};
ghost use Rattle.replay_hub.specs.declared.deed.Task.TheVariants.{Index};
ghost use Rattle.replay_hub.specs.Values.{has_bit, values};
ghost use Rattle.replay_hub.specs.Drawing.{ShowsIdle};
ghost use Rattle.replay_worker.specs.Looking.{IsDoing};
ghost use Rattle.replay_worker.specs.Seats.{CanDraw, HasEnded, IsReady};

use crate::ends::{give_up, go_home};
use crate::site::Site;
use crate::tables::{Doing, Looked, ReplayTables};
use group_locks::{Hub, Seat};
use replay_hub::worker::{draw_entry, end_idle};
use replay_hub::{Did, Entry, ReplayScene, Try};
use rho_outside::{Gate, Moment};
use std::sync::Wait;

// Does a step with the shards in hand, gives them home, and leaves what the step offers. The gate is passed before the entry is
// drawn, and again when the shards are home. False where memory was wanting; the hub is then stopped.
fn do_step<J: ReplayTables + Sync, R: Wait, G: Gate>(
    site: &Site<R, G>,
    tables: &J,
    hub: &Hub<ReplayScene<J>>,
    seat: &mut Seat<ReplayScene<J>>,
    held: &mut J::Held,
    shards: u64,
    doing: Doing<J::Row, J::Channel>,
) -> bool
    requires knows { J.knows tables.now }
    requires work { (tried : _) × CanDraw (values J.deploy J.steps J.row_of J.channel_of J.part_of) hub.now.table.shared.table_id
        (Index tried) shards seat.old.state (J.in_hand held.old)
        × IsDoing J.deploy J.steps J.row_of J.channel_of J.part_of (J.in_hand held.old) (has_bit shards) tried doing }
    ensures ended { HasEnded hub.now.table.shared.table_id result seat.new.state }
    ensures empty { (k : ℕ) → J.in_hand held.new k ≡ None }
{
    site.pass(Moment::Held { shards });
    tables.finish(held, &doing);
    let Doing {
        made,
        gone: _,
        tasks,
    } = doing;
    let did = Did::Done(made);
    draw_entry(hub, seat, held, Entry { did, shards }, &tasks);
    go_home(site, hub, seat, held, shards, Some(tasks))
}

// Ends a try whose step may not be done, and gives the shards in hand home. The gate is passed before, and again when they are home.
fn idle<J: ReplayTables + Sync, R: Wait, G: Gate>(
    site: &Site<R, G>,
    hub: &Hub<ReplayScene<J>>,
    seat: &mut Seat<ReplayScene<J>>,
    held: &mut J::Held,
    shards: u64,
    tried: Try<J::Channel>,
)
    requires draws { CanDraw (values J.deploy J.steps J.row_of J.channel_of J.part_of) hub.now.table.shared.table_id
        (Index tried) shards seat.old.state (J.in_hand held.old) }
    requires idle { ShowsIdle J.part_of (J.in_hand held.old) J.steps J.channel_of tried }
    ensures ended { HasEnded hub.now.table.shared.table_id true seat.new.state }
    ensures empty { (k : ℕ) → J.in_hand held.new k ≡ None }
{
    site.pass(Moment::Held { shards });
    end_idle(hub, seat, held, tried);
    seat.give_group(hub, held);
    site.pass(Moment::Freed { shards });
}

/// Does the step of a try, and leaves what it offers, or ends the try where its step may not be done. It looks with more
/// shards in hand where the step's receiver stands in more. The gate is passed before the entry is drawn, and again when the shards
/// are home. False where memory was wanting; the hub is then stopped.
pub(crate) fn try_step<J: ReplayTables + Sync, R: Wait, G: Gate>(
    site: &Site<R, G>,
    tables: &J,
    hub: &Hub<ReplayScene<J>>,
    seat: &mut Seat<ReplayScene<J>>,
    held: &mut J::Held,
    tried: Try<J::Channel>,
) -> bool
    requires knows { J.knows tables.now }
    requires ready { IsReady hub.now.table.shared.table_id (Index tried) seat.old.state (J.in_hand held.old) }
    ensures ended { HasEnded hub.now.table.shared.table_id result seat.new.state }
    ensures empty { (k : ℕ) → J.in_hand held.new k ≡ None }
{
    let Ok(own) = tables.own_shard(site.alloc, &tried.channel) else {
        return give_up(hub, seat);
    };
    let mut shards = own;
    for _ in site.rt.forever() {
        seat.take_group(site.rt, hub, held, shards);
        match tables.look(site.alloc, held, &tried, shards) {
            Err(_) => {
                seat.give_group(hub, held);
                return give_up(hub, seat);
            }
            Ok(Looked::Fits(doing)) => {
                return do_step(site, tables, hub, seat, held, shards, doing);
            }
            Ok(Looked::Idle) => {
                idle(site, hub, seat, held, shards, tried);
                return true;
            }
            Ok(Looked::Wider(more)) => {
                seat.give_group(hub, held);
                shards |= more;
            }
        }
    }
    unreachable!()
}
