//! The end of a hub.
ghost use Rattle.std.specs.Prelude.{◌≡◌, ◌<◌, ◌≤◌, [], Some, IfOk, OnOk, IfErr, IfSome, IsSome, length, vec_capacity};
ghost use Rattle.std.specs.List.{All};
ghost use Rattle.hub_rule.specs.Counts.{all_of, total, StandIn, EachOnceBelow};
ghost use Rattle.hub_rule.specs.Stops.{FaultOf};
ghost use Rattle.hub_rule.specs.Rule.{spent};
ghost use Rattle.group_locks.specs.Ends.{CanHoldAll, HasEnded};
ghost use Rattle.group_locks.specs.Seats.{AtRest, drawn_by, hand_of, over_of, memory_of, faults_of, stops_of, view_of_all, SettledButLast, EmptyWhereFound};
ghost use Rattle.group_locks.specs.Seats.{opened_works, seat_count, limit_of, RanFrom, IsCharged, SettledWithin};

use crate::hub::{Hub, Pool};
use crate::seat::Seat;
use crate::state::SeatState;
use hub_rule::{Board, CHARGED, Enter, Merge, STOP, Scene, StopCause, Token};
use hub_slots::{Room, in_order, room_for, take_left, take_shards};

// Makes all seats one, and hands out the lists of their entries.
fn gather<S: Scene>(
    board: &Board<S>,
    seats: Vec<Seat<S>>,
    token: &mut Token<S>,
    lists: &mut Vec<Vec<(u64, S::Entry)>>,
)
    requires table { (token.old.table_id ≡ board.now.table_id) × (0 < board.now.table_id.words) }
    requires start { (token.old.me ≡ (spent, [])) × (lists.old.items ≡ []) }
    requires seats { All (λ s. AtRest board.now.table_id s.state) seats.items }
    requires room { length seats.items ≤ vec_capacity lists.old }
    ensures same { token.new.table_id ≡ token.old.table_id }
    ensures all { all_of (λ l. l.items) lists.new.items ≡ all_of (λ s. drawn_by s.state) seats.items }
    ensures view { token.new.me ≡ (view_of_all (λ s. s.state) seats.items (all_of (λ l. l.items) lists.new.items), []) }
{
    for seat in seats {
        let Seat { state } = seat;
        let SeatState {
            token: other,
            entries,
            desk: _,
            moved: _,
            turns: _,
        } = state;
        board.join_seat::<Merge>(token, other);
        lists.push_reserved(entries);
    }
}

/// What a hub leaves: the entries in the order of their numbers, the shards, the works that stood on the desks, what is charged, and why
/// the hub was stopped, if it was.
#[derive(Drop)]
pub struct Closed<S: Scene> {
    pub entries: Vec<S::Entry>,
    pub shards: Vec<S::Shard>,
    pub left: Vec<S::Work>,
    pub charged: u64,
    pub stop: Option<StopCause>,
}

// Ends a hub, with the room that this takes.
fn end<S: Scene>(
    hub: Hub<S>,
    seats: Vec<Seat<S>>,
    room: Room<S::Entry, S::Shard, S::Work>,
) -> Closed<S>
    requires seats { All (λ s. AtRest hub.table.shared.table_id s.state) seats.items }
    requires count { length seats.items ≡ seat_count hub.table.shared.key }
    requires room { CanHoldAll (length (opened_works hub.table.shared.key)) (λ s. s.state) seats.items room }
    ensures ended { HasEnded S.meaning hub.table.shared.key (λ s. s.state) seats.items result.entries.items
        result.shards.items result.left.items result.charged result.stop }
{
    let Hub {
        table,
        scene: _,
        terms: _,
        work: _,
    } = hub;
    let Room {
        drawn: mut lists,
        places,
        entries,
        shards,
        left,
    } = room;
    let mut token = table.shared.load_new_seat::<Enter>(0).1;
    gather(&table.shared, seats, &mut token, &mut lists);
    let closed = table.close_with(token);
    let charged = closed.word(CHARGED);
    let stop_word = closed.word(STOP);
    let stop = StopCause::of_code(stop_word);
    let (shards, closed) = take_shards(closed, shards);
    let left = take_left(closed, left);
    let entries = in_order(places, lists, entries);
    Closed {
        entries,
        shards,
        left,
        charged,
        stop,
    }
}

impl<S: Scene> Hub<S> {
    /// Ends the hub, where these are all its seats and none holds a turn. The entries are in the order of their numbers, and place k of the
    /// shards is shard k. What is left is what stands on the desks, and together with the works that the seats have in hand it is what is
    /// pending after the entries. What is charged is what was spent before and the prices of the charged entries; each seat has at most its
    /// last entry uncharged. All entries but each seat's last cost, with what was spent before, no more than the limit, or nothing where as
    /// much was spent before. Where a seat found that nothing is pending, that more is charged than the limit, or that the hub stops, that
    /// is so. The only error is want of memory, and all then comes back as it was.
    pub fn close(self, seats: Vec<Seat<S>>) -> Result<Closed<S>, Pool<S>>
        requires seats { All (λ s. AtRest self.table.shared.table_id s.state) seats.items }
        requires count { length seats.items ≡ seat_count self.table.shared.key }
        ensures count { IfOk result (λ r. length r.entries.items ≡ total (λ s. length (drawn_by s.state)) seats.items) }
        ensures drawn { IfOk result (λ r. All (λ s. StandIn r.entries.items (drawn_by s.state)) seats.items) }
        ensures once { IfOk result (λ r. EachOnceBelow (length r.entries.items) (all_of (λ s. drawn_by s.state) seats.items)) }
        ensures shards { IfOk result (λ r. length r.shards.items ≡ 64) }
        ensures ran { IfOk result (λ r. RanFrom S.meaning self.table.shared.key r.entries.items r.shards.items
            r.left.items (all_of (λ s. hand_of s.state) seats.items)) }
        ensures empty { IfOk result (λ r. EmptyWhereFound (λ s. s.state) seats.items r.left.items) }
        ensures paid { IfOk result (λ r. IsCharged S.meaning.price self.table.shared.key (λ s. s.state) seats.items r.charged) }
        ensures last { All (λ s. SettledButLast s.state) seats.items }
        ensures bounded { OnOk result (SettledWithin S.meaning.price self.table.shared.key (λ s. s.state) seats.items) }
        ensures over { IfOk result (λ r. All (λ s. 0 < over_of s.state → limit_of self.table.shared.key < r.charged) seats.items) }
        ensures memory { IfOk result (λ r. All (λ s. 0 < memory_of s.state → r.stop ≡ Some StopCause.NoMemory) seats.items) }
        ensures faulty { IfOk result (λ r. All (λ s. 0 < faults_of s.state → r.stop ≡ Some StopCause.Fault) seats.items) }
        ensures stop { IfOk result (λ r. All (λ s. 0 < stops_of s.state → IsSome r.stop) seats.items) }
        ensures fault { IfOk result (λ r. r.stop ≡ Some StopCause.Fault → FaultOf S.meaning.faults r.entries.items) }
        ensures back { IfErr result (λ p. (p.hub ≡ self) × (p.seats ≡ seats)) }
    {
        let Some(room) = room_to_end(&seats, self.work as u64) else {
            return Err(Pool { hub: self, seats });
        };
        Ok(end(self, seats, room))
    }
}

// Room for what these seats and the desks leave, of so many works at the start.
fn room_to_end<S: Scene>(
    seats: &Vec<Seat<S>>,
    start: u64,
) -> Option<Room<S::Entry, S::Shard, S::Work>>
    ensures { IfSome result (λ r. CanHoldAll start (λ s. s.state) seats.now.items r) }
{
    let mut count = 0usize;
    let mut standing = start;
    for seat in seats {
        count = count.checked_add(seat.state.entries.len())?;
        standing = standing.wrapping_add(seat.state.moved);
    }
    room_for(*seats.allocator(), seats.len(), count, standing as usize).ok()
}
