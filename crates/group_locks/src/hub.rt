//! The hub, which all seats share.
ghost use Rattle.std.specs.Prelude.{◌≡◌, ◌≤◌, ◌<◌, ◌^◌, [], IfOk, length, vec_capacity};
ghost use Rattle.std.specs.List.{All};
ghost use Rattle.hub_rule.specs.Counts.{Projected};
ghost use Rattle.hub_rule.specs.Rule.{newcomer};
ghost use Rattle.group_locks.specs.Seats.{AtRest, HasDoneNothing, OpensWith, opened_shards, opened_works, seat_count, spent_of, limit_of};

use crate::seat::Seat;
use crate::state::SeatState;
use atomic_table::Table;
use hub_rule::{Board, CHARGED, Cut, Opened, PENDING, Rule, Scene, Slot, Terms, Token, View};
use hub_slots::slots_of;
use std::alloc::{AllocError, Global};
use std::snapshot::Snapshot;

/// The turns and the slots of 64 shards, the count of entries drawn, what is charged, and the stop. Each step on them is one atomic step,
/// and there is no lock round the whole.
#[derive(Drop)]
pub struct Hub<S: Scene> {
    /// The words and slots, under `Rule`. Contracts name the hub by its `table_id`.
    pub table: Table<
        Slot<S::Shard, S::Work>,
        View<S::Entry, S::Shard, S::Work>,
        Opened<S::Shard, S::Work>,
        Rule<S>,
        Global,
    >,
    pub(crate) scene: S,
    pub(crate) terms: Terms,
    pub(crate) work: usize,
    ghost dealt: { work ≡ length table.shared.key.works.value.items },
    ghost wide: { table.shared.table_id.words ≡ 800 },
    ghost long: { table.shared.table_id.slots ≡ 96 },
    ghost few: { (1 ≤ terms.seats) × (terms.seats ≤ 32) },
    ghost agreed: { terms ≡ table.shared.key.terms },
}

/// A hub with all its seats.
#[derive(Drop)]
pub struct Pool<S: Scene> {
    pub hub: Hub<S>,
    pub seats: Vec<Seat<S>>,
}

impl<S: Scene> Hub<S> {
    // The hub, and a seat with every part.
    pub(crate) fn open(
        alloc: Global,
        scene: S,
        shards: Vec<S::Shard>,
        work: Vec<S::Work>,
        terms: Terms,
    ) -> Result<(Hub<S>, Token<S>), AllocError>
        requires few { (1 ≤ terms.seats) × (terms.seats ≤ 32) }
        requires low { (terms.spent < 2 ^ 62) × (terms.limit < 2 ^ 62) }
        requires long { length shards.items ≡ 64 }
        requires short { length work.items ≤ 2 ^ 58 }
        requires opens { (store : S.Store) × Projected S.meaning.projects store shards.items × S.meaning.opens store work.items }
        ensures token { IfOk result (λ t. (t.1.table_id ≡ t.0.table.shared.table_id) × (t.1.me ≡ (newcomer terms.seats, []))) }
        ensures key { IfOk result (λ t. OpensWith t.0.table.shared.key shards.items work.items terms) }
    {
        let key = Opened {
            shards: Snapshot::of(&shards),
            works: Snapshot::of(&work),
            terms,
        };
        let count = work.len();
        let mut words = [0u64; 800];
        words[CHARGED] = terms.spent;
        words[PENDING] = count as u64;
        let slots = slots_of(alloc, shards, work, terms.seats)?;
        match Table::new(alloc, &words, slots, &key) {
            Ok((table, token)) => Ok((
                Hub {
                    table,
                    scene,
                    terms,
                    work: count,
                },
                token,
            )),
            Err(_) => Err(AllocError),
        }
    }

    /// A hub over these 64 shards, in the order of their numbers, on these terms, with 1 to 32 seats. There is a store that the shards
    /// project, and with which and these works a hub may open. The works are dealt out to the desks of the seats. Seats may go on while
    /// no more than the limit is charged. The only error is want of memory; the arguments are then gone.
    pub fn start(
        alloc: Global,
        scene: S,
        shards: Vec<S::Shard>,
        work: Vec<S::Work>,
        terms: Terms,
    ) -> Result<Pool<S>, AllocError>
        requires few { (1 ≤ terms.seats) × (terms.seats ≤ 32) }
        requires low { (terms.spent < 2 ^ 62) × (terms.limit < 2 ^ 62) }
        requires long { length shards.items ≡ 64 }
        requires short { length work.items ≤ 2 ^ 58 }
        requires opens { (store : S.Store) × Projected S.meaning.projects store shards.items × S.meaning.opens store work.items }
        ensures opened { IfOk result (λ p. opened_shards p.hub.table.shared.key ≡ shards.items) }
        ensures works { IfOk result (λ p. opened_works p.hub.table.shared.key ≡ work.items) }
        ensures key { IfOk result (λ p. seat_count p.hub.table.shared.key ≡ terms.seats) }
        ensures terms { IfOk result (λ p. (spent_of p.hub.table.shared.key ≡ terms.spent) ×
            (limit_of p.hub.table.shared.key ≡ terms.limit)) }
        ensures count { IfOk result (λ p. length p.seats.items ≡ terms.seats) }
        ensures rest { IfOk result (λ p. All (λ s. AtRest p.hub.table.shared.table_id s.state) p.seats.items) }
        ensures drawn { IfOk result (λ p. All (λ s. HasDoneNothing s.state) p.seats.items) }
    {
        let made = Vec::with_capacity(alloc, terms.seats as usize)?;
        let (hub, token) = Hub::open(alloc, scene, shards, work, terms)?;
        let seats = cut_seats(alloc, &hub.table.shared, token, made, terms.seats);
        Ok(Pool { hub, seats })
    }
}

// So many seats, each with its share of the parts that this token has.
fn cut_seats<S: Scene>(
    alloc: Global,
    board: &Board<S>,
    mut token: Token<S>,
    mut made: Vec<Seat<S>>,
    seats: u32,
) -> Vec<Seat<S>>
    requires table { (token.table_id ≡ board.now.table_id) × (0 < board.now.table_id.words) }
    requires parts { (token.me ≡ (newcomer seats, [])) × (1 ≤ seats) × (seats ≤ 32) }
    requires room { (made.items ≡ []) × (seats ≤ vec_capacity made) }
    ensures count { length result.items ≡ seats }
    ensures rest { All (λ s. AtRest board.now.table_id s.state) result.items }
    ensures drawn { All (λ s. HasDoneNothing s.state) result.items }
{
    for number in 1..seats {
        let other = board.split_seat::<Cut>(&mut token);
        made.push_reserved(new_seat(alloc, other, number));
    }
    made.push_reserved(new_seat(alloc, token, 0));
    made
}

fn new_seat<S: Scene>(alloc: Global, token: Token<S>, desk: u32) -> Seat<S>
    requires desk { desk < 32 }
    requires token { token.me ≡ (newcomer 1, []) }
    ensures { result.state.token ≡ token }
{
    Seat {
        state: SeatState {
            token,
            entries: Vec::new(alloc),
            desk,
            moved: 0,
            turns: 0,
        },
    }
}
