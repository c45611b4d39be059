//! A seat, through which one worker steps.
ghost use Rattle.std.specs.Prelude.{◌≡◌, ℕ, ◌+◌, ◌^◌, ◌<◌, true, false, [], ◌∷◌, ◌++◌, ◌%◌, ◌-◌, length, None, OnOk, IfErr, IfSome, IfNone};
ghost use Rattle.std.specs.Int.{bit_at};
ghost use Rattle.hub_rule.specs.Counts.{count, one_if, things_of, numbered};
ghost use Rattle.hub_rule.specs.Rule.{since_after, kept_if, owes, pays, Carries, FindsLeave, FindsNoEnd, FindsEnd};
ghost use Rattle.hub_rule.specs.Stops.{HasFault};
ghost use Rattle.hub_rule.specs.Meaning.{IsTold};
ghost use Rattle.group_locks.specs.Seats.{home_of, pile_of, hand_of, taken_by, offered_by, took_by, empty_of, drawn_by, held_by, since_of, tally_of};
ghost use Rattle.group_locks.specs.Seats.{charged_by, due_of, over_of, stops_of, HasLeave, HasRoom, SameRoom, MayGoOn, FoundEnd, StopsFor};

use crate::hub::Hub;
use crate::state::SeatState;
use hub_desks::leave_works;
use hub_rule::{Scene, StopCause};
use hub_steps::{draw_and_tell, find_work, give_turns, halt, may_go, pay, take_turns};
use std::alloc::AllocError;
use std::sync::Wait;

/// A seat of a hub. One worker steps with it, and it can't be copied.
#[derive(Drop)]
pub struct Seat<S: Scene> {
    /// What the seat knows and has drawn.
    pub state: SeatState<S::Entry, S::Shard, S::Work>,
}

impl<S: Scene> Seat<S> {
    /// Takes the turns of the shards whose bits are set, in ascending order, and moves these shards in hand. A turn that another seat holds
    /// is waited for.
    pub fn take_group<R: Wait>(&mut self, rt: &R, hub: &Hub<S>, held: &mut S::Held, shards: u64)
        requires hub { home_of self.old.state ≡ hub.now.table.shared.table_id }
        requires free { held_by self.old.state ≡ [] }
        requires empty { (k : ℕ) → S.in_hand held.old k ≡ None }
        ensures hub { home_of self.new.state ≡ home_of self.old.state }
        ensures drawn { drawn_by self.new.state ≡ drawn_by self.old.state }
        ensures since { since_of self.new.state ≡ [] }
        ensures tally { tally_of self.new.state ≡ tally_of self.old.state }
        ensures works { pile_of self.new.state ≡ pile_of self.old.state }
        ensures room { SameRoom self.old.state self.new.state }
        ensures turns { (k : ℕ) → count k (held_by self.new.state) ≡ bit_at shards k }
        ensures carries { Carries S.meaning [] (held_by self.new.state) (S.in_hand held.new) }
    {
        let state = &mut self.state;
        take_turns(
            rt,
            &hub.scene,
            &hub.table.shared,
            &mut state.token,
            held,
            shards,
        );
        state.turns = shards;
    }

    /// Moves all shards in hand home, and gives their turns back. They are as they were when their turns were taken, changed by what this
    /// seat drew since.
    pub fn give_group(&mut self, hub: &Hub<S>, held: &mut S::Held)
        requires hub { home_of self.old.state ≡ hub.now.table.shared.table_id }
        requires carries { Carries S.meaning (since_of self.old.state) (held_by self.old.state) (S.in_hand held.old) }
        ensures hub { home_of self.new.state ≡ home_of self.old.state }
        ensures drawn { drawn_by self.new.state ≡ drawn_by self.old.state }
        ensures room { SameRoom self.old.state self.new.state }
        ensures tally { tally_of self.new.state ≡ tally_of self.old.state }
        ensures works { pile_of self.new.state ≡ pile_of self.old.state }
        ensures free { held_by self.new.state ≡ [] }
        ensures empty { (k : ℕ) → S.in_hand held.new k ≡ None }
    {
        let state = &mut self.state;
        let shards = state.turns;
        give_turns(
            &hub.scene,
            &hub.table.shared,
            &mut state.token,
            held,
            shards,
        );
        state.turns = 0;
    }

    /// Reserves room for one further entry. All else stays as it was. The only error is want of memory, which an entry past 2^58 is too.
    pub fn again(&mut self, _hub: &Hub<S>) -> Result<(), AllocError>
        ensures hub { home_of self.new.state ≡ home_of self.old.state }
        ensures drawn { drawn_by self.new.state ≡ drawn_by self.old.state }
        ensures held { held_by self.new.state ≡ held_by self.old.state }
        ensures since { since_of self.new.state ≡ since_of self.old.state }
        ensures tally { tally_of self.new.state ≡ tally_of self.old.state }
        ensures works { pile_of self.new.state ≡ pile_of self.old.state }
        ensures room { OnOk result (HasRoom self.new.state) }
    {
        if self.state.entries.len() >= 1 << 58 {
            return Err(AllocError);
        }
        self.state.entries.reserve(1)
    }

    /// Takes one work that is pending and that no other seat has in hand, and waits where none lies on a desk and others may still come. It
    /// stays in this seat's hand until an entry of the seat ends it. `Some` comes only where this call found the stop unset and no more
    /// charged than the limit, and gives leave and room for one entry; `None` only where this call found that nothing is pending, that more
    /// is charged than the limit, or that the hub stops. Where no room for an entry can be reserved, it stops the hub for want of memory.
    pub fn take_op<R: Wait>(&mut self, rt: &R, hub: &Hub<S>) -> Option<S::Work>
        requires hub { home_of self.old.state ≡ hub.now.table.shared.table_id }
        requires idle { hand_of self.old.state ≡ [] }
        requires charged { due_of self.old.state ≡ [] }
        ensures hub { home_of self.new.state ≡ home_of self.old.state }
        ensures drawn { drawn_by self.new.state ≡ drawn_by self.old.state }
        ensures held { held_by self.new.state ≡ held_by self.old.state }
        ensures since { since_of self.new.state ≡ since_of self.old.state }
        ensures charged { (charged_by self.new.state ≡ charged_by self.old.state) × (due_of self.new.state ≡ []) }
        ensures taken { IfSome result (λ w. (index : ℕ) × (taken_by self.new.state ≡ (index, w) ∷ [])) }
        ensures new { IfSome result (λ _. (offered_by self.new.state ≡ []) × (took_by self.new.state ≡ [])) }
        ensures go { IfSome result (λ _. MayGoOn self.old.state self.new.state) }
        ensures idle { IfNone result (hand_of self.new.state ≡ []) }
        ensures cause { IfNone result (FoundEnd self.old.state self.new.state) }
    {
        let Ok(()) = self.again(hub) else {
            self.stop(hub, StopCause::NoMemory);
            return None;
        };
        let state = &mut self.state;
        let alloc = *state.entries.allocator();
        let board = &hub.table.shared;
        let found = find_work(rt, alloc, board, &mut state.token, state.desk, hub.terms);
        state.moved = state.moved.wrapping_sub(u64::from(found.is_some()));
        found
    }

    /// Puts the works that the seat's last entry offered on its desk, in their order. Where memory is wanting they come back, and stay in
    /// this seat's hand.
    pub fn leave_ops<R: Wait>(
        &mut self,
        rt: &R,
        hub: &Hub<S>,
        ops: Vec<S::Work>,
    ) -> Result<(), Vec<S::Work>>
        requires hub { home_of self.old.state ≡ hub.now.table.shared.table_id }
        requires ops { ops.items ≡ things_of (offered_by self.old.state) }
        ensures hub { home_of self.new.state ≡ home_of self.old.state }
        ensures drawn { drawn_by self.new.state ≡ drawn_by self.old.state }
        ensures held { held_by self.new.state ≡ held_by self.old.state }
        ensures since { since_of self.new.state ≡ since_of self.old.state }
        ensures tally { tally_of self.new.state ≡ tally_of self.old.state }
        ensures room { SameRoom self.old.state self.new.state }
        ensures taken { (taken_by self.new.state ≡ taken_by self.old.state) × (took_by self.new.state ≡ took_by self.old.state) }
        ensures empty { empty_of self.new.state ≡ empty_of self.old.state }
        ensures left { OnOk result (offered_by self.new.state ≡ []) }
        ensures back { IfErr result (λ v. (v ≡ ops) × (pile_of self.new.state ≡ pile_of self.old.state)) }
    {
        let state = &mut self.state;
        let alloc = *state.entries.allocator();
        let count = ops.len() as u64;
        let board = &hub.table.shared;
        let left = leave_works(rt, alloc, board, &mut state.token, state.desk, ops);
        state.moved = state.moved.wrapping_add(left_of(&left, count));
        left
    }

    /// Draws the entry's number, and answers it. The seat has leave and room for the entry, has charged its entry before and left what that
    /// offered, has the work in hand that the entry takes, and holds the turns of all shards that it touches; and the held shards, as they
    /// stood before the entry, and the entries that it drew on this work tell that it is allowed. The shards in hand are already changed by
    /// the entry. `offers` is how many works it offers, less the one that it ends, if it ends one, modulo 2^64.
    pub fn commit(&mut self, hub: &Hub<S>, held: &S::Held, entry: S::Entry, offers: u64) -> u64
        requires hub { home_of self.old.state ≡ hub.now.table.shared.table_id }
        requires leave { HasLeave self.old.state }
        requires charged { due_of self.old.state ≡ [] }
        requires room { HasRoom self.old.state }
        requires within { (k : ℕ) → S.meaning.touched entry k ≡ true → 0 < count k (held_by self.old.state) }
        requires work { (index : ℕ) × (taken_by self.old.state ≡ (index, S.meaning.takes entry) ∷ []) }
        requires left { offered_by self.old.state ≡ [] }
        requires few { length (S.meaning.offers entry) < 2 ^ 57 + 64 }
        requires offers { offers ≡ (length (S.meaning.offers entry) + (2 ^ 64 - one_if (S.meaning.ends entry))) % 2 ^ 64 }
        requires allowed { IsTold S.meaning (since_of self.old.state) (held_by self.old.state) (took_by self.old.state) entry }
        requires carries { Carries S.meaning (since_of self.old.state ++ entry ∷ []) (held_by self.old.state) (S.in_hand held.now) }
        ensures hub { home_of self.new.state ≡ home_of self.old.state }
        ensures drawn { drawn_by self.new.state ≡ drawn_by self.old.state ++ (result, entry) ∷ [] }
        ensures tally { tally_of self.new.state ≡ owes (tally_of self.old.state) result entry }
        ensures due { due_of self.new.state ≡ (result, entry) ∷ [] }
        ensures taken { taken_by self.new.state ≡ kept_if (S.meaning.ends entry) (taken_by self.old.state) }
        ensures offered { (base : ℕ) × (offered_by self.new.state ≡ numbered base (S.meaning.offers entry)) }
        ensures took { took_by self.new.state ≡ took_by self.old.state ++ entry ∷ [] }
        ensures held { held_by self.new.state ≡ held_by self.old.state }
        ensures since { since_of self.new.state ≡ since_after (held_by self.old.state) (since_of self.old.state ++ entry ∷ []) }
        ensures carries { Carries S.meaning (since_of self.new.state) (held_by self.new.state) (S.in_hand held.now) }
    {
        let _ = held;
        let state = &mut self.state;
        let number = draw_and_tell(&hub.table.shared, &mut state.token, &entry, offers);
        state.entries.push_reserved((number, entry));
        number
    }

    /// Whether the seat may draw a further entry: true only where this call found the stop unset and no more charged than the limit, false
    /// only where it found that the hub stops or that more is charged. The seat's last entry is charged.
    pub fn may_go(&mut self, hub: &Hub<S>) -> bool
        requires hub { home_of self.old.state ≡ hub.now.table.shared.table_id }
        requires charged { due_of self.old.state ≡ [] }
        ensures hub { home_of self.new.state ≡ home_of self.old.state }
        ensures drawn { drawn_by self.new.state ≡ drawn_by self.old.state }
        ensures held { held_by self.new.state ≡ held_by self.old.state }
        ensures since { since_of self.new.state ≡ since_of self.old.state }
        ensures room { SameRoom self.old.state self.new.state }
        ensures charged { (charged_by self.new.state ≡ charged_by self.old.state) × (due_of self.new.state ≡ []) }
        ensures works { pile_of self.new.state ≡ pile_of self.old.state }
        ensures go { result ≡ true → FindsLeave (tally_of self.old.state) (tally_of self.new.state) }
        ensures stays { result ≡ true → FindsNoEnd (tally_of self.old.state) (tally_of self.new.state) }
        ensures cause { result ≡ false → FindsEnd (tally_of self.old.state) (tally_of self.new.state) }
    {
        may_go(&hub.table.shared, &mut self.state.token, hub.terms.limit)
    }

    /// Adds the price of the seat's last entry to what is charged. It is added once.
    pub fn charge(&mut self, hub: &Hub<S>, n: u64)
        requires hub { home_of self.old.state ≡ hub.now.table.shared.table_id }
        requires price { (last : ℕ × S.Entry) × (due_of self.old.state ≡ last ∷ []) × (n ≡ S.meaning.price last.1) }
        ensures hub { home_of self.new.state ≡ home_of self.old.state }
        ensures drawn { drawn_by self.new.state ≡ drawn_by self.old.state }
        ensures held { held_by self.new.state ≡ held_by self.old.state }
        ensures since { since_of self.new.state ≡ since_of self.old.state }
        ensures room { SameRoom self.old.state self.new.state }
        ensures charged { charged_by self.new.state ≡ drawn_by self.old.state }
        ensures tally { tally_of self.new.state ≡ pays (tally_of self.old.state) }
        ensures works { pile_of self.new.state ≡ pile_of self.old.state }
        ensures due { due_of self.new.state ≡ [] }
    {
        pay(&hub.table.shared, &mut self.state.token, n, hub.terms.limit);
    }

    /// Stops the hub, for want of memory or for a faulting entry that this seat drew. The first cause stays: where this call found the stop
    /// unset, its own cause stands from then on, and else the one that it found.
    pub fn stop(&mut self, hub: &Hub<S>, cause: StopCause)
        requires hub { home_of self.old.state ≡ hub.now.table.shared.table_id }
        requires fault { cause ≡ StopCause.Fault → HasFault S.meaning.faults (drawn_by self.old.state) }
        ensures hub { home_of self.new.state ≡ home_of self.old.state }
        ensures drawn { drawn_by self.new.state ≡ drawn_by self.old.state }
        ensures held { held_by self.new.state ≡ held_by self.old.state }
        ensures since { since_of self.new.state ≡ since_of self.old.state }
        ensures room { SameRoom self.old.state self.new.state }
        ensures charged { (charged_by self.new.state ≡ charged_by self.old.state) × (due_of self.new.state ≡ due_of self.old.state) }
        ensures works { pile_of self.new.state ≡ pile_of self.old.state }
        ensures leave { HasLeave self.old.state → HasLeave self.new.state }
        ensures over { over_of self.new.state ≡ over_of self.old.state }
        ensures stops { stops_of self.new.state ≡ stops_of self.old.state + 1 }
        ensures cause { StopsFor cause self.old.state self.new.state }
    {
        halt(&hub.table.shared, &mut self.state.token, cause);
    }

    /// The entries that the seat drew, each with its number, in the order in which it drew them.
    pub fn drawn(&self) -> &[(u64, S::Entry)]
        ensures { result.now ≡ drawn_by self.now.state }
    {
        self.state.entries.as_slice()
    }
}

// How many works were left, of so many.
fn left_of<T: Drop>(left: &Result<(), Vec<T>>, count: u64) -> u64
    ensures ok { OnOk left.now (result ≡ count) }
    ensures err { IfErr left.now (λ _. result ≡ 0) }
{
    match left {
        Ok(()) => count,
        Err(_) => 0,
    }
}
