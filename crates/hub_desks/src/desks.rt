//! The steps of one seat on desks and on the count of what is pending.
ghost use Rattle.std.specs.Prelude.{◌≡◌, ℕ, ◌+◌, ◌-◌, ◌%◌, ◌^◌, ◌<◌, ◌≤◌, true, false, [], ◌∷◌, ◌++◌, length, None, Some, IfSome, IfNone, IfErr, OnOk, IsSome, option_to_list, vec_capacity};
ghost use Rattle.hub_rule.specs.Counts.{things_of};
ghost use Rattle.hub_rule.specs.Works.{hand, HoldsDesk};
ghost use Rattle.hub_rule.specs.Rule.{tells_of, away, takes_up, leaves, ChangesPile, GivesDesk, TakesDesk, TakesUp, MayTakeDesk};
ghost use Rattle.atomic_table.specs.Table.{rest};

use hub_rule::{
    ASLEEP, BELL, Board, DESK, DESK_TURN, Fetch, LINE, Leave, MARK, PENDING, Ring, Scene, Slot,
    TakeDesk, Tell, Token, WAITING, move_all,
};
use std::alloc::Global;
use std::sync::Wait;

/// Adds this to the pending word, modulo 2^64, and answers what it was.
pub fn tell<S: Scene>(board: &Board<S>, token: &mut Token<S>, offers: u64) -> u64
    requires table { (token.old.table_id ≡ board.now.table_id) × (board.now.table_id.words ≡ 800) }
    requires owes { token.old.me.0.pile.owes ≡ true }
    requires offers { offers ≡ (length (hand token.old.me.0.pile) + (2 ^ 64 - token.old.me.0.pile.counted)) % 2 ^ 64 }
    ensures same { (token.new.table_id ≡ token.old.table_id) × (token.new.id ≡ token.old.id) }
    ensures told { ChangesPile token.old token.new tells_of }
{
    if offers == 0 {
        return board.load::<Tell>(token, PENDING);
    }
    board.fetch_add::<Tell>(token, PENDING, offers)
}

// Adds this to a word of which the rule says nothing, modulo 2^64.
fn add<S: Scene>(board: &Board<S>, token: &mut Token<S>, word: usize, more: u64)
    requires table { (token.old.table_id ≡ board.now.table_id) × (board.now.table_id.words ≡ 800) }
    requires word { (784 ≤ word) × (word < 800) }
    ensures same { (token.new.table_id ≡ token.old.table_id) × (token.new.id ≡ token.old.id) × (token.new.me ≡ token.old.me) }
{
    board.fetch_add::<Ring>(token, word, more);
}

// Rings the bell, and wakes one that waits for it, or all, where any seat does.
fn ring_for<S: Scene>(board: &Board<S>, token: &mut Token<S>, all: bool)
    requires table { (token.old.table_id ≡ board.now.table_id) × (board.now.table_id.words ≡ 800) }
    ensures same { (token.new.table_id ≡ token.old.table_id) × (token.new.id ≡ token.old.id) × (token.new.me ≡ token.old.me) }
{
    add(board, token, BELL, 1);
    if board.peek(WAITING) == 0 {
        return;
    }
    if all {
        board.wake_all(BELL);
    } else {
        board.wake_one(BELL);
    }
}

/// Rings the bell where that is wanted, and wakes all that wait for it.
pub fn ring<S: Scene>(board: &Board<S>, token: &mut Token<S>, wanted: bool)
    requires table { (token.old.table_id ≡ board.now.table_id) × (board.now.table_id.words ≡ 800) }
    ensures same { (token.new.table_id ≡ token.old.table_id) × (token.new.id ≡ token.old.id) × (token.new.me ≡ token.old.me) }
{
    if wanted {
        ring_for(board, token, true);
    }
}

/// Wakes one that sleeps for this turn, where any seat sleeps for a turn.
pub fn wake_turn<S: Scene>(board: &Board<S>, word: usize)
    requires { (board.now.table_id.words ≡ 800) × (word < 800) }
{
    if board.peek(ASLEEP) != 0 {
        board.wake_one(word);
    }
}

// Sleeps on this word, and is counted in that one meanwhile.
fn sleep<S: Scene, R: Wait>(
    rt: &R,
    board: &Board<S>,
    token: &mut Token<S>,
    counted: usize,
    word: usize,
    expected: u32,
)
    requires table { (token.old.table_id ≡ board.now.table_id) × (board.now.table_id.words ≡ 800) }
    requires words { (784 ≤ counted) × (counted < 800) × (word < 800) }
    ensures same { (token.new.table_id ≡ token.old.table_id) × (token.new.id ≡ token.old.id) × (token.new.me ≡ token.old.me) }
{
    add(board, token, counted, 1);
    board.park(rt, word, expected);
    add(board, token, counted, u64::MAX);
}

/// Sleeps while the turn of this word is taken.
pub fn sleep_for_turn<S: Scene, R: Wait>(
    rt: &R,
    board: &Board<S>,
    token: &mut Token<S>,
    word: usize,
)
    requires table { (token.old.table_id ≡ board.now.table_id) × (board.now.table_id.words ≡ 800) }
    requires word { word < 800 }
    ensures same { (token.new.table_id ≡ token.old.table_id) × (token.new.id ≡ token.old.id) × (token.new.me ≡ token.old.me) }
{
    sleep(rt, board, token, ASLEEP, word, 1);
}

/// Sleeps until the bell, which was read as this, rings.
pub fn sleep_for_bell<S: Scene, R: Wait>(rt: &R, board: &Board<S>, token: &mut Token<S>, bell: u64)
    requires table { (token.old.table_id ≡ board.now.table_id) × (board.now.table_id.words ≡ 800) }
    ensures same { (token.new.table_id ≡ token.old.table_id) × (token.new.id ≡ token.old.id) × (token.new.me ≡ token.old.me) }
{
    sleep(rt, board, token, WAITING, BELL, (bell & 0xffff_ffff) as u32);
}

// Takes the turn of a desk, and the works out of its slot.
fn take_desk<S: Scene, R: Wait>(rt: &R, board: &Board<S>, token: &mut Token<S>, desk: u32)
    requires table { (token.old.table_id ≡ board.now.table_id) × (board.now.table_id.words ≡ 800) }
    requires desk { (desk < 32) × (token.old.me.0.pile.desk ≡ []) × (0 < token.old.me.0.parts) }
    ensures same { (token.new.table_id ≡ token.old.table_id) × (token.new.id ≡ token.old.id) }
    ensures taken { TakesDesk token.old token.new desk }
{
    let word = desk as usize * LINE + DESK_TURN;
    for _ in rt.forever() {
        if board.compare_exchange::<TakeDesk>(token, word, 0, 1) == 0 {
            return;
        }
        sleep_for_turn(rt, board, token, word);
    }
    unreachable!()
}

// Moves the works off the desk whose turn is held.
fn desk_out<S: Scene>(
    alloc: Global,
    board: &Board<S>,
    token: &mut Token<S>,
    desk: u32,
) -> Vec<S::Work>
    requires table { token.old.table_id ≡ board.now.table_id }
    requires held { (works : _) × (token.old.me.1 ≡ (desk + 64, Slot.Desk works) ∷ rest token.old.me.1) }
    requires low { desk < 32 }
    ensures same { (token.new.table_id ≡ token.old.table_id) × (token.new.id ≡ token.old.id) }
    ensures works { token.old.me.1 ≡ (desk + 64, Slot.Desk result) ∷ rest token.old.me.1 }
    ensures left { (empty : _) × (token.new.me ≡ (token.old.me.0, (desk + 64, Slot.Desk empty) ∷ rest token.old.me.1)) }
{
    let Slot::Desk(works) = board.exchange(token, desk as usize + DESK, Slot::Desk(Vec::new(alloc)))
    else {
        unreachable!()
    };
    works
}

// Puts works on the desk whose turn is held, and marks the desk where there are none.
fn desk_in<S: Scene>(board: &Board<S>, token: &mut Token<S>, desk: u32, works: Vec<S::Work>)
    requires table { (token.old.table_id ≡ board.now.table_id) × (board.now.table_id.words ≡ 800) }
    requires held { (old : _) × (token.old.me.1 ≡ (desk + 64, Slot.Desk old) ∷ rest token.old.me.1) }
    requires low { desk < 32 }
    ensures same { (token.new.table_id ≡ token.old.table_id) × (token.new.id ≡ token.old.id) }
    ensures left { token.new.me ≡ (token.old.me.0, (desk + 64, Slot.Desk works) ∷ rest token.old.me.1) }
{
    let mark = if works.is_empty() { 1 } else { 0 };
    board.exchange(token, desk as usize + DESK, Slot::Desk(works));
    put_mark(board, token, desk, mark);
}

// Marks the desk, whose turn is held: 1 where nothing lies on it.
fn put_mark<S: Scene>(board: &Board<S>, token: &mut Token<S>, desk: u32, mark: u64)
    requires table { (token.old.table_id ≡ board.now.table_id) × (board.now.table_id.words ≡ 800) }
    requires low { desk < 32 }
    ensures same { (token.new.table_id ≡ token.old.table_id) × (token.new.id ≡ token.old.id) × (token.new.me ≡ token.old.me) }
{
    let word = desk as usize * LINE + MARK;
    if board.peek(word) != mark {
        board.store::<Ring>(token, word, mark);
    }
}

// Gives the turn of a desk back, where these works and the one taken, if there is one, lay on it.
fn give_desk<S: Scene>(
    board: &Board<S>,
    token: &mut Token<S>,
    desk: u32,
    works: Vec<S::Work>,
    taken: &Option<S::Work>,
)
    requires table { (token.old.table_id ≡ board.now.table_id) × (board.now.table_id.words ≡ 800) }
    requires held { (old : _) × (token.old.me.1 ≡ (desk + 64, Slot.Desk old) ∷ rest token.old.me.1) }
    requires desk { HoldsDesk token.old.me.0.pile desk (λ lay. lay ≡ works.items ++ option_to_list taken.now) }
    requires low { (desk < 32) × (32 ≤ token.old.me.0.parts) × (token.old.me.0.pile.owes ≡ false) }
    requires idle { IsSome taken.now → hand token.old.me.0.pile ≡ [] }
    ensures same { (token.new.table_id ≡ token.old.table_id) × (token.new.id ≡ token.old.id) }
    ensures some { IfSome taken.now (λ w. (i : ℕ) × GivesDesk token.old token.new (λ p. takes_up p ((i, w) ∷ []))) }
    ensures none { IfNone taken.now (GivesDesk token.old token.new away) }
{
    let _ = taken;
    desk_in(board, token, desk, works);
    board.store::<Fetch>(token, desk as usize * LINE + DESK_TURN, 0);
    wake_turn(board, desk as usize * LINE + DESK_TURN);
}

// Takes a work from a desk, if one lies there. The turn is not taken where the desk is marked as empty.
fn fetch_work<S: Scene, R: Wait>(
    rt: &R,
    alloc: Global,
    board: &Board<S>,
    token: &mut Token<S>,
    desk: u32,
) -> Option<S::Work>
    requires table { (token.old.table_id ≡ board.now.table_id) × (board.now.table_id.words ≡ 800) }
    requires desk { MayTakeDesk token.old.me.0 desk }
    requires idle { hand token.old.me.0.pile ≡ [] }
    ensures same { (token.new.table_id ≡ token.old.table_id) × (token.new.id ≡ token.old.id) }
    ensures some { IfSome result (TakesUp token.old token.new) }
    ensures none { IfNone result (token.new.me ≡ token.old.me) }
{
    if board.peek(desk as usize * LINE + MARK) == 1 {
        return None;
    }
    take_desk(rt, board, token, desk);
    let mut works = desk_out(alloc, board, token, desk);
    let taken = works.pop();
    give_desk(board, token, desk, works, &taken);
    taken
}

/// Takes a work from the first desk, from this one on, where one lies.
pub fn look_round<S: Scene, R: Wait>(
    rt: &R,
    alloc: Global,
    board: &Board<S>,
    token: &mut Token<S>,
    first: u32,
    desks: u32,
) -> Option<S::Work>
    requires table { (token.old.table_id ≡ board.now.table_id) × (board.now.table_id.words ≡ 800) }
    requires first { MayTakeDesk token.old.me.0 first }
    requires desks { (1 ≤ desks) × (desks ≤ 32) }
    requires idle { hand token.old.me.0.pile ≡ [] }
    ensures same { (token.new.table_id ≡ token.old.table_id) × (token.new.id ≡ token.old.id) }
    ensures some { IfSome result (TakesUp token.old token.new) }
    ensures none { IfNone result (token.new.me ≡ token.old.me) }
{
    for step in 0..desks {
        if let Some(work) = fetch_work(rt, alloc, board, token, (first + step) % desks) {
            return Some(work);
        }
    }
    None
}

// Gives the turn of a desk back, where these works lie on it, of which the last are those that were offered.
fn give_left<S: Scene>(board: &Board<S>, token: &mut Token<S>, desk: u32, works: Vec<S::Work>)
    requires table { (token.old.table_id ≡ board.now.table_id) × (board.now.table_id.words ≡ 800) }
    requires held { (old : _) × (token.old.me.1 ≡ (desk + 64, Slot.Desk old) ∷ rest token.old.me.1) }
    requires desk { HoldsDesk token.old.me.0.pile desk (λ lay. works.items ≡ lay ++ things_of token.old.me.0.pile.offered) }
    requires low { (desk < 32) × (32 ≤ token.old.me.0.parts) × (token.old.me.0.pile.owes ≡ false) × (length works.items ≤ 2 ^ 58) }
    ensures same { (token.new.table_id ≡ token.old.table_id) × (token.new.id ≡ token.old.id) }
    ensures left { GivesDesk token.old token.new leaves }
{
    desk_in(board, token, desk, works);
    board.store::<Leave>(token, desk as usize * LINE + DESK_TURN, 0);
    wake_turn(board, desk as usize * LINE + DESK_TURN);
}

// Reserves room for so many further works, of 2^58 at most.
fn has_room<W: Drop>(works: &mut Vec<W>, more: usize) -> bool
    ensures items { works.new.items ≡ works.old.items }
    ensures room { result ≡ true → (length works.old.items + more ≤ vec_capacity works.new) × (length works.old.items + more ≤ 2 ^ 58) }
{
    works.len() <= 1 << 58 && more <= (1 << 58) - works.len() && works.reserve(more).is_ok()
}

/// Puts the works that the last entry offered on a desk, where memory allows. Where it offered none, no desk's turn is taken.
pub fn leave_works<S: Scene, R: Wait>(
    rt: &R,
    alloc: Global,
    board: &Board<S>,
    token: &mut Token<S>,
    desk: u32,
    ops: Vec<S::Work>,
) -> Result<(), Vec<S::Work>>
    requires table { (token.old.table_id ≡ board.now.table_id) × (board.now.table_id.words ≡ 800) }
    requires desk { MayTakeDesk token.old.me.0 desk }
    requires ops { ops.items ≡ things_of token.old.me.0.pile.offered }
    ensures same { (token.new.table_id ≡ token.old.table_id) × (token.new.id ≡ token.old.id) }
    ensures ok { OnOk result (ChangesPile token.old token.new leaves) }
    ensures err { IfErr result (λ v. (v ≡ ops) × (token.new.me ≡ token.old.me)) }
{
    let count = ops.len();
    if count == 0 {
        return Ok(());
    }
    take_desk(rt, board, token, desk);
    let mut works = desk_out(alloc, board, token, desk);
    if !has_room(&mut works, count) {
        give_desk(board, token, desk, works, &None);
        return Err(ops);
    }
    move_all(ops, &mut works);
    give_left(board, token, desk, works);
    ring_for(board, token, count != 1);
    Ok(())
}
