//! What a seat does for a work: it finds one, or an end, and draws an entry on it.
ghost use Rattle.std.specs.Prelude.{◌≡◌, ℕ, ◌+◌, ◌-◌, ◌%◌, ◌^◌, ◌<◌, ◌≤◌, true, false, [], length};
ghost use Rattle.hub_rule.specs.Counts.{one_if};
ghost use Rattle.hub_rule.specs.Rule.{after_commit, with_tally, MayDraw, MayTakeDesk, SameCharges, IsClear, FindsLeave, FindsNoEnd, FindsEnd};
ghost use Rattle.hub_rule.specs.Works.{hand};
ghost use Rattle.hub_steps.specs.Looks.{Looked};

use crate::steps::{draw_as, read_charged_as, read_stop};
use hub_desks::{look_round, ring, sleep_for_bell, tell};
use hub_rule::{BELL, Board, Scene, Terms, Token, read_pending};
use std::alloc::Global;
use std::marker::Brand;
use std::sync::Wait;

// Whether a further entry may be drawn: reads the stop word and the charged word.
pub fn may_go<S: Scene>(board: &Board<S>, token: &mut Token<S>, limit: u64) -> bool
    requires table { (token.old.table_id ≡ board.now.table_id) × (board.now.table_id.words ≡ 800) }
    requires limit { limit ≡ board.now.key.terms.limit }
    ensures same { (token.new.table_id ≡ token.old.table_id) × (token.new.id ≡ token.old.id) }
    ensures view { token.new.me ≡ (with_tally token.old.me.0 token.new.me.0.tally, token.old.me.1) }
    ensures charged { SameCharges token.old.me.0.tally token.new.me.0.tally }
    ensures fresh { length token.new.me.0.tally.fresh ≤ length token.old.me.0.tally.fresh }
    ensures clear { IsClear token.old.me.0.tally → IsClear token.new.me.0.tally }
    ensures go { result ≡ true → FindsLeave token.old.me.0.tally token.new.me.0.tally }
    ensures stays { result ≡ true → FindsNoEnd token.old.me.0.tally token.new.me.0.tally }
    ensures cause { result ≡ false → FindsEnd token.old.me.0.tally token.new.me.0.tally }
{
    if read_stop(board, token) != 0 {
        return false;
    }
    read_charged_as::<S, Brand>(board, token) <= limit
}

// Draws the entry, and tells the pending word what it offers, less the work that it ends.
pub fn draw_and_tell<S: Scene>(
    board: &Board<S>,
    token: &mut Token<S>,
    entry: &S::Entry,
    offers: u64,
) -> u64
    requires table { (token.old.table_id ≡ board.now.table_id) × (board.now.table_id.words ≡ 800) }
    requires may { MayDraw S.meaning token.old.me.0 entry.now }
    requires counted { token.old.me.0.pile.counted ≡ 1 }
    requires offers { offers ≡ (length (S.meaning.offers entry.now) + (2 ^ 64 - one_if (S.meaning.ends entry.now))) % 2 ^ 64 }
    ensures same { (token.new.table_id ≡ token.old.table_id) × (token.new.id ≡ token.old.id) }
    ensures drawn { (base : ℕ) × (token.new.me ≡ (after_commit S.meaning token.old.me.0 result entry.now base, token.old.me.1)) }
{
    let number = draw_as::<S, Brand>(board, token, entry);
    let found = tell(board, token, offers);
    ring(board, token, found.wrapping_add(offers) == 0);
    number
}

// Takes a work, as soon as one lies on a desk, or finds an end.
pub fn find_work<S: Scene, R: Wait>(
    rt: &R,
    alloc: Global,
    board: &Board<S>,
    token: &mut Token<S>,
    desk: u32,
    terms: Terms,
) -> Option<S::Work>
    requires table { (token.old.table_id ≡ board.now.table_id) × (board.now.table_id.words ≡ 800) }
    requires terms { (terms.limit ≡ board.now.key.terms.limit) × (1 ≤ terms.seats) × (terms.seats ≤ 32) }
    requires desk { MayTakeDesk token.old.me.0 desk }
    requires idle { hand token.old.me.0.pile ≡ [] }
    ensures same { (token.new.table_id ≡ token.old.table_id) × (token.new.id ≡ token.old.id) }
    ensures looked { Looked token.old.me token.new.me result }
{
    for _ in rt.forever() {
        let bell = board.peek(BELL);
        if !may_go(board, token, terms.limit) {
            return None;
        }
        if let Some(work) = look_round(rt, alloc, board, token, desk, terms.seats) {
            return Some(work);
        }
        if read_pending(board, token) == 0 {
            return None;
        }
        sleep_for_bell(rt, board, token, bell);
    }
    unreachable!()
}
