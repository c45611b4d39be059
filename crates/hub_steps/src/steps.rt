//! The steps of one seat: turns, and draws.
ghost use Rattle.std.specs.Prelude.{◌≡◌, ℕ, true, ◌+◌, ◌<◌, ◌≤◌, ◌^◌, ◌==◌, cond, [], ◌∷◌, ◌++◌, length, None, Some};
ghost use Rattle.std.specs.Int.{bit_at};
ghost use Rattle.hub_rule.specs.Counts.{count};
ghost use Rattle.hub_rule.specs.Rule.{with_held, emptied, below, descends, given_back, after_draw, cost, Carries, MayDraw, HoldsLast};
ghost use Rattle.hub_rule.specs.Rule.{ChangesTally, pays, saw_low, saw_over, saw_stop, saw_stopped, all_charged};
ghost use Rattle.hub_rule.specs.Stops.{code_of, HasFault};

use hub_desks::{ring, sleep_for_turn, wake_turn};
use hub_rule::{
    Board, CHARGED, Draw, FindCharged, FindStop, Give, Halt, LINE, Limiting, Naming, Pay, STOP,
    Scene, Slot, StopCause, TURN, Take, Token,
};
use std::sync::Wait;

// Takes the turn of a shard, and the shard out of its slot.
fn take_turn<S: Scene, R: Wait>(
    rt: &R,
    board: &Board<S>,
    token: &mut Token<S>,
    number: u32,
) -> S::Shard
    requires table { token.old.table_id ≡ board.now.table_id }
    requires counts { (board.now.table_id.words ≡ 800) × (number < 64) }
    requires fresh { (token.old.me.0.since ≡ []) × (0 < token.old.me.0.parts) }
    ensures same { (token.new.table_id ≡ token.old.table_id) × (token.new.id ≡ token.old.id) }
    ensures view { token.new.me.0 ≡ with_held token.old.me.0 ((number, result) ∷ token.old.me.0.held) token.old.me.0.since }
    ensures out { token.new.me.1 ≡ (number, Slot.Shard None) ∷ token.old.me.1 }
{
    let word = number as usize * LINE + TURN;
    for _ in rt.forever() {
        if board.compare_exchange::<Take>(token, word, 0, 1) == 0 {
            let Slot::Shard(Some(shard)) = board.exchange(token, number as usize, Slot::Shard(None))
            else {
                unreachable!()
            };
            return shard;
        }
        sleep_for_turn(rt, board, token, word);
    }
    unreachable!()
}

// Takes the turns of these shards, and moves the shards in hand.
pub fn take_turns<S: Scene, R: Wait>(
    rt: &R,
    scene: &S,
    board: &Board<S>,
    token: &mut Token<S>,
    held: &mut S::Held,
    shards: u64,
)
    requires table { token.old.table_id ≡ board.now.table_id }
    requires counts { board.now.table_id.words ≡ 800 }
    requires part { 0 < token.old.me.0.parts }
    requires fresh { (token.old.me.0.held ≡ []) × (token.old.me.0.since ≡ []) × (token.old.me.1 ≡ []) }
    requires none { (k : ℕ) → S.in_hand held.old k ≡ None }
    ensures same { (token.new.table_id ≡ token.old.table_id) × (token.new.id ≡ token.old.id) }
    ensures view { token.new.me.0 ≡ with_held token.old.me.0 token.new.me.0.held [] }
    ensures out { token.new.me.1 ≡ emptied token.new.me.0.held }
    ensures falls { (below 64 token.new.me.0.held ≡ true) × (descends token.new.me.0.held ≡ true) }
    ensures carries { Carries S.meaning [] token.new.me.0.held (S.in_hand held.new) }
    ensures numbers { (k : ℕ) → k < 64 → count k token.new.me.0.held ≡ bit_at shards k }
{
    let mut rest = shards;
    while rest != 0 {
        let number = rest.trailing_zeros();
        let shard = take_turn(rt, board, token, number);
        scene.add(held, number, shard);
        rest &= !(1 << number);
    }
}

// Gives back the turn that was taken last, with this shard.
fn give_turn<S: Scene>(board: &Board<S>, token: &mut Token<S>, number: u32, shard: S::Shard)
    requires table { token.old.table_id ≡ board.now.table_id }
    requires counts { board.now.table_id.words ≡ 800 }
    requires number { number < 64 }
    requires out { token.old.me.1 ≡ emptied token.old.me.0.held }
    requires top { HoldsLast S.meaning token.old.me.0 number shard }
    ensures same { (token.new.table_id ≡ token.old.table_id) × (token.new.id ≡ token.old.id) }
    ensures view { token.new.me.0 ≡ given_back token.old.me.0 }
    ensures out { token.new.me.1 ≡ emptied token.new.me.0.held }
{
    board.exchange(token, number as usize, Slot::Shard(Some(shard)));
    board.store::<Give>(token, number as usize * LINE + TURN, 0);
    wake_turn(board, number as usize * LINE + TURN);
}

// Moves all shards in hand home, and gives their turns back: those whose bits are set.
pub fn give_turns<S: Scene>(
    scene: &S,
    board: &Board<S>,
    token: &mut Token<S>,
    held: &mut S::Held,
    shards: u64,
)
    requires table { (token.old.table_id ≡ board.now.table_id) × (board.now.table_id.words ≡ 800) }
    requires since { token.old.me.0.held ≡ [] → token.old.me.0.since ≡ [] }
    requires out { token.old.me.1 ≡ emptied token.old.me.0.held }
    requires falls { (below 64 token.old.me.0.held ≡ true) × (descends token.old.me.0.held ≡ true) }
    requires carries { Carries S.meaning token.old.me.0.since token.old.me.0.held (S.in_hand held.old) }
    requires numbers { (k : ℕ) → k < 64 → bit_at shards k ≡ count k token.old.me.0.held }
    ensures same { (token.new.table_id ≡ token.old.table_id) × (token.new.id ≡ token.old.id) }
    ensures view { token.new.me ≡ (with_held token.old.me.0 [] [], []) }
    ensures none { (k : ℕ) → S.in_hand held.new k ≡ None }
{
    let mut rest = shards;
    while rest != 0 {
        let number = rest.ilog2();
        let Some(shard) = scene.remove(held, number) else {
            unreachable!()
        };
        give_turn(board, token, number, shard);
        rest &= !(1 << number);
    }
}

// Draws the entry, which the proof names.
pub fn draw_as<S: Scene, J: Naming<S::Entry>>(
    board: &Board<S>,
    token: &mut Token<S>,
    entry: &S::Entry,
) -> u64
    requires table { (token.old.table_id ≡ board.now.table_id) × (board.now.table_id.words ≡ 800) }
    requires named { J.entry ≡ Some entry.now }
    requires may { MayDraw S.meaning token.old.me.0 entry.now }
    ensures same { (token.new.table_id ≡ token.old.table_id) × (token.new.id ≡ token.old.id) }
    ensures drawn { (base : ℕ) × (token.new.me ≡ (after_draw S.meaning token.old.me.0 result entry.now base, token.old.me.1)) }
{
    let _ = entry;
    board.fetch_add::<Draw<S, J>>(token, 0, 1)
}

// Adds the price of what is due to the charged word, and rings the bell where that passes the limit.
pub fn pay<S: Scene>(board: &Board<S>, token: &mut Token<S>, price: u64, limit: u64)
    requires table { (token.old.table_id ≡ board.now.table_id) × (board.now.table_id.words ≡ 800) }
    requires part { token.old.me.0.parts ≡ 32 }
    requires due { (price ≡ cost S.meaning.price token.old.me.0.tally.due) × (price ≤ 2 ^ 56) }
    requires clear { length token.old.me.0.tally.fresh ≡ 0 }
    ensures same { (token.new.table_id ≡ token.old.table_id) × (token.new.id ≡ token.old.id) }
    ensures paid { ChangesTally token.old token.new pays }
{
    let found = board.fetch_add::<Pay>(token, CHARGED, price);
    ring(
        board,
        token,
        found <= limit && limit.saturating_sub(found) < price,
    );
}

// Reads the charged word, under the limit that the proof names.
pub fn read_charged_as<S: Scene, J: Limiting>(board: &Board<S>, token: &mut Token<S>) -> u64
    requires table { (token.old.table_id ≡ board.now.table_id) × (board.now.table_id.words ≡ 800) }
    requires named { J.limit ≡ board.now.key.terms.limit }
    ensures same { (token.new.table_id ≡ token.old.table_id) × (token.new.id ≡ token.old.id) }
    ensures over { board.now.key.terms.limit < result → ChangesTally token.old token.new saw_over }
    ensures low { result ≤ board.now.key.terms.limit → ChangesTally token.old token.new saw_low }
    ensures charged { all_charged token.new.me.0.tally ≡ all_charged token.old.me.0.tally }
    ensures fresh { length token.new.me.0.tally.fresh ≤ length token.old.me.0.tally.fresh }
{
    board.load::<FindCharged<J>>(token, CHARGED)
}

// Reads the stop word.
pub fn read_stop<S: Scene>(board: &Board<S>, token: &mut Token<S>) -> u64
    requires table { (token.old.table_id ≡ board.now.table_id) × (board.now.table_id.words ≡ 800) }
    ensures same { (token.new.table_id ≡ token.old.table_id) × (token.new.id ≡ token.old.id) }
    ensures low { result ≤ 2 }
    ensures found { ChangesTally token.old token.new (λ t. saw_stop t result) }
{
    board.load::<FindStop>(token, STOP)
}

// Sets the stop word and rings the bell, if it was not set.
pub fn halt<S: Scene>(board: &Board<S>, token: &mut Token<S>, cause: StopCause) -> u64
    requires table { (token.old.table_id ≡ board.now.table_id) × (board.now.table_id.words ≡ 800) }
    requires fault { cause ≡ StopCause.Fault → HasFault S.meaning.faults token.old.me.0.entries }
    ensures same { (token.new.table_id ≡ token.old.table_id) × (token.new.id ≡ token.old.id) }
    ensures low { result ≤ 2 }
    ensures found { ChangesTally token.old token.new (λ t. saw_stopped t result (cond (result == 0) (code_of cause) result)) }
{
    let found = board.compare_exchange::<Halt>(token, STOP, 0, cause.code());
    ring(board, token, found == 0);
    found
}
