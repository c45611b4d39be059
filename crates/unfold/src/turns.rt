// The list of what is still to be unfolded, part after part.
ghost use Rattle.std.specs.Prelude.{◌≡◌, ◌≤◌, ◌<◌, ◌-◌, ◌^◌, ◌++◌, ℕ, List, true, All, map, MatchResult, IfOk};
ghost use Rattle.calculus.specs.Form.{IsClosed};
ghost use Rattle.calculus.specs.Shape.{only};
ghost use Rattle.rho_term.specs.Normal.{IsNormal, IsOrdered};
ghost use Rattle.rho_term.specs.Parts.{part_tree};
ghost use Rattle.rho_term.specs.Rows.{row_of_op};
ghost use Rattle.unfold.specs.Inner.{is_silent};
ghost use Rattle.unfold.specs.Progress.{pending, pending_of, IsReady, StopsWith, Ends, in_turn, progress};
ghost use Rattle.unfold.specs.Results.{pending_part, TakesTurn};

use crate::inner::{inner_process, is_silent, value_inside};
use crate::offers::{receive_offer, send_offer};
use name_seed::Seed;
use offered_rows::Receive;
use price_table::{Budget, EvalStop, Priced, Prices};
use rho_term::{Op, Part, Term};
use std::alloc::{AllocError, Global};

/// A part that is still to be unfolded, the seed of the process that it is of, and its number there. Its own seed is
/// made from these where it needs one.
#[derive(Drop)]
pub(crate) struct Todo {
    pub part: Part,
    pub under: Seed,
    pub number: u32,
}

/// The price so far, what was offered, and the parts that are left, of which the last one is next.
#[derive(Drop)]
pub(crate) struct Work {
    pub price: u64,
    pub offers: Vec<Op>,
    pub left: Vec<Todo>,
}

/// The parts of a process come next, each with its number under this seed.
pub(crate) fn push_parts(left: &mut Vec<Todo>, term: Term, seed: &Seed) -> Result<(), AllocError>
    requires closed { IsClosed term }
    requires ready { All IsReady (in_turn left.old.items) }
    ensures next { IfOk result (λ _. in_turn left.new.items ≡ pending term seed.now ++ in_turn left.old.items) }
    ensures ready { IfOk result (λ _. All IsReady (in_turn left.new.items)) }
    ensures normal { IsNormal term }
{
    let mut parts = term.into_parts();
    while let Some(part) = parts.pop() {
        let number = (parts.len() % 4_294_967_296) as u32;
        left.push(Todo {
            part,
            under: *seed,
            number,
        })?;
    }
    Ok(())
}

/// A part that is neither offered nor unfolded, whatever its seed: a collection is evaluated.
fn silent_turn(
    alloc: Global,
    work: &mut Work,
    part: &Part,
    prices: &Prices,
    cap: u64,
) -> Result<(), EvalStop>
    requires cap { cap < 2 ^ 64 - 1 }
    requires price { work.old.price ≤ cap }
    requires ready { All IsReady (in_turn work.old.left.items) }
    requires closed { IsClosed (only (part_tree part.now)) }
    requires ordered { IsOrdered (part_tree part.now) }
    requires silent { is_silent (part_tree part.now) ≡ true }
    ensures { (s : List ℕ) → TakesTurn result prices.now cap (pending_part (part_tree part.now) s) work.old work.new }
{
    let price = work.price;
    let budget = Budget { prices, cap, price };
    let done = value_inside(alloc, part, budget)?;
    work.price = done.price;
    Ok(())
}

/// A part with this seed: a send or a receive is offered, and what another part holds comes next.
fn seeded_turn(
    alloc: Global,
    work: &mut Work,
    part: Part,
    seed: &Seed,
    prices: &Prices,
    cap: u64,
) -> Result<(), EvalStop>
    requires cap { cap < 2 ^ 64 - 1 }
    requires price { work.old.price ≤ cap }
    requires ready { All IsReady (in_turn work.old.left.items) }
    requires closed { IsClosed (only (part_tree part)) }
    requires ordered { IsOrdered (part_tree part) }
    ensures { TakesTurn result prices.now cap (pending_part (part_tree part) seed.now) work.old work.new }
{
    let price = work.price;
    let budget = Budget { prices, cap, price };
    match &part {
        Part::Send {
            channel,
            args,
            persistent,
        } => {
            let done = send_offer(alloc, channel, args, *persistent, seed, budget)?;
            work.offers.push(done.value)?;
            work.price = done.price;
            Ok(())
        }
        Part::Receive { kind, binds, body } => {
            let receive = Receive {
                kind: *kind,
                binds,
                body,
            };
            let done = receive_offer(alloc, receive, seed, budget)?;
            work.offers.push(done.value)?;
            work.price = done.price;
            Ok(())
        }
        _ => {
            let bytes = part.code_len();
            let done = inner_process(alloc, part, bytes, seed, budget)?;
            let inner = seed.body();
            push_parts(&mut work.left, done.value, &inner)?;
            work.price = done.price;
            Ok(())
        }
    }
}

/// A part that is next. Its own seed is made only where it is of use.
fn turn(
    alloc: Global,
    work: &mut Work,
    todo: Todo,
    prices: &Prices,
    cap: u64,
) -> Result<(), EvalStop>
    requires cap { cap < 2 ^ 64 - 1 }
    requires price { work.old.price ≤ cap }
    requires ready { All IsReady (in_turn work.old.left.items) }
    requires todo { IsReady (pending_of todo) }
    ensures { TakesTurn result prices.now cap (pending_of todo) work.old work.new }
{
    let Todo {
        part,
        under,
        number,
    } = todo;
    if is_silent(&part) {
        silent_turn(alloc, work, &part, prices, cap)
    } else {
        let seed = under.split(number);
        seeded_turn(alloc, work, part, &seed, prices, cap)
    }
}

/// All that is left, part after part.
pub(crate) fn finish(
    alloc: Global,
    mut work: Work,
    prices: &Prices,
    cap: u64,
) -> Result<Priced<Vec<Op>>, EvalStop>
    requires cap { cap < 2 ^ 64 - 1 }
    requires price { work.price ≤ cap }
    requires ready { All IsReady (in_turn work.left.items) }
    ensures { MatchResult result (λ r. Ends prices.now cap (progress work) r.price (map row_of_op r.value.items))
        (λ e. StopsWith prices.now cap (progress work) e) }
{
    for _turn in 0..u64::MAX {
        match work.left.pop() {
            None => {
                return Ok(Priced {
                    value: work.offers,
                    price: work.price,
                });
            }
            Some(todo) => turn(alloc, &mut work, todo, prices, cap)?,
        }
    }
    Err(EvalStop::NoMemory)
}
