// What a send and a receive offer: their constituents are evaluated first.
ghost use Rattle.std.specs.Prelude.{All, map};
ghost use Rattle.calculus.specs.Tree.{send as sends, row};
ghost use Rattle.calculus.specs.Shape.{two, many, only};
ghost use Rattle.calculus.specs.Form.{IsClosed};
ghost use Rattle.calculus.specs.Outcome.{in_order};
ghost use Rattle.calculus.specs.Values.{value};
ghost use Rattle.price_table.specs.Results.{ComesToAll};
ghost use Rattle.offered_rows.specs.Offers.{ComesToRow, receive_tree};
ghost use Rattle.rho_term.specs.Parts.{bind_tree};
ghost use Rattle.unfold.specs.Offers.{send_work, receive_work};

use name_seed::Seed;
use offered_rows::{Receive, offer_receive, offer_send};
use price_table::{Budget, EvalStop, Priced};
use rho_eval::{eval_term, eval_terms};
use rho_term::{Op, Term, TermBind};
use std::alloc::Global;

/// A send with this seed, within this budget.
pub(crate) fn send_offer(
    alloc: Global,
    channel: &Term,
    args: &Vec<Term>,
    persistent: bool,
    seed: &Seed,
    budget: Budget,
) -> Result<Priced<Op>, EvalStop>
    requires { IsClosed (only (two (sends persistent) channel.now (many row args.now.items))) }
    ensures { ComesToRow result budget.entry (send_work budget.entry.prices.now seed.now persistent channel.now args.now.items) }
{
    let Budget { prices, cap, price } = budget;
    let channel = eval_term(alloc, channel, prices, cap, price)?;
    let args = eval_terms(alloc, args, prices, cap, channel.price)?;
    let id = seed.digest();
    let price = args.price;
    let budget = Budget { prices, cap, price };
    offer_send(alloc, id, persistent, channel.value, args.value, budget)
}

/// A receive with this seed, within this budget.
pub(crate) fn receive_offer(
    alloc: Global,
    receive: Receive,
    seed: &Seed,
    budget: Budget,
) -> Result<Priced<Op>, EvalStop>
    requires { IsClosed (only (receive_tree receive)) }
    ensures { ComesToRow result budget.entry (receive_work budget.entry.prices.now seed.now receive.entry.kind
        (map bind_tree receive.entry.binds.now.items) receive.entry.body.now) }
{
    let Budget { prices, cap, .. } = budget;
    let channels = channel_values(alloc, receive.binds, budget)?;
    let id = seed.digest();
    let price = channels.price;
    let budget = Budget { prices, cap, price };
    offer_receive(alloc, id, channels.value, receive, budget)
}

/// The values of the channels of these binds in turn, within this budget.
fn channel_values(
    alloc: Global,
    binds: &Vec<TermBind>,
    budget: Budget,
) -> Result<Priced<Vec<Term>>, EvalStop>
    requires { All (λ b. IsClosed b.channel) binds.now.items }
    ensures { ComesToAll result budget.entry (in_order (map (λ b. value budget.entry.prices.now b.channel) binds.now.items)) }
{
    let mut total = budget.price;
    let mut values = Vec::new(alloc);
    for bind in binds {
        let done = eval_term(alloc, &bind.channel, budget.prices, budget.cap, total)?;
        total = done.price;
        values.push(done.value)?;
    }
    Ok(Priced {
        value: values,
        price: total,
    })
}
