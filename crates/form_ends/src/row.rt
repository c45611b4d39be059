//! Forms that end in a row of members or arguments.
ghost use Rattle.form_steps.specs.Parts.{after_channel, after_channel_pattern};
ghost use Rattle.grammar.specs.Grammar.{rule};
ghost use Rattle.grammar.specs.Rules.{Sort, round};
ghost use Rattle.grammar.specs.Terminals.{Terminal};
ghost use Rattle.grammar.specs.Values.{patterns, processes};
ghost use Rattle.token_cursor.specs.Reading.{Gives, Makes, of_pat, of_pat_row, of_proc, of_row};
ghost use Rattle.std.specs.Prelude.{◌+◌, ◌-◌, ◌<◌, ◌≤◌, ◌^◌, ℕ, IfOk, List};

use calculus::{Name, NamePat, Pat, Proc};
use form_parts::part::Part;
use form_parts::parts;
use form_steps::step::Sending;
use grammar::Fault;
use syntax_forms::{pattern_forms, process_forms};

/// The send on this channel of the arguments that were read after it.
pub fn sent(
    sending: Sending<Name>,
    args: Result<Part<Vec<Proc>>, Fault>,
) -> Result<Part<Proc>, Fault>
    requires channel { sending.channel.height + 1 < 2 ^ 32 }
    requires args { IfOk args (λ p. p.height + 1 < 2 ^ 32) }
    ensures reads { (free : ℕ) (ts us : List Terminal) → Gives (free - 1) (Sort.Row processes round) of_row ts args us →
        Makes free (after_channel sending) of_proc ts result us }
    ensures room { (n : ℕ) → sending.channel.height < n → IfOk args (λ p. p.height < n) → IfOk result (λ p. p.height ≤ n) }
{
    match args {
        Ok(args) => Ok(process_forms::send(sending.channel, args, sending.persistent)),
        Err(fault) => parts::give_up(sending, fault),
    }
}

/// The pattern of a send on this channel of the arguments that were read after it.
pub fn sent_pattern(
    sending: Sending<NamePat>,
    args: Result<Part<Vec<Pat>>, Fault>,
) -> Result<Part<Pat>, Fault>
    requires channel { sending.channel.height + 1 < 2 ^ 32 }
    requires args { IfOk args (λ p. p.height + 1 < 2 ^ 32) }
    ensures reads { (free : ℕ) (ts us : List Terminal) → Gives (free - 1) (Sort.Row patterns round) of_pat_row ts args us →
        Makes free (after_channel_pattern sending) of_pat ts result us }
    ensures room { (n : ℕ) → sending.channel.height < n → IfOk args (λ p. p.height < n) → IfOk result (λ p. p.height ≤ n) }
{
    match args {
        Ok(args) => Ok(pattern_forms::send_pat(sending.channel, args, sending.persistent)),
        Err(fault) => parts::give_up(sending, fault),
    }
}
