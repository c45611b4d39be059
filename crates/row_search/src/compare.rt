// Which rows stand on a channel.
ghost use Rattle.std.specs.Prelude.{◌≡◌, map};
ghost use Rattle.calculus.specs.Congruence.{congruent};
ghost use Rattle.calculus.specs.Form.{term};
ghost use Rattle.match_targets.specs.Targets.{Ready};
ghost use Rattle.row_search.specs.Choices.{AllBindsReady};
ghost use Rattle.row_search.specs.Rows.{is_heard_on, is_one_channel, is_sent_on};

use rho_term::{Op, Term, TermBind};
use space_row::Row;
use term_order::cmp_terms;

// Whether two channels are congruent.
pub(crate) fn same_channel(a: &Term, b: &Term) -> bool
    requires a { Ready term a.now }
    requires b { Ready term b.now }
    ensures { result ≡ congruent a.now b.now }
{
    cmp_terms(a, b).is_eq()
}

// Whether a row is a send on this channel.
pub(crate) fn is_sent_on(channel: &Term, row: &Row) -> bool
    requires { Ready term channel.now }
    ensures { result ≡ is_sent_on channel.now row.now }
{
    match row.op() {
        Op::Produce { channel: other, .. } => same_channel(channel, other),
        Op::Consume { .. } => false,
    }
}

// Whether a row is a receive with a bind on this channel.
pub(crate) fn is_heard_on(channel: &Term, row: &Row) -> bool
    requires { Ready term channel.now }
    ensures { result ≡ is_heard_on channel.now row.now }
{
    match row.op() {
        Op::Produce { .. } => false,
        Op::Consume { binds, .. } => is_bound_on(channel, binds),
    }
}

// Whether one of these binds is on this channel.
fn is_bound_on(channel: &Term, binds: &[TermBind]) -> bool
    requires channel { Ready term channel.now }
    requires binds { AllBindsReady binds.now }
    ensures { result ≡ is_one_channel channel.now (map (λ b. b.channel) binds.now) }
{
    for bind in binds {
        if same_channel(channel, &bind.channel) {
            return true;
        }
    }
    false
}
