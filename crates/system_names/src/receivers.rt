ghost use Rattle.std.specs.Prelude.{◌≡◌, false, [], ◌∷◌, map, IfOk};
ghost use Rattle.calculus.specs.Rows.{built_in, stdout, stdout_ack};
ghost use Rattle.calculus.specs.Seeds.{digest_of, System};
ghost use Rattle.calculus.specs.Shape.{leaf, many, only, three, two};
ghost use Rattle.calculus.specs.Tree.{bind, name_var, par, pattern, rest, row, send};
ghost use Rattle.rho_term.specs.Normal.{IsOrdered};
ghost use Rattle.rho_term.specs.Parts.{pat_part_tree};
ghost use Rattle.rho_term.specs.Rows.{row_of_op};

use crate::names::{STDOUT, STDOUT_ACK, bare_name};
use calculus::{Kind, TermRest};
use name_seed::Seed;
use rho_term::{Op, Part, PatPart, Term, TermBind, TermPat};
use std::alloc::{AllocError, Global};

/// The receivers behind the fixed names, as what they offer: the one behind `rho:io:stdout`, which takes
/// any one value, and then the one behind `rho:io:stdoutAck`, which takes a value and a name and sends
/// `Nil` on that name. Want of memory is the one error.
pub fn built_ins(alloc: Global) -> Result<Vec<Op>, AllocError>
    ensures { IfOk result (λ receivers. map row_of_op receivers.items ≡ stdout ∷ stdout_ack ∷ []) }
{
    let mut receivers = Vec::new(alloc);
    receivers.push(stdout_receiver(alloc)?)?;
    receivers.push(ack_receiver(alloc)?)?;
    Ok(receivers)
}

// The numbers of the receivers' ids.
const STDOUT_ID: u32 = 2;

const ACK_ID: u32 = 3;

// The receiver behind `rho:io:stdout`.
fn stdout_receiver(alloc: Global) -> Result<Op, AllocError>
    ensures { IfOk result (λ receiver. row_of_op receiver ≡ stdout) }
{
    let channel = bare_name(alloc, STDOUT)?;
    let mut pats = Vec::new(alloc);
    pats.push(one_part(alloc, PatPart::Var)?)?;
    receiver(alloc, STDOUT_ID, channel, pats, Term::nil(alloc))
}

// The receiver behind `rho:io:stdoutAck`.
fn ack_receiver(alloc: Global) -> Result<Op, AllocError>
    ensures { IfOk result (λ receiver. row_of_op receiver ≡ stdout_ack) }
{
    let channel = bare_name(alloc, STDOUT_ACK)?;
    let mut pats = Vec::new(alloc);
    pats.push(one_part(alloc, PatPart::Var)?)?;
    pats.push(one_part(alloc, PatPart::NameVar)?)?;
    let body = nil_sent(alloc)?;
    receiver(alloc, ACK_ID, channel, pats, body)
}

// The persistent receiver whose id has this number, of one bind.
fn receiver(
    alloc: Global,
    number: u32,
    channel: Term,
    pats: Vec<TermPat>,
    body: Term,
) -> Result<Op, AllocError>
    ensures { IfOk result (λ receiver. row_of_op receiver ≡
        built_in (digest_of (System number)) (three bind channel (many row pats.items) (leaf (rest TermRest.No)))
        body) }
{
    let mut binds = Vec::new(alloc);
    binds.push(TermBind {
        pats,
        rest: TermRest::No,
        channel,
    })?;
    Ok(Op::Consume {
        id: Seed::system(number).digest(),
        kind: Kind::Persistent,
        binds,
        body,
    })
}

// The pattern of this one part.
fn one_part(alloc: Global, part: PatPart) -> Result<TermPat, AllocError>
    requires { IsOrdered (pat_part_tree part) }
    ensures { IfOk result (λ pat. pat ≡ many pattern (pat_part_tree part ∷ [])) }
{
    let mut parts = Vec::new(alloc);
    parts.push(part)?;
    Ok(TermPat::new(parts))
}

// `Nil` sent on the name that is bound last.
fn nil_sent(alloc: Global) -> Result<Term, AllocError>
    ensures { IfOk result (λ body. body ≡ only (two (send false) (only (leaf (name_var 0))) (many row (leaf par ∷ [])))) }
{
    let channel = Term::from_part(alloc, Part::NameVar(0))?;
    let mut args = Vec::new(alloc);
    args.push(Term::nil(alloc))?;
    Term::from_part(
        alloc,
        Part::Send {
            channel,
            args,
            persistent: false,
        },
    )
}
