ghost use Rattle.std.specs.Prelude.{◌≡◌, ℕ, List, IfOk, IfErr, IfSome};
ghost use Rattle.calculus.specs.Written.{Written};
ghost use Rattle.calculus.specs.Meaning.{proc_written};
ghost use Rattle.calculus.specs.Bare.{bare};
ghost use Rattle.calculus.specs.Form.{IsClosed};
ghost use Rattle.scope.specs.NormalForm.{normal_form};
ghost use Rattle.input_faults.specs.Refusals.{refusal_of};
ghost use Rattle.sources.specs.Sources.{IsSpelt, IsSourceOf, IsRefused};

use calculus::Proc;
use grammar::Dialect;
use input_faults::SourceFault;
use normalizer::normalize;
use rho_lexer::lex;
use rho_parser::parse;
use rho_term::Term;
use std::alloc::Global;

/// The process that a text spells, or why it spells none within the height.
fn read_process(alloc: Global, text: &[u8]) -> Result<Proc, SourceFault>
    ensures spelt { IfOk result (λ p. IsSpelt text.now (proc_written p)) }
    ensures refused { IfErr result (λ e. IfSome (refusal_of e) (IsRefused text.now)) }
{
    let tokens = match lex(alloc, text) {
        Ok(tokens) => tokens,
        Err(fault) => return Err(SourceFault::Lex(fault)),
    };
    match parse(alloc, tokens.as_slice(), Dialect::Tutorial) {
        Ok(process) => Ok(process),
        Err(fault) => Err(SourceFault::Parse(fault)),
    }
}

/// The normal term of a process that a text spells.
fn read_term(alloc: Global, process: &Proc) -> Result<Term, SourceFault>
    ensures term { (text : List ℕ) → IsSpelt text (proc_written process.now) → IfOk result (IsSourceOf text) }
    ensures refused { (text : List ℕ) → IsSpelt text (proc_written process.now) →
        IfErr result (λ e. IfSome (refusal_of e) (IsRefused text)) }
{
    match normalize(alloc, process) {
        Ok(term) => Ok(term),
        Err(fault) => Err(SourceFault::Scope(fault)),
    }
}

/// The normal term of the process that a source spells, or why it is refused: it has no tokens, they spell
/// nothing of a height of at most 200, or the process breaks a rule of scope. A source is refused for one
/// reason at most, and not where it is accepted. Want of memory is the one other error.
///
/// A term that is given is closed.
pub fn read_source(alloc: Global, text: &[u8]) -> Result<Term, SourceFault>
    ensures term { IfOk result (IsSourceOf text.now) }
    ensures closed { IfOk result IsClosed }
    ensures refused { IfErr result (λ e. IfSome (refusal_of e) (IsRefused text.now)) }
{
    match read_process(alloc, text) {
        Ok(process) => read_term(alloc, &process),
        Err(fault) => Err(fault),
    }
}
