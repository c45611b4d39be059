//! Whole texts: a process, and the end.
ghost use Rattle.std.specs.Prelude.{◌≡◌, ◌≤◌, ◌-◌, ℕ, IfOk, IfErr, MatchResult, length};
ghost use Rattle.calculus.specs.Meaning.{proc_written};
ghost use Rattle.calculus.specs.Written.{Written};
ghost use Rattle.grammar.specs.Spells.{Spells};
ghost use Rattle.grammar.specs.declared.dialect.Dialect.TheVariants.{Tutorial};
ghost use Rattle.token_cursor.specs.Meaning.{most_height, plain_tokens};
ghost use Rattle.rho_parser.specs.Parsed.{AreOfText, IsRefused, place_of};
ghost use Rattle.tokens.specs.Token.{source};

use calculus::Proc;
use grammar::{Dialect, Fault};
use input_faults::ParseFault;
use process_descent::Parser;
use rho_lexer::Token;
use std::alloc::Global;
use token_cursor::Cursor;
use token_cursor::cursor::most_height;

/// The place of the first byte of the token that so many tokens follow, itself among them.
fn place(tokens: &[Token], left: usize) -> usize
    requires { left ≤ length tokens.now }
    ensures { result ≡ place_of tokens.now (length tokens.now - left) }
{
    match tokens.get(tokens.len() - left) {
        Some(token) => token.start,
        None => 0,
    }
}

/// The fault, with a value let go.
fn refuse<T: Drop, U>(_value: T, fault: ParseFault) -> Result<U, ParseFault>
    ensures { result ≡ Err fault }
{
    Err(fault)
}

/// The process that the tokens of a text spell, of a height of at most 200; or where it shows that they
/// spell none. Want of memory is the one other error.
pub fn parse(alloc: Global, tokens: &[Token], dialect: Dialect) -> Result<Proc, ParseFault>
    requires { AreOfText tokens.now }
    // What is read is spelt.
    ensures found { IfOk result (λ p. (h : ℕ) × (h ≤ most_height) × Spells source Tutorial (plain_tokens tokens.now) (proc_written p) h) }
    // What is spelt is read, unless memory runs out.
    ensures only { (p : Written) (h : ℕ) → h ≤ most_height → Spells source Tutorial (plain_tokens tokens.now) p h
        → MatchResult result (λ q. proc_written q ≡ p) (λ e. e ≡ ParseFault.NoMemory) }
    // Why nothing is read.
    ensures refused { IfErr result (IsRefused tokens.now) }
{
    let Dialect::Tutorial = dialect;
    let mut parser = Parser {
        cursor: Cursor {
            alloc,
            rest: tokens,
        },
    };
    match parser.par(most_height()) {
        Ok(part) => {
            if parser.cursor.ended() {
                Ok(part.value)
            } else {
                let at = place(tokens, parser.cursor.rest.len());
                refuse(part, ParseFault::Syntax { at })
            }
        }
        Err(Fault::Syntax) => {
            let at = place(tokens, parser.cursor.rest.len());
            Err(ParseFault::Syntax { at })
        }
        Err(Fault::TooDeep) => {
            let at = place(tokens, parser.cursor.rest.len());
            Err(ParseFault::TooDeep { at })
        }
        Err(Fault::NoMemory) => Err(ParseFault::NoMemory),
    }
}
