//! The tokens that are left, and the steps that take one of them.
ghost use Rattle.grammar.specs.Choice.{after, choose, sees_any_send, sees_bang, sees_bundle, sees_name_pattern, sees_number, sees_prefix, sees_send, sees_text};
ghost use Rattle.grammar.specs.Descent.{shows};
ghost use Rattle.grammar.specs.Grammar.{bang, begins_operand, bundle_mark, is_no_minus, type_mark};
ghost use Rattle.grammar.specs.Productions.{Prod};
ghost use Rattle.grammar.specs.declared.mark.Mark.TheVariants as marks;
ghost use Rattle.grammar.specs.Rules.{Sort, closing, separator_mark};
ghost use Rattle.grammar.specs.Values.{Side, Spelt};
ghost use Rattle.grammar.specs.Terminals.{a_string, a_uri, a_word, sees};
ghost use Rattle.token_cursor.specs.Cursors.{OpensBefore, ReadsInteger, ReadsMark, ReadsMarkAfter, ReadsOpening, ReadsText, Shortens, StaysBefore};
ghost use Rattle.token_cursor.specs.Meaning.{most_height, sees_key_operand, sees_sign_operand, sees_text_operand, view};
ghost use Rattle.token_cursor.specs.Reading.{bracket_of, sees_bind, sees_member, separator_of};
ghost use Rattle.std.specs.Prelude.{◌≡◌, ◌<◌, ◌≤◌, IfOk, length, true};

use crate::mark::is_mark;
use calculus::{Kind, Rights, Simple};
use form_parts::part::{Bracket, Separator};
use form_parts::parts;
use grammar::{Fault, Mark};
use rho_lexer::{Token, TokenKind};
use std::alloc::Global;

/// The tokens that are left of a source. After a fault `rest` begins where the fault shows, unless memory ran out.
#[derive(Drop)]
pub struct Cursor<'a> {
    pub alloc: Global,
    pub rest: &'a [Token],
}

/// The greatest height of a source.
pub fn most_height() -> u32
    ensures { result ≡ most_height }
{
    200
}

/// Do the tokens begin with this mark?
fn begins(rest: &[Token], mark: Mark) -> bool
    ensures { result ≡ sees mark (view rest.now) }
{
    match rest.split_first() {
        Some((token, _)) => is_mark(&token.kind, mark),
        None => false,
    }
}

/// Do the tokens begin with an integer?
fn begins_number(rest: &[Token]) -> bool
    ensures { result ≡ sees_number (view rest.now) }
{
    match rest.split_first() {
        Some((token, _)) => matches!(token.kind, TokenKind::Int(_)),
        None => false,
    }
}

/// The sign that closes a bracket.
pub fn closing_mark(bracket: Bracket) -> Mark
    ensures { result ≡ closing (bracket_of bracket) }
{
    match bracket {
        Bracket::Round => Mark::Close,
        Bracket::Square => Mark::CloseSquare,
    }
}

/// The key of a simple type.
pub fn type_mark(simple: Simple) -> Mark
    ensures { result ≡ type_mark simple }
{
    match simple {
        Simple::Bool => Mark::Bool,
        Simple::Int => Mark::Int,
        Simple::Str => Mark::String,
        Simple::Uri => Mark::Uri,
        Simple::Bytes => Mark::ByteArray,
    }
}

/// The mark of a send.
fn bang_mark(persistent: bool) -> Mark
    ensures { result ≡ bang persistent }
{
    if persistent {
        Mark::DoubleBang
    } else {
        Mark::Bang
    }
}

/// The key of a bundle of these rights.
fn bundle_mark(rights: Rights) -> Mark
    ensures { result ≡ bundle_mark rights }
{
    match rights {
        Rights::Neither => Mark::BundleNeither,
        Rights::Write => Mark::BundleWrite,
        Rights::Read => Mark::BundleRead,
        Rights::Both => Mark::Bundle,
    }
}

/// What was made, and this mark after it, which is taken; where the mark is missing, what was made is let go.
pub fn closed<T: Drop>(cursor: &mut Cursor<'_>, made: T, mark: Mark) -> Result<T, Fault>
    ensures reads { ReadsMarkAfter cursor.old made mark result cursor.new }
    ensures shorter { length cursor.new.rest.now ≤ length cursor.old.rest.now }
{
    match cursor.expect(mark) {
        Ok(()) => Ok(made),
        Err(fault) => parts::give_up(made, fault),
    }
}

impl<'a> Cursor<'a> {
    /// Is the next token this mark?
    pub fn sees(&self, mark: Mark) -> bool
        ensures { result ≡ sees mark (view self.now.rest.now) }
    {
        begins(self.rest, mark)
    }

    /// Is the end of the source next?
    pub fn ended(&self) -> bool
        ensures { result ≡ sees marks.End (view self.now.rest.now) }
    {
        self.sees(Mark::End)
    }

    /// Is this mark after the next token?
    pub fn sees_after(&self, mark: Mark) -> bool
        ensures { result ≡ sees mark (after (view self.now.rest.now)) }
    {
        match self.rest.split_first() {
            Some((_, after)) => begins(after, mark),
            None => false,
        }
    }

    /// Is the mark of a send after the next token?
    fn sees_bang_after(&self) -> bool
        ensures { result ≡ sees_bang (after (view self.now.rest.now)) }
    {
        self.sees_after(Mark::Bang) || self.sees_after(Mark::DoubleBang)
    }

    /// Are a word and the mark of a send next?
    pub fn sees_send(&self) -> bool
        ensures { result ≡ sees_send (view self.now.rest.now) }
    {
        self.sees_word() && self.sees_bang_after()
    }

    /// Are `_` and the mark of a send next?
    pub fn sees_any_send(&self) -> bool
        ensures { result ≡ sees_any_send (view self.now.rest.now) }
    {
        self.sees(Mark::Underscore) && self.sees_bang_after()
    }

    /// Is a `-` next that is no part of an integer?
    pub fn sees_prefix(&self) -> bool
        ensures { result ≡ sees_prefix (view self.now.rest.now) }
    {
        match self.rest.split_first() {
            Some((_, after)) => self.sees(Mark::Minus) && !begins_number(after),
            None => false,
        }
    }

    /// Is the key of a bundle next?
    pub fn sees_bundle(&self) -> bool
        ensures { result ≡ sees_bundle (view self.now.rest.now) }
    {
        self.sees(Mark::BundleNeither)
            || self.sees(Mark::BundleWrite)
            || self.sees(Mark::BundleRead)
            || self.sees(Mark::Bundle)
    }

    /// Does the next token begin a pattern of a name?
    pub fn sees_name_pattern(&self) -> bool
        ensures { result ≡ sees_name_pattern (view self.now.rest.now) }
    {
        self.sees_word() || self.sees(Mark::Underscore) || self.sees(Mark::At)
    }

    /// Is the next token a word?
    pub fn sees_word(&self) -> bool
        ensures { result ≡ sees_text a_word (view self.now.rest.now) }
    {
        match self.rest.split_first() {
            Some((token, _)) => matches!(token.kind, TokenKind::Word(_)),
            None => false,
        }
    }

    /// Is the next token a string?
    pub fn sees_string(&self) -> bool
        ensures { result ≡ sees_text a_string (view self.now.rest.now) }
    {
        match self.rest.split_first() {
            Some((token, _)) => matches!(token.kind, TokenKind::Str(_)),
            None => false,
        }
    }

    /// Is the next token a URI?
    pub fn sees_uri(&self) -> bool
        ensures { result ≡ sees_text a_uri (view self.now.rest.now) }
    {
        match self.rest.split_first() {
            Some((token, _)) => matches!(token.kind, TokenKind::Uri(_)),
            None => false,
        }
    }

    /// Takes this mark.
    pub fn expect(&mut self, mark: Mark) -> Result<(), Fault>
        ensures reads { ReadsMark self.old mark result self.new }
        ensures shorter { Shortens self.old result self.new }
    {
        match self.rest.split_first() {
            Some((token, rest)) if is_mark(&token.kind, mark) => {
                self.rest = rest;
                Ok(())
            }
            _ => Err(Fault::Syntax),
        }
    }

    /// Takes the mark that opens a form, to whose left a part of this height stands.
    pub fn opens(&mut self, mark: Mark, height: u32, free: u32) -> Result<(), Fault>
        ensures reads { ReadsOpening self.old mark height free result self.new }
        ensures shorter { Shortens self.old result self.new }
        ensures room { IfOk result (λ _. height < free) }
    {
        if self.sees(mark) && free <= height {
            return Err(Fault::TooDeep);
        }
        self.expect(mark)?;
        Ok(())
    }

    /// Is a text next that begins an operand?
    fn sees_text_operand(&self) -> bool
        ensures { result ≡ sees_text_operand (view self.now.rest.now) }
    {
        self.sees_word() || self.sees_string() || self.sees_uri()
    }

    /// Is a key next that begins an operand?
    fn sees_key_operand(&self) -> bool
        ensures { result ≡ sees_key_operand (view self.now.rest.now) }
    {
        let truth = self.sees(Mark::True) || self.sees(Mark::False);
        truth || self.sees(Mark::Nil) || self.sees(Mark::Not) || self.sees(Mark::Set)
    }

    /// Is a sign next that begins an operand?
    fn sees_sign_operand(&self) -> bool
        ensures { result ≡ sees_sign_operand (view self.now.rest.now) }
    {
        let prefix = self.sees(Mark::Minus) || self.sees(Mark::Star);
        prefix || self.sees(Mark::Open) || self.sees(Mark::OpenBrace) || self.sees(Mark::OpenSquare)
    }

    /// Does the next token begin an operand of a prefix `-`?
    #[tactic(auto, using(crate::proofs::Fronts::operand))]
    fn sees_operand(&self) -> bool
        ensures { result ≡ shows begins_operand (view self.now.rest.now) }
    {
        self.sees_text_operand() || self.sees_key_operand() || self.sees_sign_operand()
    }

    /// Opens the form of a prefix `-` at the token after it, which stays.
    pub fn opens_operand(&mut self, free: u32) -> Result<(), Fault>
        ensures reads { OpensBefore self.old begins_operand free result self.new }
        ensures shorter { length self.new.rest.now ≤ length self.old.rest.now }
    {
        if !self.sees_operand() {
            return Err(Fault::Syntax);
        }
        if free == 0 {
            return Err(Fault::TooDeep);
        }
        Ok(())
    }

    /// The next token is there, and is no `-`.
    pub fn refuse_minus(&mut self) -> Result<(), Fault>
        ensures reads { StaysBefore self.old is_no_minus result self.new }
        ensures shorter { length self.new.rest.now ≤ length self.old.rest.now }
    {
        if self.rest.is_empty() || self.sees(Mark::Minus) {
            return Err(Fault::Syntax);
        }
        Ok(())
    }

    /// Takes an integer of at most this value.
    pub fn integer(&mut self, most: u64) -> Result<u64, Fault>
        ensures reads { ReadsInteger self.old most result self.new }
        ensures shorter { Shortens self.old result self.new }
        ensures fits { IfOk result (λ n. n ≤ most) }
    {
        if let Some((token, rest)) = self.rest.split_first() {
            if let TokenKind::Int(found) = &token.kind {
                let value = *found;
                if value <= most {
                    self.rest = rest;
                    return Ok(value);
                }
            }
        }
        Err(Fault::Syntax)
    }

    /// Takes a word.
    pub fn word(&mut self) -> Result<String, Fault>
        ensures reads { ReadsText self.old a_word result self.new }
        ensures shorter { Shortens self.old result self.new }
    {
        let Some((token, rest)) = self.rest.split_first() else {
            return Err(Fault::Syntax);
        };
        let TokenKind::Word(found) = &token.kind else {
            return Err(Fault::Syntax);
        };
        let text = found.clone()?;
        self.rest = rest;
        Ok(text)
    }

    /// Takes a string.
    pub fn string(&mut self) -> Result<String, Fault>
        ensures reads { ReadsText self.old a_string result self.new }
        ensures shorter { Shortens self.old result self.new }
    {
        let Some((token, rest)) = self.rest.split_first() else {
            return Err(Fault::Syntax);
        };
        let TokenKind::Str(found) = &token.kind else {
            return Err(Fault::Syntax);
        };
        let text = found.clone()?;
        self.rest = rest;
        Ok(text)
    }

    /// Takes a URI.
    pub fn uri(&mut self) -> Result<String, Fault>
        ensures reads { ReadsText self.old a_uri result self.new }
        ensures shorter { Shortens self.old result self.new }
    {
        let Some((token, rest)) = self.rest.split_first() else {
            return Err(Fault::Syntax);
        };
        let TokenKind::Uri(found) = &token.kind else {
            return Err(Fault::Syntax);
        };
        let text = found.clone()?;
        self.rest = rest;
        Ok(text)
    }

    /// Is a comma next that no remainder follows?
    pub fn sees_member(&self) -> bool
        ensures { result ≡ sees_member (view self.now.rest.now) }
    {
        self.sees(Mark::Comma) && !self.sees_after(Mark::Ellipsis)
    }

    /// Does a bind follow, where so many more may stand?
    pub fn sees_bind(&self, separator: Separator, left: u32) -> bool
        ensures is { result ≡ sees_bind (separator_of separator) left (view self.now.rest.now) }
        ensures some { (result ≡ true) → 0 < left }
    {
        left > 0 && self.sees_separator(separator)
    }

    /// Is the sign that closes this bracket next?
    pub fn sees_closing(&self, bracket: Bracket) -> bool
        ensures { result ≡ sees (closing (bracket_of bracket)) (view self.now.rest.now) }
    {
        self.sees(closing_mark(bracket))
    }

    /// Is this separator of binds next?
    pub fn sees_separator(&self, separator: Separator) -> bool
        ensures { result ≡ sees (separator_mark (separator_of separator)) (view self.now.rest.now) }
    {
        match separator {
            Separator::Semicolon => self.sees(Mark::Semicolon),
            Separator::Ampersand => self.sees(Mark::Ampersand),
        }
    }

    /// The kind of receive that the next arrow says; where none is next, the linear one.
    pub fn arrow(&self) -> Kind
        ensures { (l : Spelt) → choose (Sort.Arrow l) (view self.now.rest.now) ≡ Prod.arrow l result }
    {
        if self.sees(Mark::LessEqual) {
            return Kind::Persistent;
        }
        if self.sees(Mark::PeekArrow) {
            return Kind::Peek;
        }
        Kind::Linear
    }

    /// The rights of a bundle that the next key says; where none is next, both.
    pub fn rights(&self) -> Rights
        ensures { (side : Side) → choose (Sort.Bundle side) (view self.now.rest.now) ≡ Prod.bundle side result }
    {
        if self.sees(Mark::BundleNeither) {
            return Rights::Neither;
        }
        if self.sees(Mark::BundleWrite) {
            return Rights::Write;
        }
        if self.sees(Mark::BundleRead) {
            return Rights::Read;
        }
        Rights::Both
    }

    /// Takes the mark of a send.
    pub fn expect_bang(&mut self, persistent: bool) -> Result<(), Fault>
        ensures reads { ReadsMark self.old (bang persistent) result self.new }
        ensures shorter { Shortens self.old result self.new }
    {
        self.expect(bang_mark(persistent))
    }

    /// Takes the mark of a send, which opens it.
    pub fn opens_bang(&mut self, persistent: bool, free: u32) -> Result<(), Fault>
        ensures reads { ReadsOpening self.old (bang persistent) 0 free result self.new }
        ensures shorter { Shortens self.old result self.new }
        ensures room { IfOk result (λ _. 0 < free) }
    {
        self.opens(bang_mark(persistent), 0, free)
    }

    /// Takes the key of a bundle of these rights, which opens it.
    pub fn opens_bundle(&mut self, rights: Rights, free: u32) -> Result<(), Fault>
        ensures reads { ReadsOpening self.old (bundle_mark rights) 0 free result self.new }
        ensures shorter { Shortens self.old result self.new }
        ensures room { IfOk result (λ _. 0 < free) }
    {
        self.opens(bundle_mark(rights), 0, free)
    }
}
