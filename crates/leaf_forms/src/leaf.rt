//! The forms that hold no process: names, ground values, remainders and declarations.
ghost use Rattle.calculus.specs.Meaning.{declared, name_pat_written, pat_written};
ghost use Rattle.grammar.specs.Grammar.{rule};
ghost use Rattle.grammar.specs.Productions.{Prod};
ghost use Rattle.grammar.specs.Rules.{Sort, last};
ghost use Rattle.grammar.specs.Values.{Side};
ghost use Rattle.grammar.specs.declared.dialect.Dialect.TheVariants.{Tutorial};
ghost use Rattle.token_cursor.specs.Cursors.{Continues, Reads, ReadsDeclaredUri, ReadsEnd, ReadsNameRest, ReadsNamesEnd, ReadsRest, ReadsSort, Shortens};
ghost use Rattle.token_cursor.specs.Meaning.{view};
ghost use Rattle.token_cursor.specs.Reading.{after_names, body_after, bracket_of, of_ground, of_left, of_name, of_name_pat, of_pat, of_proc, of_rest, of_sequence, pat_pairs_written, sees_member};
ghost use Rattle.std.specs.Prelude.{◌≡◌, ◌+◌, ◌<◌, ◌≤◌, ◌^◌, [], IfOk, false, length, map};

use calculus::{Decl, Ground, Name, NamePat, Pat, Proc, Rest, Simple};
use form_parts::part::{Bracket, Left, Part, Sequence};
use grammar::{Fault, Mark};
use syntax_forms::{pattern_forms, process_forms};
use token_cursor::cursor::{Cursor, closed, closing_mark, type_mark};

/// The greatest integer that stands without a `-`.
const GREATEST: u64 = 9_223_372_036_854_775_807;

/// A variable.
pub fn atom_word(cursor: &mut Cursor<'_>) -> Result<Part<Proc>, Fault>
    ensures reads { Reads cursor.old Prod.atom_word of_proc result cursor.new }
    ensures height { IfOk result (λ p. p.height ≡ 0) }
    ensures shorter { length cursor.new.rest.now ≤ length cursor.old.rest.now }
{
    let name = cursor.word()?;
    Ok(process_forms::variable(name))
}

/// `Nil`
pub fn atom_nil(cursor: &mut Cursor<'_>) -> Result<Part<Proc>, Fault>
    ensures reads { Reads cursor.old Prod.atom_nil of_proc result cursor.new }
    ensures height { IfOk result (λ p. p.height ≡ 0) }
    ensures shorter { length cursor.new.rest.now ≤ length cursor.old.rest.now }
{
    let form = process_forms::nil(cursor.alloc);
    closed(cursor, form, Mark::Nil)
}

/// A ground value.
pub fn atom_ground(cursor: &mut Cursor<'_>) -> Result<Part<Proc>, Fault>
    ensures reads { Reads cursor.old Prod.atom_ground of_proc result cursor.new }
    ensures height { IfOk result (λ p. p.height ≡ 0) }
    ensures shorter { length cursor.new.rest.now ≤ length cursor.old.rest.now }
{
    let value = ground(cursor)?;
    Ok(process_forms::ground(value))
}

/// A variable as a name.
pub fn name_word(cursor: &mut Cursor<'_>) -> Result<Part<Name>, Fault>
    ensures reads { Reads cursor.old Prod.name_word of_name result cursor.new }
    ensures height { IfOk result (λ p. p.height ≡ 0) }
    ensures shorter { length cursor.new.rest.now ≤ length cursor.old.rest.now }
{
    let name = cursor.word()?;
    Ok(process_forms::channel(name))
}

/// The process that a variable quotes.
pub fn dropped_word(cursor: &mut Cursor<'_>) -> Result<Part<Proc>, Fault>
    ensures reads { Reads cursor.old Prod.dropped_word of_proc result cursor.new }
    ensures height { IfOk result (λ p. p.height ≡ 0) }
    ensures shorter { length cursor.new.rest.now ≤ length cursor.old.rest.now }
{
    let name = cursor.word()?;
    Ok(process_forms::dropped_word(name))
}

/// The empty map.
pub fn empty_map(cursor: &mut Cursor<'_>) -> Result<Part<Proc>, Fault>
    ensures reads { Reads cursor.old Prod.brace_empty of_proc result cursor.new }
    ensures height { IfOk result (λ p. p.height ≡ 1) }
    ensures shorter { length cursor.new.rest.now ≤ length cursor.old.rest.now }
{
    let form = process_forms::empty_map(cursor.alloc);
    closed(cursor, form, Mark::CloseBrace)
}

/// A variable that is bound here.
pub fn pat_word(cursor: &mut Cursor<'_>) -> Result<Part<Pat>, Fault>
    ensures reads { Reads cursor.old Prod.patom_word of_pat result cursor.new }
    ensures height { IfOk result (λ p. p.height ≡ 0) }
    ensures shorter { length cursor.new.rest.now ≤ length cursor.old.rest.now }
{
    let name = cursor.word()?;
    Ok(pattern_forms::bound(name))
}

/// `_`
pub fn pat_any(cursor: &mut Cursor<'_>) -> Result<Part<Pat>, Fault>
    ensures reads { Reads cursor.old Prod.patom_any of_pat result cursor.new }
    ensures height { IfOk result (λ p. p.height ≡ 0) }
    ensures shorter { length cursor.new.rest.now ≤ length cursor.old.rest.now }
{
    let form = pattern_forms::any();
    closed(cursor, form, Mark::Underscore)
}

/// The pattern `Nil`.
pub fn pat_nil(cursor: &mut Cursor<'_>) -> Result<Part<Pat>, Fault>
    ensures reads { Reads cursor.old Prod.patom_nil of_pat result cursor.new }
    ensures height { IfOk result (λ p. p.height ≡ 0) }
    ensures shorter { length cursor.new.rest.now ≤ length cursor.old.rest.now }
{
    let form = pattern_forms::nil_pat(cursor.alloc);
    closed(cursor, form, Mark::Nil)
}

/// A ground value as a pattern.
pub fn pat_ground(cursor: &mut Cursor<'_>) -> Result<Part<Pat>, Fault>
    ensures reads { Reads cursor.old Prod.patom_ground of_pat result cursor.new }
    ensures height { IfOk result (λ p. p.height ≡ 0) }
    ensures shorter { length cursor.new.rest.now ≤ length cursor.old.rest.now }
{
    let value = ground(cursor)?;
    Ok(pattern_forms::ground_pat(value))
}

/// A simple type.
pub fn pat_type(cursor: &mut Cursor<'_>, simple: Simple) -> Result<Part<Pat>, Fault>
    ensures reads { Reads cursor.old (Prod.patom_type simple) of_pat result cursor.new }
    ensures height { IfOk result (λ p. p.height ≡ 0) }
    ensures shorter { length cursor.new.rest.now ≤ length cursor.old.rest.now }
{
    let form = pattern_forms::simple(simple);
    closed(cursor, form, type_mark(simple))
}

/// Any name.
pub fn name_any(cursor: &mut Cursor<'_>) -> Result<Part<NamePat>, Fault>
    ensures reads { Reads cursor.old Prod.pname_any of_name_pat result cursor.new }
    ensures height { IfOk result (λ p. p.height ≡ 0) }
    ensures shorter { length cursor.new.rest.now ≤ length cursor.old.rest.now }
{
    let form = pattern_forms::any_channel();
    closed(cursor, form, Mark::Underscore)
}

/// A name that is bound here.
pub fn name_bound(cursor: &mut Cursor<'_>) -> Result<Part<NamePat>, Fault>
    ensures reads { Reads cursor.old Prod.pname_word of_name_pat result cursor.new }
    ensures height { IfOk result (λ p. p.height ≡ 0) }
    ensures shorter { length cursor.new.rest.now ≤ length cursor.old.rest.now }
{
    let name = cursor.word()?;
    Ok(pattern_forms::bound_channel(name))
}

/// `=x`
pub fn same_word(cursor: &mut Cursor<'_>) -> Result<Part<Pat>, Fault>
    ensures reads { Reads cursor.old Prod.same_word of_pat result cursor.new }
    ensures height { IfOk result (λ p. p.height ≡ 1) }
    ensures shorter { length cursor.new.rest.now ≤ length cursor.old.rest.now }
{
    let name = cursor.word()?;
    let body = process_forms::variable(name);
    pattern_forms::same(cursor.alloc, body)
}

/// `=*x`
pub fn same_drop(cursor: &mut Cursor<'_>) -> Result<Part<Pat>, Fault>
    ensures reads { Reads cursor.old Prod.same_drop of_pat result cursor.new }
    ensures height { IfOk result (λ p. p.height ≡ 1) }
    ensures shorter { length cursor.new.rest.now ≤ length cursor.old.rest.now }
{
    cursor.expect(Mark::Star)?;
    let name = cursor.word()?;
    let body = process_forms::dropped_word(name);
    pattern_forms::same(cursor.alloc, body)
}

/// "..." "@" and a remainder.
pub(crate) fn name_rest(cursor: &mut Cursor<'_>) -> Result<Rest, Fault>
    ensures reads { ReadsNameRest cursor.old result cursor.new }
    ensures shorter { length cursor.new.rest.now ≤ length cursor.old.rest.now }
{
    cursor.expect(Mark::Ellipsis)?;
    cursor.expect(Mark::At)?;
    remainder(cursor)
}

/// "..." and a remainder, and this mark after it.
pub(crate) fn rest_closed(cursor: &mut Cursor<'_>, mark: Mark) -> Result<Rest, Fault>
    ensures reads { ReadsRest cursor.old mark result cursor.new }
    ensures shorter { length cursor.new.rest.now ≤ length cursor.old.rest.now }
{
    cursor.expect(Mark::Ellipsis)?;
    let rest = remainder(cursor)?;
    closed(cursor, rest, mark)
}

/// The remainder that may follow members, also after a comma, and this mark after it.
fn members_end(cursor: &mut Cursor<'_>, mark: Mark) -> Result<Rest, Fault>
    requires { sees_member (view cursor.old.rest.now) ≡ false }
    ensures reads { ReadsEnd cursor.old mark result cursor.new }
    ensures shorter { length cursor.new.rest.now ≤ length cursor.old.rest.now }
{
    if cursor.sees(Mark::Comma) {
        cursor.expect(Mark::Comma)?;
        return rest_closed(cursor, mark);
    }
    if cursor.sees(Mark::Ellipsis) {
        return rest_closed(cursor, mark);
    }
    closed(cursor, Rest::No, mark)
}

/// The remainder that may follow patterns of names, also after a comma.
fn names_end(cursor: &mut Cursor<'_>) -> Result<Rest, Fault>
    requires { sees_member (view cursor.old.rest.now) ≡ false }
    ensures reads { ReadsNamesEnd cursor.old result cursor.new }
    ensures shorter { length cursor.new.rest.now ≤ length cursor.old.rest.now }
{
    if cursor.sees(Mark::Ellipsis) {
        return name_rest(cursor);
    }
    if cursor.sees(Mark::Comma) {
        cursor.expect(Mark::Comma)?;
        return name_rest(cursor);
    }
    Ok(Rest::No)
}

/// No pattern and no remainder.
pub fn sequence_none(cursor: &mut Cursor<'_>, bracket: Bracket) -> Result<Part<Sequence>, Fault>
    ensures reads { Reads cursor.old (Prod.seq_none (bracket_of bracket)) of_sequence result cursor.new }
    ensures height { IfOk result (λ p. p.height ≡ 0) }
    ensures shorter { length cursor.new.rest.now ≤ length cursor.old.rest.now }
{
    let pats = pattern_forms::no_pats(cursor.alloc);
    let form = pattern_forms::sequence(pats, Rest::No);
    closed(cursor, form, closing_mark(bracket))
}

/// The remainder that may follow these patterns.
pub fn left_end(cursor: &mut Cursor<'_>, pats: Part<Vec<NamePat>>) -> Result<Part<Left>, Fault>
    requires member { sees_member (view cursor.old.rest.now) ≡ false }
    ensures reads { ReadsSort cursor.old (Sort.LeftTail (map name_pat_written pats.value.items) pats.height) of_left result cursor.new }
    ensures height { IfOk result (λ p. p.height ≡ pats.height) }
    ensures shorter { length cursor.new.rest.now ≤ length cursor.old.rest.now }
{
    let rest = names_end(cursor)?;
    Ok(pattern_forms::left(pats, rest))
}

/// The remainder that may follow these patterns.
pub fn sequence_end(
    cursor: &mut Cursor<'_>,
    bracket: Bracket,
    pats: Part<Vec<Pat>>,
) -> Result<Part<Sequence>, Fault>
    requires member { sees_member (view cursor.old.rest.now) ≡ false }
    ensures reads { ReadsSort cursor.old (Sort.SeqTail (bracket_of bracket) (map pat_written pats.value.items)
        pats.height) of_sequence result cursor.new }
    ensures height { IfOk result (λ p. p.height ≡ pats.height) }
    ensures shorter { length cursor.new.rest.now ≤ length cursor.old.rest.now }
{
    let rest = members_end(cursor, closing_mark(bracket))?;
    Ok(pattern_forms::sequence(pats, rest))
}

/// The remainder that may follow these pairs.
pub fn pairs_end(cursor: &mut Cursor<'_>, pairs: Part<Vec<(Pat, Pat)>>) -> Result<Part<Pat>, Fault>
    requires member { sees_member (view cursor.old.rest.now) ≡ false }
    requires room { pairs.height + 1 < 2 ^ 32 }
    ensures reads { ReadsSort cursor.old (Sort.PPairs (pat_pairs_written pairs.value.items) pairs.height) of_pat result cursor.new }
    ensures height { IfOk result (λ p. p.height ≡ pairs.height + 1) }
    ensures shorter { length cursor.new.rest.now ≤ length cursor.old.rest.now }
{
    let rest = members_end(cursor, Mark::CloseBrace)?;
    Ok(pattern_forms::map_pat(pairs, rest))
}

/// The empty map of patterns.
pub fn empty_map_pat(cursor: &mut Cursor<'_>) -> Result<Part<Pat>, Fault>
    ensures reads { Reads cursor.old Prod.pbrace_empty of_pat result cursor.new }
    ensures height { IfOk result (λ p. p.height ≡ 1) }
    ensures shorter { length cursor.new.rest.now ≤ length cursor.old.rest.now }
{
    let none = pattern_forms::no_pairs(cursor.alloc);
    let form = pattern_forms::map_pat(none, Rest::No);
    closed(cursor, form, Mark::CloseBrace)
}

/// A map of patterns that is a remainder.
pub fn rest_map_pat(cursor: &mut Cursor<'_>) -> Result<Part<Pat>, Fault>
    ensures reads { Reads cursor.old Prod.pbrace_rest of_pat result cursor.new }
    ensures height { IfOk result (λ p. p.height ≡ 1) }
    ensures shorter { length cursor.new.rest.now ≤ length cursor.old.rest.now }
{
    let rest = rest_closed(cursor, Mark::CloseBrace)?;
    let none = pattern_forms::no_pairs(cursor.alloc);
    Ok(pattern_forms::map_pat(none, rest))
}

/// Remainder ::= Word | "_"
pub fn remainder(cursor: &mut Cursor<'_>) -> Result<Rest, Fault>
    ensures reads { ReadsSort cursor.old Sort.Remainder of_rest result cursor.new }
    ensures shorter { length cursor.new.rest.now ≤ length cursor.old.rest.now }
{
    if cursor.sees(Mark::Underscore) {
        return closed(cursor, Rest::Wild, Mark::Underscore);
    }
    let name = cursor.word()?;
    Ok(Rest::Var(name))
}

/// An integer of at most 2^63 - 1.
fn positive(cursor: &mut Cursor<'_>) -> Result<Ground, Fault>
    ensures reads { (side : Side) → Reads cursor.old (Prod.ground_int side) (of_ground side) result cursor.new }
    ensures shorter { length cursor.new.rest.now ≤ length cursor.old.rest.now }
{
    let value = cursor.integer(GREATEST)?;
    Ok(process_forms::positive(value))
}

/// A `-` and an integer of at most 2^63.
fn negative(cursor: &mut Cursor<'_>) -> Result<Ground, Fault>
    ensures reads { (side : Side) → Reads cursor.old (Prod.ground_minus side) (of_ground side) result cursor.new }
    ensures shorter { length cursor.new.rest.now ≤ length cursor.old.rest.now }
{
    cursor.expect(Mark::Minus)?;
    let value = cursor.integer(GREATEST + 1)?;
    Ok(process_forms::negative(value))
}

/// A string.
fn string_value(cursor: &mut Cursor<'_>) -> Result<Ground, Fault>
    ensures reads { (side : Side) → Reads cursor.old (Prod.ground_string side) (of_ground side) result cursor.new }
    ensures shorter { length cursor.new.rest.now ≤ length cursor.old.rest.now }
{
    let value = cursor.string()?;
    Ok(Ground::Str(value))
}

/// A URI.
fn uri_value(cursor: &mut Cursor<'_>) -> Result<Ground, Fault>
    ensures reads { (side : Side) → Reads cursor.old (Prod.ground_uri side) (of_ground side) result cursor.new }
    ensures shorter { length cursor.new.rest.now ≤ length cursor.old.rest.now }
{
    let value = cursor.uri()?;
    Ok(Ground::Uri(value))
}

/// Ground ::= "true" | "false" | Int | "-" Int | Str | Uri, where 2^63 stands only after "-"
pub fn ground(cursor: &mut Cursor<'_>) -> Result<Ground, Fault>
    ensures reads { (side : Side) → ReadsSort cursor.old (Sort.Ground side) (of_ground side) result cursor.new }
    ensures shorter { length cursor.new.rest.now ≤ length cursor.old.rest.now }
{
    if cursor.sees(Mark::True) {
        return closed(cursor, Ground::Bool(true), Mark::True);
    }
    if cursor.sees(Mark::False) {
        return closed(cursor, Ground::Bool(false), Mark::False);
    }
    if cursor.sees(Mark::Minus) {
        return negative(cursor);
    }
    if cursor.sees_string() {
        return string_value(cursor);
    }
    if cursor.sees_uri() {
        return uri_value(cursor);
    }
    positive(cursor)
}

/// The URI that may follow a declared name.
fn declared_uri(cursor: &mut Cursor<'_>) -> Result<Option<String>, Fault>
    ensures reads { ReadsDeclaredUri cursor.old result cursor.new }
    ensures shorter { length cursor.new.rest.now ≤ length cursor.old.rest.now }
{
    if !cursor.sees(Mark::Open) {
        return Ok(None);
    }
    cursor.expect(Mark::Open)?;
    let uri = cursor.uri()?;
    closed(cursor, Some(uri), Mark::Close)
}

/// Decl ::= Word [ "(" Uri ")" ], after these names
fn declaration(cursor: &mut Cursor<'_>, names: Vec<Decl>) -> Result<Vec<Decl>, Fault>
    ensures reads { Continues cursor.old (rule Tutorial (Prod.decl (map declared names.items))) after_names result cursor.new }
    ensures shorter { Shortens cursor.old result cursor.new }
{
    let name = cursor.word()?;
    let uri = declared_uri(cursor)?;
    process_forms::declare(names, Decl { name, uri })
}

/// The names of a `new`.
pub fn declarations(cursor: &mut Cursor<'_>) -> Result<Vec<Decl>, Fault>
    ensures reads { Continues cursor.old (last (Sort.Decl [])) body_after result cursor.new }
    ensures shorter { length cursor.new.rest.now ≤ length cursor.old.rest.now }
{
    let none = process_forms::no_names(cursor.alloc);
    let mut names = declaration(cursor, none)?;
    while cursor.sees(Mark::Comma) {
        cursor.expect(Mark::Comma)?;
        names = declaration(cursor, names)?;
    }
    Ok(names)
}
