// Operators and methods of maps.
ghost use Rattle.std.specs.Prelude.{◌≡◌, ◌++◌, ◌∷◌, [], false, map, All};
ghost use Rattle.calculus.specs.Methods.{among_methods, methods, without_key, as_tuple};
ghost use Rattle.calculus.specs.Operators.{on_kinds, a_map, of_map, of_set, of_list, found, key_of};
ghost use Rattle.calculus.specs.Shape.{leaf, many, only, two};
ghost use Rattle.calculus.specs.Tree.{dict, pair, par};
ghost use Rattle.coll_ops.specs.Views.{ArePairs, IsValue, Tells};
ghost use Rattle.rho_term.specs.Parts.{pair_tree};
ghost use Rattle.value_ops.specs.Answers.{IsOperand};

use crate::binary::kinds_binary;
use crate::maker::Maker;
use crate::merge::{contains, find_key, merged, put, without};
use calculus::{BinaryOp, FaultKind, Ground};
use rho_term::{Part, Term};
use std::slice::from_ref;

/// An operator on two maps.
pub(crate) fn map_binary(
    maker: &mut Maker,
    op: BinaryOp,
    left: &[(Term, Term)],
    right: &[(Term, Term)],
) -> Result<Term, FaultKind>
    requires { ArePairs left.now × ArePairs right.now }
    ensures { Tells maker.new.failed (on_kinds op (a_map (map pair_tree left.now)) (a_map (map pair_tree right.now))) result }
{
    match op {
        BinaryOp::Append => Ok(union(maker, left, right)),
        _ => Err(FaultKind::WrongType),
    }
}

// The pairs of both maps; of equal keys the pair of the right one.
fn union(maker: &mut Maker, left: &[(Term, Term)], right: &[(Term, Term)]) -> Term
    requires { maker.old.failed ≡ false → ArePairs left.now × ArePairs right.now }
    ensures { maker.new.failed ≡ false → (maker.old.failed ≡ false) × (result ≡ of_map (map pair_tree left.now ++ map pair_tree right.now)) }
{
    let pairs = merged(maker, left, right);
    maker.value(Part::Map(pairs))
}

/// A method of a map, which has these pairs.
pub(crate) fn map_method(
    maker: &mut Maker,
    name: &str,
    target: &Term,
    pairs: &[(Term, Term)],
    args: &[Term],
) -> Result<Term, FaultKind>
    requires target { target.now ≡ only (many dict (map pair_tree pairs.now)) }
    requires value { IsValue target.now }
    requires args { All IsOperand args.now }
    ensures { Tells maker.new.failed (among_methods name.now args.now (methods (a_map (map pair_tree pairs.now)))) result }
{
    match args {
        [] => map_plainly(maker, name, pairs),
        [key] => map_given(maker, name, target, pairs, key),
        [key, value] => map_given_two(maker, name, pairs, key, value),
        _ => Err(FaultKind::NoMethod),
    }
}

// A method without arguments.
fn map_plainly(maker: &mut Maker, name: &str, pairs: &[(Term, Term)]) -> Result<Term, FaultKind>
    requires { ArePairs pairs.now }
    ensures { Tells maker.new.failed (among_methods name.now [] (methods (a_map (map pair_tree pairs.now)))) result }
{
    match name {
        "size" => Ok(maker.value(Part::Ground(Ground::Int(pairs.len() as i64)))),
        "keys" => Ok(keys(maker, pairs)),
        "toList" => Ok(to_list(maker, pairs)),
        _ => Err(FaultKind::NoMethod),
    }
}

// A method of one argument.
fn map_given(
    maker: &mut Maker,
    name: &str,
    target: &Term,
    pairs: &[(Term, Term)],
    argument: &Term,
) -> Result<Term, FaultKind>
    requires target { target.now ≡ only (many dict (map pair_tree pairs.now)) }
    requires value { IsValue target.now }
    requires argument { IsOperand argument.now }
    ensures { Tells maker.new.failed (among_methods name.now (argument.now ∷ []) (methods (a_map (map pair_tree pairs.now)))) result }
{
    match name {
        "contains" => Ok(contains(maker, pairs, argument)),
        "get" => Ok(get(maker, pairs, argument)),
        "delete" => Ok(without_key(maker, pairs, argument)),
        "union" => kinds_binary(maker, BinaryOp::Append, target, argument),
        _ => Err(FaultKind::NoMethod),
    }
}

// A method of two arguments.
fn map_given_two(
    maker: &mut Maker,
    name: &str,
    pairs: &[(Term, Term)],
    key: &Term,
    value: &Term,
) -> Result<Term, FaultKind>
    requires { ArePairs pairs.now × IsOperand key.now }
    ensures { Tells maker.new.failed (among_methods name.now (key.now ∷ value.now ∷ []) (methods (a_map (map pair_tree pairs.now)))) result }
{
    match name {
        "getOrElse" => Ok(value_or(maker, pairs, key, value)),
        "set" => Ok(set_pair(maker, pairs, key, value)),
        _ => Err(FaultKind::NoMethod),
    }
}

// The value at a key, or another value.
fn value_or(maker: &mut Maker, pairs: &[(Term, Term)], key: &Term, default: &Term) -> Term
    requires { ArePairs pairs.now × IsOperand key.now }
    ensures { maker.new.failed ≡ false → result ≡ found default.now key.now (map pair_tree pairs.now) }
{
    let (place, has) = find_key(pairs, 0, key);
    if has {
        maker.copy(&pairs[place].1)
    } else {
        maker.copy(default)
    }
}

// The value at a key, or Nil.
fn get(maker: &mut Maker, pairs: &[(Term, Term)], key: &Term) -> Term
    requires { ArePairs pairs.now × IsOperand key.now }
    ensures { maker.new.failed ≡ false → result ≡ found (leaf par) key.now (map pair_tree pairs.now) }
{
    let nil = Term::nil(maker.alloc);
    value_or(maker, pairs, key, &nil)
}

// The pairs and one more, which wins.
fn set_pair(maker: &mut Maker, pairs: &[(Term, Term)], key: &Term, value: &Term) -> Term
    requires { ArePairs pairs.now × IsOperand key.now }
    ensures { maker.new.failed ≡ false → result ≡ of_map (map pair_tree pairs.now ++ two pair key.now value.now ∷ []) }
{
    let key = maker.copy(key);
    let value = maker.copy(value);
    let one = (key, value);
    union(maker, pairs, from_ref(&one))
}

// The pairs with other keys.
fn without_key(maker: &mut Maker, pairs: &[(Term, Term)], key: &Term) -> Term
    requires { ArePairs pairs.now × IsOperand key.now }
    ensures { maker.new.failed ≡ false → result ≡ of_map (without_key key.now (map pair_tree pairs.now)) }
{
    let others = without(maker, pairs, from_ref(key));
    maker.value(Part::Map(others))
}

// The keys, as a set.
fn keys(maker: &mut Maker, pairs: &[(Term, Term)]) -> Term
    requires { ArePairs pairs.now }
    ensures { maker.new.failed ≡ false → result ≡ of_set (map key_of (map pair_tree pairs.now)) }
{
    let mut kept = Vec::new(maker.alloc);
    for pair in pairs {
        let key = maker.copy(&pair.0);
        put(maker, &mut kept, key);
    }
    maker.value(Part::Set(kept))
}

// The pairs as tuples, in a list.
fn to_list(maker: &mut Maker, pairs: &[(Term, Term)]) -> Term
    ensures { maker.new.failed ≡ false → result ≡ of_list (map as_tuple (map pair_tree pairs.now)) }
{
    let mut tuples = Vec::new(maker.alloc);
    for pair in pairs {
        let tuple = tuple_of(maker, pair);
        maker.add(&mut tuples, tuple);
    }
    maker.value(Part::List(tuples))
}

fn tuple_of(maker: &mut Maker, pair: &(Term, Term)) -> Term
    ensures { maker.new.failed ≡ false → (maker.old.failed ≡ false) × (result ≡ as_tuple (pair_tree pair.now)) }
{
    let mut members = Vec::new(maker.alloc);
    let key = maker.copy(&pair.0);
    maker.add(&mut members, key);
    let value = maker.copy(&pair.1);
    maker.add(&mut members, value);
    maker.value(Part::Tuple(members))
}
