ghost use Rattle.std.specs.Prelude.{All};
ghost use Rattle.calculus.specs.Methods.{among_methods, methods, method_answer};
ghost use Rattle.calculus.specs.Operators.{binary_answer, seen};
ghost use Rattle.coll_ops.specs.Views.{IsCollection, IsNoEquality, Tells};
ghost use Rattle.value_ops.specs.Answers.{Answers, IsOperand};

use crate::binary::kinds_binary;
use crate::lists::{list_method, tuple_method};
use crate::maker::Maker;
use crate::maps::map_method;
use crate::sets::set_method;
use crate::views::only_part;
use calculus::{BinaryOp, FaultKind};
use rho_term::{Part, Term};
use std::alloc::Global;
use value_ops::OpStop;

/// An operator other than `==` and `!=` on a list, a tuple, a set or a map and another value.
///
/// `++` appends lists, gives the union of sets, and the pairs of two maps, of which the right one's win;
/// `--` gives the members of the left set that are not in the right one. All else is WrongType. Both
/// operands are closed, and their codes shorter than 2^32 bytes. Members are kept ascending by merging,
/// with about one comparison for each.
pub fn coll_binary(alloc: Global, op: BinaryOp, left: &Term, right: &Term) -> Result<Term, OpStop>
    requires collection { IsCollection left.now }
    requires operator { IsNoEquality op }
    requires left { IsOperand left.now }
    requires right { IsOperand right.now }
    ensures { Answers (binary_answer op left.now right.now) result }
{
    let mut maker = Maker::new(alloc);
    let told = kinds_binary(&mut maker, op, left, right);
    maker.answer(told)
}

/// A method of a list, a tuple, a set or a map.
///
/// NoMethod comes where the target has no method of this name with this number of arguments, then
/// WrongType for an argument of another kind, then Index for a place outside. The target and the arguments
/// are closed, and their codes shorter than 2^32 bytes. Members are kept ascending by merging, with about
/// one comparison for each.
pub fn coll_method(alloc: Global, name: &str, target: &Term, args: &[Term]) -> Result<Term, OpStop>
    requires collection { IsCollection target.now }
    requires target { IsOperand target.now }
    requires args { All IsOperand args.now }
    ensures { Answers (method_answer name.now target.now args.now) result }
{
    let mut maker = Maker::new(alloc);
    let told = kinds_method(&mut maker, name, target, args);
    maker.answer(told)
}

fn kinds_method(
    maker: &mut Maker,
    name: &str,
    target: &Term,
    args: &[Term],
) -> Result<Term, FaultKind>
    requires collection { IsCollection target.now }
    requires target { IsOperand target.now }
    requires args { All IsOperand args.now }
    ensures { Tells maker.new.failed (among_methods name.now args.now (methods (seen target.now))) result }
{
    let Some(part) = only_part(target) else {
        return Err(FaultKind::NoMethod);
    };
    match part {
        Part::List(members) => list_method(maker, name, members.as_slice(), args),
        Part::Tuple(members) => tuple_method(maker, name, members.as_slice(), args),
        Part::Set(members) => set_method(maker, name, target, members.as_slice(), args),
        Part::Map(pairs) => map_method(maker, name, target, pairs.as_slice(), args),
        _ => unreachable!(),
    }
}
