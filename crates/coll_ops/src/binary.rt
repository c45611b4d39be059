// Operators by the kinds of their operands.
ghost use Rattle.std.specs.Prelude.{◌≡◌};
ghost use Rattle.calculus.specs.Operators.{on_kinds, seen, seen_part};
ghost use Rattle.calculus.specs.Shape.{only};
ghost use Rattle.coll_ops.specs.Views.{IsCollection, IsCollectionKind, IsValue, Tells};
ghost use Rattle.rho_term.specs.Parts.{part_tree};
ghost use Rattle.value_ops.specs.Answers.{IsOperand};

use crate::lists::list_binary;
use crate::maker::Maker;
use crate::maps::map_binary;
use crate::sets::set_binary;
use crate::views::only_part;
use calculus::{BinaryOp, FaultKind};
use rho_term::{Part, Term};

/// An operator other than `==` and `!=` on a collection and another process.
pub(crate) fn kinds_binary(
    maker: &mut Maker,
    op: BinaryOp,
    left: &Term,
    right: &Term,
) -> Result<Term, FaultKind>
    requires collection { IsCollection left.now }
    requires left { IsOperand left.now }
    requires right { IsOperand right.now }
    ensures { Tells maker.new.failed (on_kinds op (seen left.now) (seen right.now)) result }
{
    let Some(left) = only_part(left) else {
        return Err(FaultKind::WrongType);
    };
    let Some(right) = only_part(right) else {
        return Err(FaultKind::WrongType);
    };
    parts_binary(maker, op, left, right)
}

// An operator on two parts, of which the left one is a collection.
fn parts_binary(
    maker: &mut Maker,
    op: BinaryOp,
    left: &Part,
    right: &Part,
) -> Result<Term, FaultKind>
    requires collection { IsCollectionKind (seen_part (part_tree left.now)) }
    requires left { IsValue (only (part_tree left.now)) }
    requires right { IsValue (only (part_tree right.now)) }
    ensures { Tells maker.new.failed (on_kinds op (seen_part (part_tree left.now)) (seen_part (part_tree right.now))) result }
{
    match (left, right) {
        (Part::List(left), Part::List(right)) => {
            list_binary(maker, op, left.as_slice(), right.as_slice())
        }
        (Part::Set(left), Part::Set(right)) => {
            set_binary(maker, op, left.as_slice(), right.as_slice())
        }
        (Part::Map(left), Part::Map(right)) => {
            map_binary(maker, op, left.as_slice(), right.as_slice())
        }
        _ => Err(FaultKind::WrongType),
    }
}
