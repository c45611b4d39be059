//! The levels of the operators between two operands.
ghost use Rattle.token_cursor.specs.Levels.{GoesOn, inner_of, levels_below, looseness_of};
ghost use Rattle.token_cursor.specs.Meaning.{view};
ghost use Rattle.token_cursor.specs.declared.level.Level.TheVariants as levels;
ghost use Rattle.std.specs.Prelude.{◌≡◌, ◌+◌, IfSome};

use crate::cursor::Cursor;
use calculus::BinaryOp;
use grammar::Mark;

/// A level of operators, the loosest first.
#[derive(Clone, Copy)]
pub enum Level {
    Or,
    And,
    Eq,
    Cmp,
    Sum,
    Mul,
}

impl Level {
    /// The next tighter level.
    pub fn inner(self) -> Option<Level>
        ensures is { result ≡ inner_of self }
        ensures tighter { levels_below result ≡ looseness_of self }
    {
        match self {
            Level::Or => Some(Level::And),
            Level::And => Some(Level::Eq),
            Level::Eq => Some(Level::Cmp),
            Level::Cmp => Some(Level::Sum),
            Level::Sum => Some(Level::Mul),
            Level::Mul => None,
        }
    }

    /// The level of the operand to the right of an operator of this level, whose chain leans to the left.
    pub fn right(self) -> Option<Level>
        ensures { result ≡ inner_of self }
    {
        self.inner()
    }
}

impl<'a> Cursor<'a> {
    /// The operator of this level that is next, with its mark.
    pub fn operator(&self, level: Level) -> Option<(Mark, BinaryOp)>
        ensures { GoesOn level (view self.now.rest.now) result }
    {
        match level {
            Level::Or => self.or_operator(),
            Level::And => self.and_operator(),
            Level::Eq => self.eq_operator(),
            Level::Cmp => self.cmp_operator(),
            Level::Sum => self.sum_operator(),
            Level::Mul => self.mul_operator(),
        }
    }

    fn or_operator(&self) -> Option<(Mark, BinaryOp)>
        ensures { GoesOn levels.Or (view self.now.rest.now) result }
    {
        if self.sees(Mark::Or) {
            return Some((Mark::Or, BinaryOp::Or));
        }
        None
    }

    fn and_operator(&self) -> Option<(Mark, BinaryOp)>
        ensures { GoesOn levels.And (view self.now.rest.now) result }
    {
        if self.sees(Mark::And) {
            return Some((Mark::And, BinaryOp::And));
        }
        None
    }

    fn eq_operator(&self) -> Option<(Mark, BinaryOp)>
        ensures { GoesOn levels.Eq (view self.now.rest.now) result }
    {
        if self.sees(Mark::Equal) {
            return Some((Mark::Equal, BinaryOp::Eq));
        }
        if self.sees(Mark::Unequal) {
            return Some((Mark::Unequal, BinaryOp::Ne));
        }
        None
    }

    fn cmp_operator(&self) -> Option<(Mark, BinaryOp)>
        ensures { GoesOn levels.Cmp (view self.now.rest.now) result }
    {
        if self.sees(Mark::Less) {
            return Some((Mark::Less, BinaryOp::Lt));
        }
        if self.sees(Mark::LessEqual) {
            return Some((Mark::LessEqual, BinaryOp::Le));
        }
        if self.sees(Mark::Greater) {
            return Some((Mark::Greater, BinaryOp::Gt));
        }
        if self.sees(Mark::GreaterEqual) {
            return Some((Mark::GreaterEqual, BinaryOp::Ge));
        }
        None
    }

    fn sum_operator(&self) -> Option<(Mark, BinaryOp)>
        ensures { GoesOn levels.Sum (view self.now.rest.now) result }
    {
        if self.sees(Mark::Plus) {
            return Some((Mark::Plus, BinaryOp::Add));
        }
        if self.sees(Mark::Minus) {
            return Some((Mark::Minus, BinaryOp::Sub));
        }
        if self.sees(Mark::DoublePlus) {
            return Some((Mark::DoublePlus, BinaryOp::Append));
        }
        if self.sees(Mark::DoubleMinus) {
            return Some((Mark::DoubleMinus, BinaryOp::Minus));
        }
        None
    }

    fn mul_operator(&self) -> Option<(Mark, BinaryOp)>
        ensures { GoesOn levels.Mul (view self.now.rest.now) result }
    {
        if self.sees(Mark::Star) {
            return Some((Mark::Star, BinaryOp::Mul));
        }
        if self.sees(Mark::Slash) {
            return Some((Mark::Slash, BinaryOp::Div));
        }
        if self.sees(Mark::Percent) {
            return Some((Mark::Percent, BinaryOp::Rem));
        }
        None
    }
}
