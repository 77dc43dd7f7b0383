//! What the items of expressions stand for.

ghost use Rattle.std.specs.Prelude.{◌≡◌, ◌≤◌};
ghost use Rattle.pol_expr.specs.ConditionMeaning.{condition_symbol, operator_text, truth_of};

use crate::codes::{COND_AND, COND_BOOL, COND_EQ, COND_NOT, COND_OR, COND_XOR};
use crate::condition_rec::ConditionItem;

/// What an item of an expression is: a leaf, a negation, or an operator that stands between two operands.
#[derive(Clone, Copy, Debug, PartialEq, Eq)]
pub enum Symbol<V, O> {
    Leaf(V),
    Not,
    Binary(O),
}

/// The operators of conditions that stand between two operands.
#[derive(Clone, Copy, Debug, PartialEq, Eq)]
pub enum Operator {
    Or,
    And,
    Xor,
    Equal,
    NotEqual,
}

impl Operator {
    /// The truth value of the two operands joined.
    pub fn truth(self, left: bool, right: bool) -> bool
        ensures { result ≡ truth_of self left right }
    {
        match self {
            Operator::Or => left || right,
            Operator::And => left && right,
            Operator::Xor => left ^ right,
            Operator::Equal => left == right,
            Operator::NotEqual => left != right,
        }
    }

    /// The text of the operator between two operands, with a space on each side.
    pub fn text(self) -> &'static [u8]
        ensures { result.now ≡ operator_text self }
    {
        match self {
            Operator::Or => b" || ",
            Operator::And => b" && ",
            Operator::Xor => b" ^ ",
            Operator::Equal => b" == ",
            Operator::NotEqual => b" != ",
        }
    }
}

/// What an item of a condition is.
pub fn condition_symbol(item: ConditionItem) -> Symbol<u32, Operator>
    ensures { result ≡ condition_symbol item }
{
    match item.kind {
        COND_BOOL => Symbol::Leaf(item.boolean),
        COND_NOT => Symbol::Not,
        COND_OR => Symbol::Binary(Operator::Or),
        COND_AND => Symbol::Binary(Operator::And),
        COND_XOR => Symbol::Binary(Operator::Xor),
        COND_EQ => Symbol::Binary(Operator::Equal),
        _ => Symbol::Binary(Operator::NotEqual),
    }
}
