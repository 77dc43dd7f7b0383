//! The truth value of a condition under stated booleans.

ghost use Rattle.std.specs.Prelude.{◌≡◌, ◌≤◌, ◌+◌, not, reverse, length};
ghost use Rattle.pol_expr.specs.Trees.{applied, postorder, operand_count};
ghost use Rattle.pol_expr.specs.Postfix.{values_after};
ghost use Rattle.pol_expr.specs.declared.codes.TheConstants.{COND_EXPR_MAXDEPTH};
ghost use Rattle.pol_expr.specs.ConditionMeaning.{ConditionTree, condition_symbols, truth_of, value_of, is_in};

use crate::codes::COND_EXPR_MAXDEPTH;
use crate::condition_view::ConditionView;
use crate::symbol::{Operator, Symbol};
use arrayvec::ArrayVec;
use pol_bitmap::Set;

/// The most values that an expression holds at a time.
const DEPTH: usize = COND_EXPR_MAXDEPTH as usize;

impl<'a> ConditionView<'a> {
    /// The truth value of the expression where exactly the booleans in the set are true: whether the rules of its true branch hold
    /// in a running system whose booleans are so, and else those of its false branch. Takes no memory.
    pub fn eval(&self, on: &Set) -> bool
        ensures { (t : ConditionTree) → postorder t ≡ condition_symbols self.now.value.items → result ≡ value_of (is_in on.now) t }
    {
        let mut values = ArrayVec::new();
        for i in 0..self.len() {
            apply(self.symbol(i), on, &mut values);
        }
        values.pop().unwrap()
    }
}

// Takes the operands of a symbol from the values, the right one from the end, and puts its own value there.
#[tactic(auto, using(crate::proofs::Stacks::reverse_push))]
fn apply(symbol: Symbol<u32, Operator>, on: &Set, values: &mut ArrayVec<bool, DEPTH>)
    requires operands { operand_count symbol ≤ length values.old.items }
    requires room { values_after (length values.old.items) (operand_count symbol) ≤ COND_EXPR_MAXDEPTH }
    ensures { reverse values.new.items ≡ applied (is_in on.now) not truth_of symbol (reverse values.old.items) }
{
    match symbol {
        Symbol::Leaf(boolean) => values.push(is_in(on, boolean)),
        Symbol::Not => {
            let operand = values.pop().unwrap();
            values.push(!operand);
        }
        Symbol::Binary(operator) => {
            let right = values.pop().unwrap();
            let left = values.pop().unwrap();
            values.push(operator.truth(left, right));
        }
    }
}

// Whether a boolean is in the set.
fn is_in(on: &Set, boolean: u32) -> bool
    ensures { result ≡ is_in on.now boolean }
{
    on.has(boolean)
}
