//! The text of a constraint.

ghost use Rattle.std.specs.Prelude.{◌≡◌, ◌≤◌, IfOk, OnOk, reverse, vec_len};
ghost use Rattle.pol_expr.specs.declared.Symbol.TheVariants as symbols;
ghost use Rattle.pol_expr.specs.Trees.{applied};
ghost use Rattle.pol_expr.specs.Infix.{leaf_operand, negated_operand, joined_operands};
ghost use Rattle.pol_constraints.specs.ConstraintRecord.{item_operands};
ghost use Rattle.pol_constraints.specs.ConstraintTexts.{constraint_symbol, constraint_text, constraint_words};

use crate::codes::{CEXPR_AND, CEXPR_NOT, CEXPR_OR};
use crate::constraint_item::ConstraintItemView;
use crate::constraint_text::leaf_text;
use crate::constraint_view::ConstraintView;
use crate::junction::Junction;
use pol_cursor::Names;
use pol_expr::Operand;
use std::alloc::{AllocError, Global};

impl<'a> ConstraintView<'a> {
    /// The text of the expression, as `u1 == u2 and not t2 == { a_t b_t }`. An operand whose own operator is `and` or `or` is put
    /// in parentheses.
    ///
    /// Names stand in the order of their bytes, and those that no record declares are left out.
    pub fn infix<N: Names>(&self, alloc: Global, names: &N) -> Result<Vec<u8>, AllocError>
        ensures { IfOk result (λ text. text.items ≡ constraint_text (N.named names.now) self.now.items) }
    {
        let mut operands = Vec::new(alloc);
        for item in self.items() {
            apply(alloc, &item, names, &mut operands)?;
        }
        Ok(operands.pop().unwrap().into_text())
    }
}

// Takes the operands of an item from the end, the right one first, and puts its own there.
fn apply<N: Names>(
    alloc: Global,
    item: &ConstraintItemView<'_>,
    names: &N,
    operands: &mut Vec<Operand>,
) -> Result<(), AllocError>
    requires { item_operands item.now ≤ vec_len operands.old }
    ensures { OnOk result (reverse operands.new.items ≡ applied (leaf_operand constraint_words) (negated_operand constraint_words) (joined_operands constraint_words) (constraint_symbol (N.named names.now) item.now) (reverse operands.old.items)) }
{
    match item.kind() {
        CEXPR_NOT => negate(operands),
        CEXPR_AND => join(operands, Junction::And),
        CEXPR_OR => join(operands, Junction::Or),
        _ => {
            operands.push(Operand::from_text(leaf_text(alloc, item, names)?))?;
            Ok(())
        }
    }
}

// Negates the last operand.
#[tactic(auto, using(pol_expr::proofs::Stacks::reverse_push))]
fn negate(operands: &mut Vec<Operand>) -> Result<(), AllocError>
    requires { 1 ≤ vec_len operands.old }
    ensures { OnOk result (reverse operands.new.items ≡ applied (leaf_operand constraint_words) (negated_operand constraint_words) (joined_operands constraint_words) symbols.Not (reverse operands.old.items)) }
{
    let operand = operands.pop().unwrap();
    operands.push(operand.negated(b"not ")?)?;
    Ok(())
}

// Joins the last two operands.
#[tactic(auto, using(pol_expr::proofs::Stacks::reverse_push))]
fn join(operands: &mut Vec<Operand>, junction: Junction) -> Result<(), AllocError>
    requires { 2 ≤ vec_len operands.old }
    ensures { OnOk result (reverse operands.new.items ≡ applied (leaf_operand constraint_words) (negated_operand constraint_words) (joined_operands constraint_words) (symbols.Binary junction) (reverse operands.old.items)) }
{
    let right = operands.pop().unwrap();
    let left = operands.pop().unwrap();
    operands.push(left.joined(junction.text(), right)?)?;
    Ok(())
}
