//! The text of a condition.

ghost use Rattle.std.specs.Prelude.{◌≡◌, ◌≤◌, ◌++◌, [], IfOk, OnOk, length, reverse, unwrap_or, vec_len};
ghost use Rattle.pol_fields.specs.declared.table_kind.TableKind.TheVariants.{Booleans};
ghost use Rattle.pol_expr.specs.Trees.{applied, operand_count};
ghost use Rattle.pol_expr.specs.Infix.{leaf_operand, negated_operand, joined_operands};
ghost use Rattle.pol_expr.specs.ConditionMeaning.{condition_words, expression_text, operator_text};

use crate::condition_view::ConditionView;
use crate::operand::Operand;
use crate::symbol::{Operator, Symbol};
use pol_cursor::Names;
use pol_fields::TableKind;
use std::alloc::{AllocError, Global};

impl<'a> ConditionView<'a> {
    /// The text of the expression. A boolean is its name, `!` stands before its operand, and `||`, `&&`, `^`, `==` and `!=`
    /// between theirs, with a space on each side. An operand that has one of these five is put in parentheses.
    pub fn infix<N: Names>(&self, alloc: Global, names: &N) -> Result<Vec<u8>, AllocError>
        ensures { IfOk result (λ text. text.items ≡ expression_text (N.named names.now) self.now.value.items) }
    {
        let mut operands = Vec::new(alloc);
        for i in 0..self.len() {
            apply(alloc, self.symbol(i), names, &mut operands)?;
        }
        Ok(operands.pop().unwrap().into_text())
    }
}

// Takes the operands of a symbol from the end, the right one first, and puts its own there.
fn apply<N: Names>(
    alloc: Global,
    symbol: Symbol<u32, Operator>,
    names: &N,
    operands: &mut Vec<Operand>,
) -> Result<(), AllocError>
    requires { operand_count symbol ≤ vec_len operands.old }
    ensures { OnOk result (reverse operands.new.items ≡ applied (leaf_operand (condition_words (N.named names.now))) (negated_operand (condition_words (N.named names.now))) (joined_operands (condition_words (N.named names.now))) symbol (reverse operands.old.items)) }
{
    match symbol {
        Symbol::Leaf(boolean) => {
            operands.push(Operand::leaf(alloc, boolean_name(names, boolean))?)?;
        }
        Symbol::Not => {
            let operand = operands.pop().unwrap();
            operands.push(operand.negated(b"!")?)?;
        }
        Symbol::Binary(operator) => {
            let right = operands.pop().unwrap();
            let left = operands.pop().unwrap();
            operands.push(left.joined(operator.text(), right)?)?;
        }
    }
    Ok(())
}

// The name of a boolean, which is empty where no record declares it.
fn boolean_name<N: Names>(names: &N, boolean: u32) -> &[u8]
    ensures { result.now ≡ unwrap_or (N.named names.now Booleans boolean) [] }
{
    match names.name(TableKind::Booleans, boolean) {
        Some(name) => name,
        None => b"",
    }
}
