//! What is spelled is read again, and what is read was spelled; an expression has one tree. A function with no code claims each law.

ghost use Rattle.std.specs.Prelude.{◌≡◌, List};
ghost use Rattle.pol_cursor.specs.Laws.{IsReadAgain, IsReadFromSpelling};
ghost use Rattle.pol_cursor.specs.References.{Named};
ghost use Rattle.pol_expr.specs.declared.condition_rec.ConditionItem.{ConditionItem};
ghost use Rattle.pol_expr.specs.ConditionRecord.{condition_at, spell_condition, ConditionFits, IsCondition};
ghost use Rattle.pol_expr.specs.Infix.{infix_of};
ghost use Rattle.pol_expr.specs.Trees.{postorder};
ghost use Rattle.pol_expr.specs.ConditionMeaning.{ConditionTree, condition_symbols, condition_words, expression_text};

/// The two laws of a condition.
pub fn conditions_have_laws()
    ensures again { IsReadAgain condition_at spell_condition ConditionFits }
    ensures spelled { IsReadFromSpelling condition_at spell_condition ConditionFits }
{}

/// The items of a condition stand for one tree, and the text of them is that of the tree.
pub fn conditions_have_one_tree()
    ensures exists { (items : List ConditionItem) → IsCondition items → (t : ConditionTree) × (postorder t ≡ condition_symbols items) }
    ensures unique { (t u : ConditionTree) → postorder t ≡ postorder u → t ≡ u }
    ensures text { (named : Named) (items : List ConditionItem) (t : ConditionTree) → postorder t ≡ condition_symbols items → expression_text named items ≡ infix_of (condition_words named) t }
{}
