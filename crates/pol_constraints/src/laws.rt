//! What is spelled is read again, and what is read was spelled; an expression has one tree. A function with no code claims each law.

ghost use Rattle.std.specs.Prelude.{◌≡◌, ℕ, Bool, List};
ghost use Rattle.pol_cursor.specs.Laws.{IsReadAgain, IsReadFromSpelling};
ghost use Rattle.pol_cursor.specs.References.{Named};
ghost use Rattle.pol_expr.specs.Infix.{infix_of};
ghost use Rattle.pol_expr.specs.Trees.{postorder};
ghost use Rattle.pol_constraints.specs.declared.constraint_rec.ConstraintItem.{ConstraintItem};
ghost use Rattle.pol_constraints.specs.ConstraintRecord.{constraint_at, spell_constraint, ConstraintFits, IsConstraint};
ghost use Rattle.pol_constraints.specs.ConstraintTexts.{ConstraintTree, constraint_symbols, constraint_text, constraint_words};

/// The two laws of a constraint of a policy's version.
pub fn constraints_have_laws()
    ensures again { (version : ℕ) (xtarget : Bool) → IsReadAgain (constraint_at version xtarget) spell_constraint (ConstraintFits version) }
    ensures spelled { (version : ℕ) (xtarget : Bool) → IsReadFromSpelling (constraint_at version xtarget) spell_constraint (ConstraintFits version) }
{}

/// The items of a constraint stand for one tree, and the text of them is that of the tree.
pub fn constraints_have_one_tree()
    ensures exists { (named : Named) (items : List ConstraintItem) → IsConstraint items → (t : ConstraintTree) × (postorder t ≡ constraint_symbols named items) }
    ensures unique { (t u : ConstraintTree) → postorder t ≡ postorder u → t ≡ u }
    ensures text { (named : Named) (items : List ConstraintItem) (t : ConstraintTree) → postorder t ≡ constraint_symbols named items → constraint_text named items ≡ infix_of constraint_words t }
{}
