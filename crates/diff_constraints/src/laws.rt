//! What the differences of constraints promise.

ghost use Rattle.std.specs.Prelude.{◌≡◌, ℕ, true, [], List, map};
ghost use Rattle.pol_constraints.specs.ConstraintRecord.{ConstraintFits, IsConstraint};
ghost use Rattle.pol_symbols.specs.declared.symbols.Symbols.{Symbols};
ghost use Rattle.pol_file.specs.declared.parts.Parts.{Parts};
ghost use Rattle.pol_texts.specs.SetTexts.{set_text};
ghost use Rattle.info_classes.specs.declared.ConstraintEntry.{ConstraintEntry};
ghost use Rattle.diff_constraints.specs.declared.keyword.ConstraintKeyword.{ConstraintKeyword};
ghost use Rattle.diff_constraints.specs.StatedConstraints.{Stated, has_keyword, stated};
ghost use Rattle.diff_constraints.specs.ConstraintDifferences.{constraint_changes, constraint_lines, line_with, turned_change};

/// The constraints of a policy do not differ from themselves.
#[tactic(auto, using(crate::proofs::ConstraintLaws::none_from_themselves))]
pub fn constraints_do_not_differ_from_themselves()
    ensures { (keyword : ConstraintKeyword) (policy : Parts) → constraint_lines keyword policy policy ≡ [] }
{}

/// The changes from the second constraints to the first are those from the first to the second, turned round: what is removed there
/// is added here, with the same line.
#[tactic(auto, using(crate::proofs::ConstraintLaws::changes_turned))]
pub fn constraint_changes_turn_round()
    ensures { (first second : List Stated) → constraint_changes second first ≡ map turned_change (constraint_changes first second) }
{}

/// The line of a constraint is its text with { } in place of its sets, filled with the texts of the sets: these stand there in the
/// order in which they are compared, and are all that a key leaves open.
pub fn constraint_lines_are_filled()
    ensures { (keyword : ConstraintKeyword) (symbols : Symbols) (version : ℕ) (entry : ConstraintEntry) → IsConstraint entry.constraint.items → ConstraintFits version entry.constraint → has_keyword keyword entry ≡ true → (stated keyword symbols entry).line ≡ line_with keyword (stated keyword symbols entry) (map set_text (stated keyword symbols entry).sets) }
{}
